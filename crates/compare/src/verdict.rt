/// Whether two models are alike (docs/LOGIC.md, "The theorems": what closing means).
#[derive(Clone, Copy, PartialEq, Eq, Debug)]
pub enum Outcome {
    /// No CTL formula of any size separates the initial states.
    Alike,
    /// Some CTL formula separates them.
    Different,
}

/// How a comparison was closed, by the closing rule (docs/LOGIC.md, "Rounds and classes").
#[derive(Clone, Copy, PartialEq, Eq, Debug)]
pub struct Verdict {
    /// After how many rounds, 0 to the number of states of both models, 512 at most.
    pub rounds: usize,
    /// Whether the models are alike.
    pub outcome: Outcome,
}
