use crate::verdict::Verdict;

/// What a comparison is asked (docs/FORMATS.md, "Requests and answers of a comparison"). Any request may be made at any time; one out of place gets its refusal,
/// in layer 6 (docs/REFUSALS.md, "Causes").
#[derive(Clone, Copy, PartialEq, Eq, Debug)]
pub enum Request {
    /// One round. Refused by 17 where the comparison is closed.
    Round,
    /// The class of the state with this number. The states of both models are numbered through from 0, so there is one below their number, 512 at most;
    /// any other number is refused by 18.
    Class(usize),
    /// The verdict. Refused by 19 while the comparison is open.
    Verdict,
    /// The formula, into so many places: any number, of which 2,045 is always enough. Refused by 20 where the comparison is not closed as different,
    /// else by 21 where they are fewer than 4 N - 3 for N states in both models.
    Formula(usize),
}

/// What it answers, where the request is not refused (docs/FORMATS.md, "Requests and answers of a comparison").
#[derive(Clone, Copy, PartialEq, Eq, Debug)]
pub enum Answer {
    /// How many classes the round leaves, 1 to N for N states in both models, so 512 at most.
    Round(usize),
    /// The least number of a state in the class, 0 to the number that was asked of.
    Class(usize),
    /// The verdict.
    Verdict(Verdict),
    /// How many nodes the formula has, 1 to 4 N - 3 for N states in both models, so 2,045 at most. The nodes are those that the comparison lends as its table.
    Formula(usize),
}
