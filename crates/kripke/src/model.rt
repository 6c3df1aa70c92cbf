ghost use Rattle.kripke.specs.Structure.{Kripke, Lawful, or_first, size, state, successors};
ghost use Rattle.std.specs.Prelude.{◌≡◌, length};

use crate::label::Label;

/// A finite Kripke structure that is asked, one question at a time: 1 to 256 states, numbered from 0, each with a label and 1 to 16 successors.
///
/// Asking refuses nothing and changes nothing: a state number past the last is answered for state 0, a successor number past the last by the first successor.
/// Whoever implements it proves that what it means is a lawful structure (`Lawful`; docs/LOGIC.md, "Models"), and that each question is answered by it.
pub trait Model {
    /// The label of a state.
    type Label: Label;

    /// The structure that a model means: its states, each with the answers of its label and its successors, and the initial state's number.
    ghost meaning: { Self → Kripke };

    /// The number of states, 1 to 256.
    fn states(&self) -> usize
        ensures { result ≡ size (meaning self.now) };

    /// The number of the initial state, below the number of states.
    fn initial(&self) -> usize
        ensures { result ≡ (meaning self.now).initial };

    /// The label of state `s`.
    fn label(&self, s: usize) -> Self::Label
        ensures { Self.Label.Label.answers result ≡ (state (meaning self.now) s).answers };

    /// The number of successors of state `s`, 1 to 16.
    fn degree(&self, s: usize) -> usize
        ensures { result ≡ length (successors (meaning self.now) s) };

    /// Successor number `i` of state `s`, counted from 0: the number of a state.
    fn successor(&self, s: usize, i: usize) -> usize
        ensures { result ≡ or_first (successors (meaning self.now) s) i 0 };

    /// What each model means is lawful, with labels of its kind.
    ghost lawful: { (m : Self) → Lawful Self.Label.Label.count (meaning m) };
}
