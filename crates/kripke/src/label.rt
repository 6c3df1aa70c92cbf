ghost use Rattle.std.specs.Prelude.{◌≡◌, ℕ, ◌<◌, ◌≤◌, Bool, false, List, length, slice_index_or};
ghost use Rattle.kripke.specs.Telling.{Telling};

/// The most questions that a label kind has. A text that is to be read on more is refused by 9 (docs/REFUSALS.md, "Causes").
pub const MOST_QUESTIONS: usize = 32;

/// What shows in a state: the answers to the yes-or-no questions of a kind, numbered from 0 (docs/FORMATS.md, "Labels").
///
/// Whoever implements it proves that a kind has 1 to 32 questions, and that each label has as many answers. Asking refuses nothing.
pub trait Label: Drop {
    /// How many questions the kind has.
    ghost count: { ℕ };

    /// The answers of a label, question by question: all that a model sees of it.
    ghost answers: { Self → List Bool };

    /// How many questions the kind has, 1 to 32.
    fn questions() -> usize
        ensures { result ≡ count };

    /// The answer to question `i`, counted from 0; `false`, which is no, past the last question.
    fn answer(&self, i: usize) -> bool
        ensures { result ≡ slice_index_or (answers self.now) i false };

    /// The telling question: the least question, counted from 0, that the two labels answer differently; none exactly when they agree on all
    /// (docs/FORMATS.md, "Labels").
    fn telling(&self, other: &Self) -> Option<usize>
        ensures { Telling (answers self.now) (answers other.now) result }
    {
        (0..Self::questions()).find(|i| self.answer(*i) != other.answer(*i))
    }

    /// There is a question.
    ghost some: { 1 ≤ count };

    /// There are no more than `MOST_QUESTIONS`.
    ghost few: { count ≤ 32 };

    /// Each label answers just the questions of the kind.
    ghost answered: { (l : Self) → length (answers l) ≡ count };
}
