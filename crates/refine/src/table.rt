ghost use Rattle.std.specs.Prelude.{◌≡◌, ℕ, ◌<◌, ◌≤◌, length};
ghost use Rattle.kripke.specs.Structure.{Member, state, successors};
ghost use Rattle.refine.specs.Rows.{structure};

use crate::row::Row;
use arrayvec::ArrayVec;

/// A lawful structure as it was read from a model (docs/LOGIC.md, "Models").
#[derive(Drop)]
pub struct Table {
    /// How many questions its labels answer, 32 at most.
    pub questions: usize,
    /// The number of the initial state, below the number of states.
    pub initial: usize,
    /// The states, 1 to 256.
    pub rows: ArrayVec<Row, 256>,
    ghost asks: { questions ≤ 32 },
    ghost some: { 1 ≤ length rows.items },
    ghost few: { length rows.items ≤ 256 },
    ghost begins: { initial < length rows.items },
    ghost answered: { (s : ℕ) → s < length rows.items → length (state (structure initial rows.items) s).answers ≡ questions },
    ghost onward: { (s : ℕ) → s < length rows.items → 1 ≤ length (successors (structure initial rows.items) s) },
    ghost narrow: { (s : ℕ) → s < length rows.items → length (successors (structure initial rows.items) s) ≤ 16 },
    ghost inside: { (s t : ℕ) → s < length rows.items → Member t (successors (structure initial rows.items) s) → t < length rows.items },
}
