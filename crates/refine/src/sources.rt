ghost use Rattle.std.specs.Prelude.{ℕ, ◌<◌, ◌≤◌, length, slice_index};
ghost use Rattle.refine.specs.Chains.{Down, From};

use arrayvec::ArrayVec;

/// A step turned round (docs/LOGIC.md, "The comparison").
#[derive(Clone, Copy, Default)]
pub struct Step {
    /// The number of the state that it leaves, below 512.
    pub from: u16,
    /// The place, counted from 1, of an earlier step to the same state; 0 where there is none.
    pub earlier: u16,
}

/// The states that lead to each state, as a chain of steps: from the last step to a state each names the one before.
/// The steps of a state stand apart, so that they are written in one pass over the states that they leave
/// (docs/LOGIC.md, "The comparison").
#[derive(Drop)]
pub struct Sources {
    /// The place of the last step to each state, counted from 1; 0 where there is none.
    pub last: [u16; 512],
    /// The steps, in the order in which they were written: 16 a state at most, so 8,192.
    pub steps: ArrayVec<Step, 8192>,
    ghost down: { Down steps.items },
    ghost begun: { (t : ℕ) → slice_index last t ≤ length steps.items },
    ghost few: { (j : ℕ) → From steps.items j < 512 },
}
