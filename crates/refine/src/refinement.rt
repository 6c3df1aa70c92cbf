ghost use Rattle.std.specs.Prelude.{◌≡◌, suc, ◌≤◌, if◌then◌else◌};
ghost use Rattle.kripke.specs.Classes.{Low, Numbered};
ghost use Rattle.kripke.specs.Rounds.{total};
ghost use Rattle.refine.specs.Pairs.{both_of, first_of, second_of};
ghost use Rattle.refine.specs.Rounding.{Tried};
ghost use Rattle.refine.specs.Stages.{ExactByTest, rested};
ghost use Rattle.refine.specs.Steps.{Shallow};

use crate::pair::Pair;
use crate::partition::Partition;

/// Two structures, and the classes of their states after some rounds. docs/LOGIC.md has how a round splits them ("The comparison").
#[derive(Drop)]
pub struct Refinement {
    /// The structures.
    pub pair: Pair,
    /// The classes of their states.
    pub parts: Partition,
    /// The class of each state before the last round, or before the labels were looked at: all states were in one class then.
    pub before: [u16; 512],
    /// How many rounds were made, fewer than there are states, or as many.
    pub rounds: usize,
    /// The last round split nothing.
    pub rests: bool,
    ghost long: { parts.states ≡ total (first_of pair) (second_of pair) },
    ghost asks: { parts.questions ≡ pair.first.questions },
    ghost exact: { ExactByTest (both_of pair) parts },
    ghost shallow: { Shallow rounds parts },
    ghost low: { Low parts.states before },
    ghost tried: { Tried (both_of pair) parts.states before parts.class },
    ghost numbered: { Numbered (first_of pair) (second_of pair) rounds parts.class },
    ghost last: { rests ≡ rested (first_of pair) (second_of pair) rounds },
    ghost pace: { (if rests then rounds else suc rounds) ≤ parts.count },
}
