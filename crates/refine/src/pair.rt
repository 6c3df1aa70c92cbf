ghost use Rattle.std.specs.Prelude.{◌≡◌};
ghost use Rattle.kripke.specs.Rounds.{total};
ghost use Rattle.kripke.specs.Union.{both};
ghost use Rattle.refine.specs.Sources.{Leads};
ghost use Rattle.refine.specs.Tables.{structure_of};

use crate::sources::Sources;
use crate::table::Table;
use crate::turning::reverse;

/// Two structures whose labels answer the same questions, and for each state the states that lead to it. The states of both are numbered through from 0,
/// those of the second after those of the first (docs/LOGIC.md, "The comparison").
#[derive(Drop)]
pub struct Pair {
    /// The first structure, 1 to 256 states.
    pub first: Table,
    /// The second, 1 to 256 states.
    pub second: Table,
    /// The states that lead to each state.
    pub sources: Sources,
    ghost level: { second.questions ≡ first.questions },
    ghost leads: { Leads (both (structure_of first) (structure_of second)) sources (total (structure_of first) (structure_of second)) },
}

impl Pair {
    pub(crate) fn new(first: Table, second: Table) -> Pair
        requires { second.questions ≡ first.questions }
        ensures first { result.first ≡ first }
        ensures second { result.second ≡ second }
    {
        let sources = reverse(&first, &second);
        Pair {
            first,
            second,
            sources,
        }
    }
}
