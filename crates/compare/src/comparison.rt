ghost use Rattle.std.specs.Prelude.{ℕ, ◌<◌};
ghost use Rattle.compare.specs.Kept.{Kept};
ghost use Rattle.kripke.specs.Rounds.{ClosedAfter};
ghost use Rattle.refine.specs.Refinements.{first, second};

use refine::nodes::Nodes;
use refine::refinement::Refinement;

/// A comparison of two models of one label kind, after some accepted rounds. docs/LOGIC.md has the rounds, the classes and the closing rule ("Rounds and classes").
///
/// It keeps its own copy of what the models mean, and was open after every number of rounds before the present one. Its calls refuse in layer 6 (docs/REFUSALS.md, "Causes"),
/// change nothing then, and allocate nothing. It takes about 100 KB and is returned by value: docs/PERFORMANCE.md says what stack that wants ("Memory and stack").
#[derive(Drop)]
pub struct Comparison {
    pub(crate) stages: Refinement,
    // Once it is closed as different: the nodes of a formula that separates the models.
    // Before, no node, and not an option: the room is part of the comparison.
    pub(crate) formula: Nodes,
    ghost open: { (j : ℕ) → j < stages.rounds → ¬ ClosedAfter (first stages) (second stages) j },
    ghost kept: { Kept stages formula.list.items },
}
