ghost use Rattle.std.specs.Prelude.{◌≡◌, ◌+◌, ◌<◌, ◌≤◌, not};
ghost use Rattle.compare.specs.Closing.{level};
ghost use Rattle.compare.specs.Kept.{Kept};
ghost use Rattle.kripke.specs.Structure.{size};
ghost use Rattle.refine.specs.Refinements.{first, second};
ghost use Rattle.refine.specs.Steps.{class_of};

use crate::prune::prune;
use refine::nodes::Nodes;
use refine::refinement::Refinement;

// These take the stages alone: between a round and `keep` there is no whole comparison for a method.

// The classes of the initial states; in the pair the second's states come past those of the first.
fn initial_classes(stages: &Refinement) -> (u16, u16)
    ensures one { result.0 ≡ class_of stages.now.parts (first stages.now).initial }
    ensures other { result.1 ≡ class_of stages.now.parts (size (first stages.now) + (second stages.now).initial) }
{
    let one = stages.pair.first.initial;
    let other = stages.pair.first.rows.len() + stages.pair.second.initial;
    (stages.parts.class[one], stages.parts.class[other])
}

// Are the initial states in different classes?
pub(crate) fn differs(stages: &Refinement) -> bool
    ensures { result ≡ not (level (first stages.now) (second stages.now) stages.now.rounds) }
{
    let (one, other) = initial_classes(stages);
    one != other
}

// Keeps the formula of the first initial state's class, with its parts alone, if the initial states differ.
pub(crate) fn keep(stages: &Refinement, formula: &mut Nodes)
    ensures { Kept stages.now formula.new.list.items }
{
    formula.list.clear();
    let (one, other) = initial_classes(stages);
    if one != other {
        prune(
            &stages.parts,
            stages.parts.node[one as usize] as usize,
            formula,
        );
    }
}
