ghost use Rattle.std.specs.Prelude.{◌≡◌, ◌+◌, ◌*◌, ◌≤◌, length};
ghost use Rattle.kripke.specs.Classes.{Led, Low};
ghost use Rattle.refine.specs.Classes.{Here, leaders};
ghost use Rattle.refine.specs.Growth.{Orderly};

use crate::nodes::Nodes;

/// Numbered states in classes, each class with the node of a formula that holds at its states alone. A class goes by its least state
/// (docs/LOGIC.md, "The comparison").
///
/// The tables are arrays, of which the first `states` places count: a round works from a copy of them, and must not ask for memory.
#[derive(Drop)]
pub struct Partition {
    /// How many states there are, 512 at most. They are numbered from 0.
    pub states: u16,
    /// How many questions their labels answer, 32 at most where they are those of two models.
    pub questions: usize,
    /// The class of each state: the number of its least state.
    pub class: [u16; 512],
    /// The node of each class, at the place of its least state.
    pub node: [u16; 512],
    /// The table of the nodes, at most 4 C - 3 for C classes.
    pub nodes: Nodes,
    /// How many classes there are, no more than states.
    pub count: u16,
    ghost few: { states ≤ 512 },
    // At most four nodes for each class but the first, and one.
    ghost spare: { length nodes.list.items + 3 ≤ 4 * count },
    ghost low: { Low states class },
    ghost led: { Led states class },
    ghost here: { Here states class node nodes.list.items },
    ghost orderly: { Orderly questions nodes.list.items },
    ghost counted: { count ≡ leaders class states },
}
