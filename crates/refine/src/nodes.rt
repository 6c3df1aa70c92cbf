ghost use Rattle.std.specs.Prelude.{◌≡◌, []};

use arrayvec::ArrayVec;
use kripke::node::Node;

/// A table of nodes (docs/LOGIC.md, "Node tables") with room for 2,048, which is more than the formula of a comparison can have: 2,045
/// (docs/LOGIC.md, "The comparison").
#[derive(Drop)]
pub struct Nodes {
    /// The nodes, the last one the root.
    pub list: ArrayVec<Node, 2048>,
}

impl Nodes {
    /// A table of no node. It allocates nothing, and cannot fail.
    pub fn new() -> Nodes
        ensures { result.list.items ≡ [] }
    {
        Nodes {
            list: ArrayVec::new(),
        }
    }
}
