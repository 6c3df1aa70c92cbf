ghost use Rattle.std.specs.Prelude.{◌≡◌, ◌+◌, ◌<◌, ◌≤◌, true, [], length, slice_index, slice_set, None, Some, MatchOption};
ghost use Rattle.compare.specs.Pruned.{Pruned, named, rename};
ghost use Rattle.compare.specs.Reach.{Marking, uses_a, uses_b};

use kripke::node::Node;
use kripke::operator::Operator;
use refine::nodes::Nodes;
use refine::partition::Partition;

// Nodes name each other by number, so the loops below go over the numbers. Their tables are arrays, since a round allocates nothing,
// and two of them, since marks go down from the root and new numbers up to it.

// The nodes that a node names. In a next-only table the last arm is that of `not` and EX.
fn operands(node: Node) -> (Option<u16>, Option<u16>)
    ensures first { result.0 ≡ named (uses_a node) node.a }
    ensures second { result.1 ≡ named (uses_b node) node.b }
{
    match Operator::try_from(node.code) {
        Ok(Operator::Truth | Operator::Question) => (None, None),
        Ok(Operator::And) => (Some(node.a), Some(node.b)),
        _ => (Some(node.a), None),
    }
}

// Marks the operand, where there is one.
fn mark(operand: Option<u16>, reached: &mut [bool; 2048])
    requires { MatchOption operand (Unit {0}) (λ x. x < 2048) }
    ensures { MatchOption operand (reached.new ≡ reached.old) (λ x. reached.new ≡ slice_set reached.old x true) }
{
    if let Some(x) = operand {
        reached[x as usize] = true;
    }
}

// The node with the new numbers of its operands.
fn renamed(node: Node, to: &[u16; 2048]) -> Node
    requires a { uses_a node ≡ true → node.a < 2048 }
    requires b { uses_b node ≡ true → node.b < 2048 }
    ensures { result ≡ rename to.now node }
{
    let (a, b) = operands(node);
    Node {
        code: node.code,
        a: place(a, to).unwrap_or(node.a),
        b: place(b, to).unwrap_or(node.b),
    }
}

// The new number of the operand, where there is one.
fn place(operand: Option<u16>, to: &[u16; 2048]) -> Option<u16>
    requires { MatchOption operand (Unit {0}) (λ x. x < 2048) }
    ensures { MatchOption operand (result ≡ None) (λ x. result ≡ Some (slice_index to.now x)) }
{
    Some(to[operand? as usize])
}

// Which nodes the root reaches. What a node names is earlier, so one pass down is enough.
#[tactic(auto, using(crate::proofs::Renames::nodes_fit))]
fn reach(parts: &Partition, root: usize) -> [bool; 2048]
    requires { root < length parts.now.nodes.list.items }
    ensures { Marking parts.now.nodes.list.items root 0 result }
{
    let mut reached = [false; 2048];
    reached[root] = true;
    for i in (0..root + 1).rev() {
        if reached[i] {
            let (a, b) = operands(parts.nodes.list[i]);
            mark(a, &mut reached);
            mark(b, &mut reached);
        }
    }
    reached
}

// Copies the marked nodes up to the root, renumbered.
#[tactic(auto, using(crate::proofs::Renames::nodes_fit))]
fn copy(parts: &Partition, root: usize, reached: &[bool; 2048], out: &mut Nodes)
    requires inside { root < length parts.now.nodes.list.items }
    requires marked { Marking parts.now.nodes.list.items root 0 reached.now }
    requires empty { out.old.list.items ≡ [] }
    ensures { Pruned parts.now.questions parts.now.nodes.list.items root out.new.list.items }
{
    let mut to = [0; 2048];
    for i in 0..root + 1 {
        if reached[i] {
            let m = out.list.len() as u16;
            out.list.push(renamed(parts.nodes.list[i], &to));
            to[i] = m;
        }
    }
}

// The nodes that the root reaches, in their order, renumbered. A struct of the partition and the root would be made for these two calls alone.
pub(crate) fn prune(parts: &Partition, root: usize, out: &mut Nodes)
    requires inside { root < length parts.now.nodes.list.items }
    requires empty { out.old.list.items ≡ [] }
    ensures { Pruned parts.now.questions parts.now.nodes.list.items root out.new.list.items }
{
    let reached = reach(parts, root);
    copy(parts, root, &reached, out);
}
