ghost use Rattle.kripke.specs.Nodes.{FirstDisordered, LawfulNode, code_of};
ghost use Rattle.std.specs.Prelude.{◌≡◌, MatchBool};

use crate::operator::Operator;

/// The most nodes that a table may have where one is evaluated, read or reported: as many as the formula of a comparison can have.
/// A longer one is refused, by 14, 13 and 22 (docs/REFUSALS.md, "Causes").
pub const MOST_NODES: usize = 2045;

/// One node of a formula's table: an operator's code, and two numbers that name a question or earlier nodes of the table. A number that is not used is 0.
/// The last node of a table is its root. docs/FORMATS.md, "The node table", has the codes.
#[derive(Clone, Copy, PartialEq, Eq, Debug, Default)]
pub struct Node {
    /// The code of the operator, 0 to 12 in a node that is in order.
    pub code: u8,
    /// The question, counted from 0, or the place of the first operand, an earlier node.
    pub a: u16,
    /// The place of the second operand, an earlier node.
    pub b: u16,
}

impl Node {
    /// The node of an operator and its two numbers. They are not looked at: whether the node is in order, a table and a place decide,
    /// and it refuses nothing.
    pub fn new(operator: Operator, a: u16, b: u16) -> Node
        ensures { result ≡ record { code = code_of operator; a = a; b = b } }
    {
        Node {
            code: u8::from(operator),
            a,
            b,
        }
    }

    /// Whether the node is in order as node `i`, counted from 0, of a table on so many questions: the code is an operator's, a question is below `questions`,
    /// a node that is named is before `i`, and a number that is not used is 0 (docs/LOGIC.md, "Node tables"). Evaluation refuses a node that is not by 15
    /// (docs/REFUSALS.md, "Causes").
    pub fn in_order(self, questions: usize, i: usize) -> bool
        ensures { MatchBool result (LawfulNode questions i self) (¬ LawfulNode questions i self) }
    {
        let (a, b) = (self.a as usize, self.b as usize);
        match Operator::try_from(self.code) {
            Ok(Operator::Truth) => a == 0 && b == 0,
            Ok(Operator::Question) => a < questions && b == 0,
            Ok(Operator::And | Operator::Or | Operator::EU | Operator::AU) => a < i && b < i,
            Ok(_) => a < i && b == 0,
            Err(_) => false,
        }
    }
}

/// The place of the first node of a table that is not in order for so many questions; none exactly when all are. It looks at the nodes alone: a table may have any length, also none.
/// Evaluation refuses the table by 15 at this place (docs/REFUSALS.md, "Causes").
pub fn first_disordered(nodes: &[Node], questions: usize) -> Option<usize>
    ensures { FirstDisordered questions nodes.now result }
{
    nodes
        .iter()
        .enumerate()
        .position(|(i, node)| !node.in_order(questions, i))
}
