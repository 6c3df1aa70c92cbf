use kripke::node::Node;

/// How a comparison ended, to be told as text (docs/FORMATS.md, "The report"). Whether a table is in order is no matter of the report: a node's numbers are written as they are.
/// So are the rounds: any number is written, and a comparison has 0 to 512 of them.
#[derive(Clone, Copy, PartialEq, Eq, Debug)]
pub enum Report<'a> {
    /// The models are alike, which is known after so many rounds, 0 to 65,535. Such a report is refused only where the bytes are too few, by 22.
    Alike { rounds: u16 },
    /// They are different, which is known after so many rounds, 0 to 65,535, and these are the nodes of a formula that separates them, 0 to 2,045:
    /// a report of more is refused by 22 (docs/REFUSALS.md, "Causes").
    Different { rounds: u16, nodes: &'a [Node] },
}
