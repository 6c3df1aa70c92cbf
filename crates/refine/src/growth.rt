ghost use Rattle.std.specs.Prelude.{◌+◌, ◌<◌, ◌≤◌, length, None, MatchOption};
ghost use Rattle.kripke.specs.Nodes.{formula};
ghost use Rattle.refine.specs.Growth.{Conjoined, Named, Names};

use crate::nodes::Nodes;
use kripke::node::Node;
use kripke::operator::Operator;

// How much room a call takes differs, so each says it; the type says what is reserved.
impl Nodes {
    // Adds the test and its negation; the number of the test.
    fn begin(&mut self, test: Node) -> u16
        requires { length self.old.list.items + 2 ≤ 2048 }
        ensures { Named self.old.list.items self.new.list.items test None result }
    {
        let x = self.list.len() as u16;
        self.list.push(test);
        self.list.push(Node::new(Operator::Not, x, 0));
        x
    }

    // The number of the test: the one that is known, else it is added, with its negation.
    pub(crate) fn name(&mut self, test: Node, known: Option<u16>) -> u16
        requires few { length self.old.list.items + 2 ≤ 2048 }
        requires known { MatchOption known (Unit {0}) (λ x. let ns = self.old.list.items in Names ns x (formula ns x)) }
        ensures { Named self.old.list.items self.new.list.items test known result }
    {
        match known {
            Some(x) => x,
            None => self.begin(test),
        }
    }

    // The number of a node for `a and b`: b itself where a is `true`, else a new one.
    pub(crate) fn conjoin(&mut self, a: u16, b: u16) -> u16
        requires few { length self.old.list.items + 1 ≤ 2048 }
        requires first { a < length self.old.list.items }
        requires second { b < length self.old.list.items }
        ensures { Conjoined self.old.list.items self.new.list.items a b result }
    {
        if self.list[a as usize].code == u8::from(Operator::Truth) {
            return b;
        }
        let r = self.list.len() as u16;
        self.list.push(Node::new(Operator::And, a, b));
        r
    }
}
