ghost use Rattle.std.specs.Prelude.{◌≡◌, ℕ, ◌<◌, ◌≤◌, T, length, slice_index};
ghost use Rattle.refine.specs.Growth.{Names, Ready, next_node, test_formula};
ghost use Rattle.refine.specs.Steps.{Divided, Odd, Parted, at, class_of, renumbered};
ghost use Rattle.std.specs.Bool.{beq};

use crate::partition::Partition;
use kripke::node::Node;

// Gives the number s to the states of class c that agree with s on the row.
fn renumber(class: &mut [u16; 512], row: &[bool; 512], states: u16, c: u16, s: u16)
    requires { (states ≤ 512) × (s < states) }
    ensures { (t : ℕ) → t < states → slice_index class.new t ≡ renumbered class.old row.now c s t }
{
    let side = row[s as usize];
    for (t, number) in class[..states as usize].iter_mut().enumerate() {
        if *number == c && row[t] == side {
            *number = s;
        }
    }
}

impl Partition {
    // Parts the class of s by the row, whose test stands at `name` or is added: the states that agree with s get the number s.
    // The number of the test.
    fn part(&mut self, s: u16, test: Node, name: Option<u16>, row: &[bool; 512]) -> u16
        requires ready { Ready self.old.questions self.old.nodes.list.items test name }
        requires odd { Odd self.old s row.now }
        ensures parted { Parted self.old self.new (test_formula self.old.nodes.list.items test name) s row.now }
        ensures named { Names self.new.nodes.list.items result (test_formula self.old.nodes.list.items test name) }
    {
        let x = self.nodes.name(test, name);
        let c = self.class[s as usize];
        let whole = self.node[c as usize];
        let side = row[s as usize];
        let stay = self.nodes.conjoin(whole, x + u16::from(side));
        let leave = self.nodes.conjoin(whole, x + u16::from(!side));
        self.node[c as usize] = stay;
        self.node[s as usize] = leave;
        renumber(&mut self.class, row, self.states, c, s);
        self.count += 1;
        x
    }

    // Is s on the side of the row where the least state of its class is?
    fn agrees(&self, s: u16, row: &[bool; 512]) -> bool
        requires { s < self.now.states }
        ensures { result ≡ beq (at row.now (class_of self.now s)) (at row.now s) }
    {
        row[self.class[s as usize] as usize] == row[s as usize]
    }

    // Splits every class by the row. The test is added, with its negation, only if some class falls apart.
    pub(crate) fn split(&mut self, test: Node, row: &[bool; 512])
        requires { T (next_node self.old.questions (length self.old.nodes.list.items) test) }
        ensures { Divided self.old self.new test row.now }
    {
        let mut name = None;
        for s in 0..self.states {
            if !self.agrees(s, row) {
                name = Some(self.part(s, test, name, row));
            }
        }
    }
}
