ghost use Rattle.std.specs.Prelude.{◌≡◌, ℕ, ◌<◌, ◌≤◌, ◌↔◌, T, false, length, slice_index, ◌==◌};
ghost use Rattle.kripke.specs.Classes.{Low};
ghost use Rattle.kripke.specs.Rounds.{total};
ghost use Rattle.refine.specs.Growth.{next_node};
ghost use Rattle.refine.specs.Pairs.{both_of, first_of, second_of};
ghost use Rattle.refine.specs.Rounding.{Asking, Halved, One, Rounded, Tried};
ghost use Rattle.refine.specs.Steps.{at};

use crate::nodes::Nodes;
use crate::pair::Pair;
use crate::partition::Partition;
use kripke::node::Node;
use kripke::operator::Operator;

// Which classes have gained or lost a state between the two tables.
fn changed(before: &[u16; 512], class: &[u16; 512], states: u16) -> [bool; 512]
    requires few { states ≤ 512 }
    requires before { Low states before.now }
    requires class { Low states class.now }
    ensures { (c : ℕ) → at result c ≡ false → (s : ℕ) → s < states → (slice_index class.now s ≡ c) ↔ (slice_index before.now s ≡ c) }
{
    let mut marks = [false; 512];
    for s in 0..states as usize {
        if class[s] != before[s] {
            marks[class[s] as usize] = true;
            marks[before[s] as usize] = true;
        }
    }
    marks
}

impl Partition {
    // All states in one class, whose formula is `true`.
    pub(crate) fn whole(states: u16, questions: usize) -> Partition
        requires some { 1 ≤ states }
        requires few { states ≤ 512 }
        ensures { One states questions result }
    {
        let mut nodes = Nodes::new();
        nodes.list.push(Node::new(Operator::Truth, 0, 0));
        Partition {
            states,
            questions,
            class: [0; 512],
            node: [0; 512],
            nodes,
            count: 1,
        }
    }

    // Splits the classes by each question.
    pub(crate) fn ask_all(&mut self, pair: &Pair)
        requires long { self.old.states ≡ total (first_of pair.now) (second_of pair.now) }
        requires asks { self.old.questions ≡ pair.now.first.questions }
        ensures { Asking (both_of pair.now) self.old self.new pair.now.first.questions }
    {
        for q in 0..self.questions {
            let row = pair.answer_row(q);
            self.split(Node::new(Operator::Question, q as u16, 0), &row);
        }
    }

    // Splits every class by one class of the table before, whose node is `name`: which states have a successor there.
    fn split_by(&mut self, pair: &Pair, before: &[u16; 512], c: u16, name: u16)
        requires { T (next_node self.old.questions (length self.old.nodes.list.items) (record { code = 5; a = name; b = 0 })) }
        ensures { Halved pair.now before.now c name self.old self.new }
    {
        let row = pair.successor_row(before, c);
        self.split(Node::new(Operator::EX, name, 0), &row);
    }

    // One round: two states stay together when they were, and each successor of either has one of the other in its class before the round.
    // `former` is the table of the last round but one: a class that has not changed since has split what it can. Did it split nothing?
    pub(crate) fn round(&mut self, pair: &Pair, former: &[u16; 512]) -> bool
        requires long { self.old.states ≡ total (first_of pair.now) (second_of pair.now) }
        requires low { Low self.old.states former.now }
        requires tried { Tried (both_of pair.now) self.old.states former.now self.old.class }
        ensures rounded { Rounded (first_of pair.now) (second_of pair.now) (both_of pair.now) self.old self.new }
        ensures rests { result ≡ (self.new.count == self.old.count) }
    {
        let before = self.count;
        let class = self.class;
        let node = self.node;
        let new = changed(former, &class, self.states);
        for c in 0..self.states {
            if class[c as usize] == c && new[c as usize] {
                self.split_by(pair, &class, c, node[c as usize]);
            }
        }
        self.count == before
    }
}
