// A guided trial of a formula that holds at one panel and fails at the other: one way that the two can go, down to a question that they answer differently.
use crate::failure::Failure;
use crate::marks::Marks;
use crate::words::yes_or_no;
use kripke::model::Model;
use kripke::node::Node;
use kripke::operator::Operator;
use std::alloc::Global;
use std::fmt;

// A panel, its name, and where each node of the formula holds on it.
#[derive(Drop)]
struct Panel<'a, M> {
    name: &'static str,
    model: &'a M,
    marks: Marks,
}

impl<'a, M: Model> Panel<'a, M> {
    fn of(
        heap: Global,
        name: &'static str,
        model: &'a M,
        nodes: &[Node],
    ) -> Result<Panel<'a, M>, Failure> {
        let marks = Marks::of(heap, model, nodes)?;
        Ok(Panel { name, model, marks })
    }

    // The first successor of state s at which node i holds as asked.
    fn successor(&self, s: usize, i: usize, asked: bool) -> Option<usize> {
        for j in 0..self.model.degree(s) {
            let next = self.model.successor(s, j);
            if self.marks.holds(i, next) == asked {
                return Some(next);
            }
        }
        None
    }

    // Whether successor j of state s is none of those before it; a target may stand twice.
    fn is_new(&self, s: usize, j: usize) -> bool {
        let next = self.model.successor(s, j);
        for k in 0..j {
            if self.model.successor(s, k) == next {
                return false;
            }
        }
        true
    }

    // Whether the panel can step from state s to more than one state.
    fn has_choice(&self, s: usize) -> bool {
        for j in 1..self.model.degree(s) {
            if self.is_new(s, j) {
                return true;
            }
        }
        false
    }

    // The states that it can step to from state s, each once.
    fn write_choices<W: fmt::Write>(&self, f: &mut fmt::Formatter<W>, s: usize) -> fmt::Result {
        for j in 0..self.model.degree(s) {
            if self.is_new(s, j) {
                let comma = if j == 0 { "" } else { ", " };
                write!(f, "{comma}{}", self.model.successor(s, j))?;
            }
        }
        Ok(())
    }

    // The step from state s to state t, which is assumed where there is a choice.
    fn write_answer<W: fmt::Write>(
        &self,
        f: &mut fmt::Formatter<W>,
        s: usize,
        t: usize,
    ) -> fmt::Result {
        let name = self.name;
        if self.has_choice(s) {
            write!(f, "suppose {name} steps to state {t} (of ")?;
            self.write_choices(f, s)?;
            f.write_str(")\n")
        } else {
            writeln!(f, "{name} can only step to state {t}")
        }
    }
}

// A node of the formula, and a state of each panel: the node holds at one of the two and fails at the other.
#[derive(Clone, Copy)]
struct Place {
    node: usize,
    old: usize,
    new: usize,
}

// The answers of the two panels to a question: the one answers yes, and the other no.
fn write_answers<W: fmt::Write>(
    f: &mut fmt::Formatter<W>,
    question: usize,
    is_old: bool,
    at: Place,
) -> fmt::Result {
    let Place { old, new, .. } = at;
    let (of_old, of_new) = (yes_or_no(is_old), yes_or_no(!is_old));
    writeln!(
        f,
        "  see: q{question} is {of_old} in state {old} of OLD and {of_new} in state {new} of NEW"
    )
}

// A way from the initial states down to a question that the two panels answer differently.
#[derive(Drop)]
struct Steps<'a, M> {
    nodes: &'a [Node],
    old: Panel<'a, M>,
    new: Panel<'a, M>,
}

impl<'a, M: Model> Steps<'a, M> {
    // The formula's root at the initial states.
    fn start(&self) -> Place {
        Place {
            node: self.nodes.len().saturating_sub(1),
            old: self.old.model.initial(),
            new: self.new.model.initial(),
        }
    }

    // A step of one panel to a state where the node holds, and one of the other to a state where it fails.
    // Where EX of the node holds at the one and fails at the other, there is the first, and any step of the other is the second.
    fn step(&self, node: usize, is_old: bool, at: Place) -> Option<Place> {
        Some(Place {
            node,
            old: self.old.successor(at.old, node, is_old)?,
            new: self.new.successor(at.new, node, !is_old)?,
        })
    }

    // The step of the one panel, and that of the other: the one that is assumed, of those that it could take, or its only one.
    fn write_step<W: fmt::Write>(
        &self,
        f: &mut fmt::Formatter<W>,
        is_old: bool,
        at: Place,
        to: Place,
    ) -> fmt::Result {
        if is_old {
            write!(f, "  OLD steps to state {}; ", to.old)?;
            self.new.write_answer(f, at.new, to.new)
        } else {
            write!(f, "  NEW steps to state {}; ", to.new)?;
            self.old.write_answer(f, at.old, to.old)
        }
    }

    // The operand of a negation or a conjunction; of two the first, unless the panels agree on it.
    fn part(&self, node: &Node, at: Place) -> Place {
        let first = usize::from(node.a);
        if self.old.marks.holds(first, at.old) == self.new.marks.holds(first, at.new) {
            Place {
                node: usize::from(node.b),
                ..at
            }
        } else {
            Place { node: first, ..at }
        }
    }
}

impl<'a, M: Model> fmt::Display for Steps<'a, M> {
    fn fmt<W: fmt::Write>(&self, f: &mut fmt::Formatter<W>) -> fmt::Result {
        let mut at = self.start();
        // An operand stands before its node, so there are no more steps than nodes; a loop without their number would owe that it ends.
        for _ in 0..self.nodes.len() {
            let Some(node) = self.nodes.get(at.node) else {
                break;
            };
            let is_old = self.old.marks.holds(at.node, at.old);
            let operand = usize::from(node.a);
            match Operator::try_from(node.code) {
                Ok(Operator::Question) => return write_answers(f, operand, is_old, at),
                Ok(Operator::EX) => {
                    let Some(to) = self.step(operand, is_old, at) else {
                        break;
                    };
                    self.write_step(f, is_old, at, to)?;
                    at = to;
                }
                _ => at = self.part(node, at),
            }
        }
        Ok(())
    }
}

pub(crate) fn trial<M: Model>(
    heap: Global,
    nodes: &[Node],
    old: &M,
    new: &M,
) -> Result<String, Failure> {
    let old = Panel::of(heap, "OLD", old, nodes)?;
    let new = Panel::of(heap, "NEW", new, nodes)?;
    let (s, t) = (old.model.initial(), new.model.initial());
    let steps = Steps { nodes, old, new };
    Ok(format!(in heap; "  start: OLD in state {s}, NEW in state {t}\n{steps}")?)
}
