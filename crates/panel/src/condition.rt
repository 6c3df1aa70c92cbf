// A condition on one model: where it holds.
use crate::failure::Failure;
use crate::faults;
use crate::marks::Marks;
use crate::words::{Counted, yes_or_no};
use kripke::label::Label;
use kripke::model::Model;
use kripke::node::{MOST_NODES, Node};
use reader::read_formula;
use std::alloc::{AllocError, Global};
use std::fmt;

// The nodes of a condition on so many questions.
fn nodes_of(heap: Global, text: &str, questions: usize) -> Result<Vec<Node>, Failure> {
    let mut nodes = vec![in heap; Node::default(); MOST_NODES]?;
    match read_formula(text.as_bytes(), questions, nodes.as_mut_slice()) {
        Ok(count) => {
            nodes.truncate(count);
            Ok(nodes)
        }
        Err(refusal) => Err(faults::of_text(heap, text, refusal)?),
    }
}

// The states at which the root holds, each after a space.
#[derive(Drop)]
struct States<'a> {
    marks: &'a Marks,
    states: usize,
}

impl<'a> fmt::Display for States<'a> {
    fn fmt<W: fmt::Write>(&self, f: &mut fmt::Formatter<W>) -> fmt::Result {
        for s in 0..self.states {
            if self.marks.root_holds(s) {
                write!(f, " {s}")?;
            }
        }
        Ok(())
    }
}

// Whether it holds at the initial state, and the states at which it holds.
fn answer_text<M: Model>(
    heap: Global,
    model: &M,
    text: &str,
    marks: &Marks,
) -> Result<String, AllocError> {
    let answer = yes_or_no(marks.root.holds);
    let count = marks.root.count;
    let (states, initial) = (model.states(), model.initial());
    format!(in heap;
        "{answer}: {text}\ninitial state {initial}; holds at {count} of {}:{}\n",
        Counted(states, "state"),
        States { marks, states }
    )
}

// Whether the condition holds at the initial state, and at which states it holds.
pub(crate) fn check<M: Model>(heap: Global, model: &M, text: &str) -> Result<String, Failure> {
    let nodes = nodes_of(heap, text, M::Label::questions())?;
    let marks = Marks::of(heap, model, nodes.as_slice())?;
    Ok(answer_text(heap, model, text, &marks)?)
}
