// A model as text: a listing, or a graph for Graphviz.
use crate::words::Counted;
use kripke::label::Label;
use kripke::model::Model;
use std::alloc::{AllocError, Global};
use std::fmt;

// The questions that a label answers yes, each after a space.
#[derive(Drop)]
struct Answers<L>(L);

impl<L: Label> fmt::Display for Answers<L> {
    fn fmt<W: fmt::Write>(&self, f: &mut fmt::Formatter<W>) -> fmt::Result {
        for i in 0..L::questions() {
            if self.0.answer(i) {
                write!(f, " q{i}")?;
            }
        }
        Ok(())
    }
}

// The successors of a state, each after a space.
#[derive(Drop)]
struct Successors<'a, M> {
    model: &'a M,
    state: usize,
}

impl<'a, M: Model> fmt::Display for Successors<'a, M> {
    fn fmt<W: fmt::Write>(&self, f: &mut fmt::Formatter<W>) -> fmt::Result {
        for i in 0..self.model.degree(self.state) {
            write!(f, " {}", self.model.successor(self.state, i))?;
        }
        Ok(())
    }
}

// A line a state: its number, the questions that it answers yes, and its successors.
#[derive(Drop)]
struct Lines<'a, M>(&'a M);

impl<'a, M: Model> fmt::Display for Lines<'a, M> {
    fn fmt<W: fmt::Write>(&self, f: &mut fmt::Formatter<W>) -> fmt::Result {
        let model = self.0;
        for state in 0..model.states() {
            let answers = Answers(model.label(state));
            let successors = Successors { model, state };
            writeln!(f, "state {state}:{answers} ->{successors}")?;
        }
        Ok(())
    }
}

// The kind, the number of states and the initial state, and then a line a state.
pub(crate) fn list<K: fmt::Display + Drop, M: Model>(
    heap: Global,
    kind: K,
    model: &M,
) -> Result<String, AllocError> {
    let states = Counted(model.states(), "state");
    let initial = model.initial();
    let lines = Lines(model);
    format!(in heap; "{kind}, {states}, initial state {initial}\n{lines}")
}

// A line a step from a state.
#[derive(Drop)]
struct Edges<'a, M> {
    model: &'a M,
    state: usize,
}

impl<'a, M: Model> fmt::Display for Edges<'a, M> {
    fn fmt<W: fmt::Write>(&self, f: &mut fmt::Formatter<W>) -> fmt::Result {
        let state = self.state;
        for i in 0..self.model.degree(state) {
            writeln!(f, "    {state} -> {};", self.model.successor(state, i))?;
        }
        Ok(())
    }
}

// Each state, labelled by the questions that it answers yes, and its edges; the initial state in a double circle.
#[derive(Drop)]
struct Vertices<'a, M>(&'a M);

impl<'a, M: Model> fmt::Display for Vertices<'a, M> {
    fn fmt<W: fmt::Write>(&self, f: &mut fmt::Formatter<W>) -> fmt::Result {
        let model = self.0;
        for state in 0..model.states() {
            let answers = Answers(model.label(state));
            let shape = shape(state == model.initial());
            let edges = Edges { model, state };
            write!(
                f,
                "    {state} [label=\"{state}{answers}\"{shape}];\n{edges}"
            )?;
        }
        Ok(())
    }
}

fn shape(is_initial: bool) -> &'static str {
    if is_initial {
        ", shape=doublecircle"
    } else {
        ""
    }
}

pub(crate) fn graph<M: Model>(heap: Global, model: &M) -> Result<String, AllocError> {
    format!(in heap; "digraph panel {{\n{}}}\n", Vertices(model))
}
