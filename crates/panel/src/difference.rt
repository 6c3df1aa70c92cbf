// The comparison of two images, in words.
use crate::failure::Failure;
use crate::task::load;
use crate::trial::trial;
use crate::words::Counted;
use compare::comparison::Comparison;
use compare::verdict::Outcome;
use image::slot::Slot;
use kripke::label::Label;
use kripke::model::Model;
use kripke::node::Node;
use labels::coded::Coded;
use labels::kind::Kind;
use labels::reading::Reading;
use labels::signal::SignalWord;
use printer::print_formula;
use std::alloc::{AllocError, Global};
use std::fmt;

// A table of nodes, a line a node. The crate `report` writes such lines too, but into given bytes and below a head of its own.
#[derive(Drop)]
struct Table<'a>(&'a [Node]);

impl<'a> fmt::Display for Table<'a> {
    fn fmt<W: fmt::Write>(&self, f: &mut fmt::Formatter<W>) -> fmt::Result {
        for (i, node) in self.0.iter().enumerate() {
            let Node { code, a, b } = *node;
            writeln!(f, "{i} {code} {a} {b}")?;
        }
        Ok(())
    }
}

// The formula as text, or, where it is too long or too deep to be read back, as its table of nodes.
fn formula(heap: Global, nodes: &[Node], questions: usize) -> Result<String, AllocError> {
    match print_formula(heap, nodes, questions)? {
        Some(text) => format!(in heap; "true at OLD, false at NEW: {text}\n"),
        None => format!(in heap;
            "true at OLD, false at NEW (too long or too deep to be written as a text, so as nodes: number, code, a, b):\n{}",
            Table(nodes)
        ),
    }
}

// What is told of panels that differ.
fn different<M: Model>(
    heap: Global,
    rounds: usize,
    nodes: &[Node],
    old: &M,
    new: &M,
) -> Result<String, Failure> {
    let formula = formula(heap, nodes, M::Label::questions())?;
    let steps = trial(heap, nodes, old, new)?;
    let rounds = Counted(rounds, "round");
    Ok(format!(in heap; "different after {rounds}\n{formula}one way it can go:\n{steps}")?)
}

fn alike(heap: Global, rounds: usize, old: usize, new: usize) -> Result<String, AllocError> {
    let rounds = Counted(rounds, "round");
    let (old, new) = (Counted(old, "state"), Counted(new, "state"));
    format!(in heap;
        "alike after {rounds} ({old} and {new}): no condition of any size tells the two panels apart\n"
    )
}

// What a closed comparison of the two models tells.
fn verdict_text<M: Model>(
    heap: Global,
    comparison: &Comparison,
    old: &M,
    new: &M,
) -> Result<String, Failure> {
    let verdict = comparison.verdict()?;
    match verdict.outcome {
        Outcome::Alike => Ok(alike(heap, verdict.rounds, old.states(), new.states())?),
        Outcome::Different => different(heap, verdict.rounds, comparison.table()?, old, new),
    }
}

fn compare_models<M: Model>(heap: Global, old: &M, new: &M) -> Result<String, Failure> {
    let mut comparison = Comparison::open(old, new);
    comparison.close();
    verdict_text(heap, &comparison, old, new)
}

fn of_kind<L: Coded>(heap: Global, old: &[u8], new: &[u8]) -> Result<String, Failure> {
    let old = load::<L>(heap, old, Slot::First)?;
    let new = load::<L>(heap, new, Slot::Second)?;
    compare_models(heap, &old, &new)
}

// Compares two images; the first one's kind is asked of both.
pub(crate) fn compare(heap: Global, old: &[u8], new: &[u8]) -> Result<String, Failure> {
    // A match at each caller: no closure is generic in the label type, and a trait of what to do would be longer.
    match Kind::of_image(old) {
        Kind::SignalWords => of_kind::<SignalWord>(heap, old, new),
        Kind::Readings => of_kind::<Reading>(heap, old, new),
    }
}
