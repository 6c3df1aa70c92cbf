// What is done with one model, whatever holds it.
use crate::failure::Failure;
use crate::{condition, faults, listing};
use image::slot::Slot;
use image::stored::StoredModel;
use kripke::model::Model;
use labels::coded::Coded;
use labels::kind::Kind;
use labels::reading::Reading;
use labels::signal::SignalWord;
use rules::model::RuleModel;
use rules::rule::Rule;
use std::alloc::Global;
use std::fmt;

// A listing, a graph, or a condition to check. No closure, since what is done is generic in the model.
#[derive(Clone, Copy)]
pub(crate) enum Task<'a> {
    List,
    Graph,
    Check(&'a str),
}

fn perform<K: fmt::Display + Drop, M: Model>(
    heap: Global,
    kind: K,
    model: &M,
    task: Task,
) -> Result<String, Failure> {
    match task {
        Task::List => Ok(listing::list(heap, kind, model)?),
        Task::Graph => Ok(listing::graph(heap, model)?),
        Task::Check(text) => condition::check(heap, model, text),
    }
}

// The model of an image.
pub(crate) fn load<L: Coded>(
    heap: Global,
    image: &[u8],
    slot: Slot,
) -> Result<StoredModel<L>, Failure> {
    let mut model = StoredModel::new(heap)?;
    match model.load(image, slot) {
        Ok(()) => Ok(model),
        Err(refusal) => Err(faults::of_image::<L>(image, refusal)),
    }
}

fn on_labels<L: Coded>(heap: Global, image: &[u8], task: Task) -> Result<String, Failure> {
    let model = load::<L>(heap, image, Slot::First)?;
    perform(heap, L::kind(), &model, task)
}

pub(crate) fn on_image(heap: Global, image: &[u8], task: Task) -> Result<String, Failure> {
    // A match at each caller: no closure is generic in the label type, and a trait of what to do would be longer.
    match Kind::of_image(image) {
        Kind::SignalWords => on_labels::<SignalWord>(heap, image, task),
        Kind::Readings => on_labels::<Reading>(heap, image, task),
    }
}

pub(crate) fn on_rules(
    heap: Global,
    bits: usize,
    initial: usize,
    rules: &[Rule],
    task: Task,
) -> Result<String, Failure> {
    let mut model = RuleModel::new();
    match model.load(bits, initial, rules) {
        Ok(()) => perform(heap, "rules on signal words", &model, task),
        Err(refusal) => Err(faults::of_rules(bits, initial, rules, refusal)),
    }
}
