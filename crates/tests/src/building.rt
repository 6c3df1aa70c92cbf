// What tests share: images from their fields, the models of them, tables of nodes, and calls of other crates, here once for all tests.
// A call here has no contract: a test that goes through it does not load what the callee promises, and is proved in less time.

use compare::comparison::Comparison;
use compare::verdict::{Outcome, Verdict};
use evaluator::{Evaluation, evaluate};
use image::slot::Slot;
use image::stored::StoredModel;
use kripke::label::Label;
use kripke::model::Model;
use kripke::node::Node;
use kripke::operator::Operator;
use kripke::refusal::Refusal;
use labels::coded::Coded;
use labels::signal::SignalWord;
use pair_job::job::compare_images;
use printer::print_formula;
use reader::read_formula;
use std::alloc::{AllocError, Global};
use std::process::Abort;
use std::test::Fail;

// An image of this kind and initial state: of each state its label and first link, and of each link its target and next link.
pub(crate) fn image(
    heap: Global,
    kind: u8,
    initial: u16,
    states: &[([u8; 4], u16)],
    links: &[(u16, u16)],
) -> Result<Vec<u8>, Fail> {
    let mut bytes = vec![in heap; kind, 0]?;
    push_pair(
        &mut bytes,
        u16::try_from(states.len())?,
        u16::try_from(links.len())?,
    )?;
    bytes.extend_from_slice(&initial.to_le_bytes())?;
    for (label, first) in states {
        bytes.extend_from_slice(label)?;
        push_pair(&mut bytes, *first, 0)?;
    }
    for (target, next) in links {
        push_pair(&mut bytes, *target, *next)?;
    }
    Ok(bytes)
}

fn push_pair(bytes: &mut Vec<u8>, one: u16, two: u16) -> Result<(), AllocError> {
    bytes.extend_from_slice(&one.to_le_bytes())?;
    bytes.extend_from_slice(&two.to_le_bytes())
}

// The model that an image loads.
pub(crate) fn loaded<C: Coded + Drop>(heap: Global, bytes: &[u8]) -> Result<StoredModel<C>, Fail> {
    let mut model = StoredModel::<C>::new(heap)?;
    model.load(bytes, Slot::First)?;
    Ok(model)
}

// The model that an image of these states and links loads.
pub(crate) fn stored<C: Coded + Drop>(
    heap: Global,
    states: &[([u8; 4], u16)],
    links: &[(u16, u16)],
) -> Result<StoredModel<C>, Fail> {
    let bytes = image(heap, u8::from(C::kind()), 0, states, links)?;
    loaded(heap, bytes.as_slice())
}

pub(crate) const DARK: [u8; 4] = [0, 0, 0, 0];

pub(crate) const ONE: [u8; 4] = [1, 0, 0, 0];

// The image of a chain of 256 states; the last one shows the label and stays.
pub(crate) fn chain_image(heap: Global, last: [u8; 4]) -> Result<Vec<u8>, Fail> {
    let mut states = Vec::new(heap);
    let mut links = Vec::new(heap);
    for s in 1..256 {
        states.push((DARK, s))?;
        links.push((s, 0))?;
    }
    states.push((last, 256))?;
    links.push((255, 0))?;
    image(heap, 1, 0, states.as_slice(), links.as_slice())
}

pub(crate) fn chain(heap: Global, last: [u8; 4]) -> Result<StoredModel<SignalWord>, Fail> {
    let bytes = chain_image(heap, last)?;
    loaded(heap, bytes.as_slice())
}

// What the pair job answers to two images, one after the other.
pub(crate) fn job(heap: Global, first: &[u8], second: &[u8]) -> Result<Vec<u8>, Fail> {
    let mut input = Vec::new(heap);
    input.extend_from_slice(first)?;
    input.extend_from_slice(second)?;
    Ok(compare_images(heap, input.as_slice())?)
}

// How many lines a text ends.
pub(crate) fn lines(text: &[u8]) -> usize {
    let mut count = 0usize;
    for byte in text {
        if *byte == b'\n' {
            count = count.wrapping_add(1);
        }
    }
    count
}

// The nodes of these operators and numbers.
pub(crate) fn table(heap: Global, nodes: &[(Operator, u16, u16)]) -> Result<Vec<Node>, AllocError> {
    let mut table = Vec::new(heap);
    for (operator, a, b) in nodes {
        table.push(Node::new(*operator, *a, *b))?;
    }
    Ok(table)
}

// The node, and so many more, each of the operator over the node before it: over it twice, or once with the number 0.
pub(crate) fn tower(
    heap: Global,
    first: Node,
    operator: Operator,
    twice: bool,
    more: u16,
) -> Result<Vec<Node>, AllocError> {
    let mut nodes = Vec::new(heap);
    nodes.push(first)?;
    for before in 0..more {
        nodes.push(Node::new(operator, before, if twice { before } else { 0 }))?;
    }
    Ok(nodes)
}

pub(crate) fn read(text: &[u8], questions: usize, places: &mut [Node]) -> Result<usize, Refusal> {
    read_formula(text, questions, places)
}

pub(crate) fn print(
    heap: Global,
    nodes: &[Node],
    questions: usize,
) -> Result<Option<String>, AllocError> {
    print_formula(heap, nodes, questions)
}

pub(crate) fn evaluation<M: Model>(
    model: &M,
    nodes: &[Node],
    words: &mut [u64],
) -> Result<Evaluation, Refusal> {
    evaluate(model, nodes, words)
}

// Whether the formula holds in the model's initial state.
pub(crate) fn holds<M: Model>(heap: Global, model: &M, nodes: &[Node]) -> Result<bool, Fail> {
    let mut words = vec![in heap; 0; 8180]?;
    Ok(evaluation(model, nodes, words.as_mut_slice())?.holds)
}

// As many words, each with its number.
pub(crate) fn numbered(heap: Global, count: usize) -> Result<Vec<u64>, AllocError> {
    let mut words = Vec::new(heap);
    for j in 0..count {
        words.push(j as u64)?;
    }
    Ok(words)
}

// The table is evaluated to these rows, and the root to this; of a hundred words those past the rows stay.
pub(crate) fn evaluated<M: Model>(
    rt: &impl Abort,
    heap: Global,
    model: &M,
    nodes: &[Node],
    rows: &[[u64; 4]],
    root: Evaluation,
) -> Result<(), Fail> {
    let mut words = numbered(heap, 100)?;
    let mut wanted = numbered(heap, 100)?;
    for (place, row) in wanted.as_chunks_mut().0.iter_mut().zip(rows) {
        *place = *row;
    }
    assert_eq!(rt; evaluation(model, nodes, words.as_mut_slice()), Ok(root));
    assert_eq!(rt; words, wanted);
    Ok(())
}

// The comparison of the two, run to its end, which is so.
pub(crate) fn closed<L: Label, M: Model<Label = L>, N: Model<Label = L>>(
    rt: &impl Abort,
    first: &M,
    second: &N,
    rounds: usize,
    outcome: Outcome,
) -> Comparison {
    let mut c = Comparison::open(first, second);
    c.close();
    assert_eq!(rt; c.verdict(), Ok(Verdict { rounds, outcome }));
    c
}
