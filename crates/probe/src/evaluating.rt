// A node table, evaluated on a model.
use crate::failure::Failure;
use crate::fields::Fields;
use crate::source::{Held, Source};
use crate::text::Text;
use evaluator::{Evaluation, evaluate};
use image::slot::Slot;
use kripke::model::Model;
use kripke::node::Node;
use std::alloc::{AllocError, Global};

// What word i holds before the call: i times this.
const FILLING: u64 = 0x0123_4567_89ab_cdef;

fn put_evaluation<M: Model>(
    text: &mut Text,
    model: &M,
    nodes: &[Node],
    words: &mut [u64],
) -> Result<(), AllocError> {
    match evaluate(model, nodes, words) {
        Ok(Evaluation { holds: true, count }) => text.put_line("holds yes", &[count]),
        Ok(
            Evaluation {
                holds: false,
                count,
            },
        ) => text.put_line("holds no", &[count]),
        Err(refusal) => text.put_refusal(refusal),
    }
}

fn put_words(text: &mut Text, words: &[u64]) -> Result<(), AllocError> {
    text.put("words")?;
    for word in words {
        text.put(" ")?;
        text.put_hex(&word.to_be_bytes())?;
    }
    text.put("\n")
}

pub(crate) fn evaluate_nodes(
    heap: Global,
    mut fields: Fields,
    text: &mut Text,
) -> Result<(), Failure> {
    let source = Source::read(heap, &mut fields)?;
    let count = u64::from(fields.number()?);
    let nodes = fields.records::<5, Node>(heap)?;
    let mut words: Vec<u64> = (0..count).map(|i| i.wrapping_mul(FILLING)).collect(heap)?;
    match source.load(heap, Slot::First)? {
        Held::SignalWords(model) => put_evaluation(
            text,
            &model,
            nodes.as_slice(),
            words.as_mut_slice(),
        )?,
        Held::Readings(model) => put_evaluation(
            text,
            &model,
            nodes.as_slice(),
            words.as_mut_slice(),
        )?,
        Held::Rules(model) => put_evaluation(text, &model, nodes.as_slice(), words.as_mut_slice())?,
    }
    put_words(text, words.as_slice())?;
    Ok(())
}
