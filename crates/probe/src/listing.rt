// A model, told as it answers.
use crate::failure::Failure;
use crate::fields::Fields;
use crate::source::{Held, Source};
use crate::text::Text;
use image::slot::Slot;
use kripke::label::Label;
use kripke::model::Model;
use kripke::refusal::Error;
use std::alloc::{AllocError, Global};

// A state's number, its answers and its successors.
fn put_state<M: Model>(text: &mut Text, model: &M, s: usize) -> Result<(), AllocError> {
    let label = model.label(s);
    text.put_number(s)?;
    text.put(" ")?;
    for i in 0..M::Label::questions() {
        text.put(if label.answer(i) { "1" } else { "0" })?;
    }
    for i in 0..model.degree(s) {
        text.put(" ")?;
        text.put_number(model.successor(s, i))?;
    }
    text.put("\n")
}

fn put_model<M: Model>(text: &mut Text, model: &M) -> Result<(), AllocError> {
    let states = model.states();
    text.put_line("model", &[M::Label::questions(), states, model.initial()])?;
    for s in 0..states {
        put_state(text, model, s)?;
    }
    Ok(())
}

pub(crate) fn list(heap: Global, mut fields: Fields, text: &mut Text) -> Result<(), Failure> {
    let slot = if fields.byte()? == 2 {
        Slot::Second
    } else {
        Slot::First
    };
    let source = Source::read(heap, &mut fields)?;
    if !fields.0.is_empty() {
        return Err(Failure::Bad);
    }
    match source.load(heap, slot) {
        Ok(Held::SignalWords(model)) => put_model(text, &model)?,
        Ok(Held::Readings(model)) => put_model(text, &model)?,
        Ok(Held::Rules(model)) => put_model(text, &model)?,
        Err(Error::Refused(refusal)) => text.put_refusal(refusal)?,
        Err(Error::Memory) => return Err(Failure::Memory),
    }
    Ok(())
}
