// A list of requests to a comparison of two models.
use crate::failure::Failure;
use crate::fields::Fields;
use crate::source::{Held, Source};
use crate::text::Text;
use compare::comparison::Comparison;
use compare::requests::{Answer, Request};
use compare::verdict::Outcome;
use image::slot::Slot;
use kripke::label::Label;
use kripke::model::Model;
use kripke::refusal::Refusal;
use std::alloc::{AllocError, Global};

// Any formula that was told is the one that the comparison keeps.
fn put_answer(
    text: &mut Text,
    comparison: &Comparison,
    answer: Result<Answer, Refusal>,
) -> Result<(), AllocError> {
    match answer {
        Ok(Answer::Round(count)) => text.put_line("round", &[count]),
        Ok(Answer::Class(number)) => text.put_line("class", &[number]),
        Ok(Answer::Verdict(verdict)) => match verdict.outcome {
            Outcome::Alike => text.put_line("verdict alike", &[verdict.rounds]),
            Outcome::Different => text.put_line("verdict different", &[verdict.rounds]),
        },
        Ok(Answer::Formula(count)) => {
            text.put_line("formula", &[count])?;
            text.put_nodes(comparison.table().unwrap_or(&[]))
        }
        Err(refusal) => text.put_refusal(refusal),
    }
}

fn run<L: Label, M: Model<Label = L>, N: Model<Label = L>>(
    first: &M,
    second: &N,
    requests: &[Request],
    answers: &mut [Result<Answer, Refusal>],
    text: &mut Text,
) -> Result<(), AllocError> {
    let comparison = Comparison::open_and_run(first, second, requests, answers);
    for answer in answers {
        put_answer(text, &comparison, *answer)?;
    }
    Ok(())
}

// Place i has the class 65,535 - i before the call.
pub(crate) fn compare_models(
    heap: Global,
    mut fields: Fields,
    text: &mut Text,
) -> Result<(), Failure> {
    let first = Source::read(heap, &mut fields)?;
    let second = Source::read(heap, &mut fields)?;
    let count = fields.number()?;
    let requests = fields.records::<3, Request>(heap)?;
    let requests = requests.as_slice();
    let mut answers: Vec<Result<Answer, Refusal>> = (0..count)
        .map(|i| Ok(Answer::Class(usize::from(u16::MAX - i))))
        .collect(heap)?;
    let answers = answers.as_mut_slice();
    let first = first.load(heap, Slot::First)?;
    let second = second.load(heap, Slot::Second)?;
    match (&first, &second) {
        (Held::SignalWords(a), Held::SignalWords(b)) => run(a, b, requests, answers, text)?,
        (Held::SignalWords(a), Held::Rules(b)) => run(a, b, requests, answers, text)?,
        (Held::Rules(a), Held::SignalWords(b)) => run(a, b, requests, answers, text)?,
        (Held::Rules(a), Held::Rules(b)) => run(a, b, requests, answers, text)?,
        (Held::Readings(a), Held::Readings(b)) => run(a, b, requests, answers, text)?,
        _ => return Err(Failure::Bad),
    }
    Ok(())
}
