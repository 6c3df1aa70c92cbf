ghost use Rattle.std.specs.Iterator.{at_most};
ghost use Rattle.std.specs.Prelude.{length};

use crate::failure::Failure;
use crate::fields::Fields;
use crate::text::Text;
use crate::{comparing, evaluating, formulas, listing, reporting};
use std::alloc::{AllocError, Global};

// What is to be done, by its tag, and with which bytes.
#[derive(Clone, Copy)]
pub(crate) struct Job<'a> {
    tag: u8,
    payload: &'a [u8],
}

// The jobs of an input. The last is bad where the input ends within it.
#[derive(Drop)]
pub(crate) struct Jobs<'a>(pub(crate) &'a [u8]);

impl<'a> Iterator for Jobs<'a> {
    type Item = Result<Job<'a>, Failure>;

    ghost remaining = { λ jobs. at_most (length jobs.0.now) };

    fn next(&mut self) -> Option<Result<Job<'a>, Failure>> {
        let (tag, rest) = self.0.split_first()?;
        let mut fields = Fields(rest);
        match fields.counted() {
            Ok(payload) => {
                self.0 = fields.0;
                Some(Ok(Job { tag: *tag, payload }))
            }
            Err(failure) => {
                self.0 = &[];
                Some(Err(failure))
            }
        }
    }
}

fn perform(heap: Global, job: Result<Job, Failure>, text: &mut Text) -> Result<(), Failure> {
    let Job { tag, payload } = job?;
    let fields = Fields(payload);
    match tag {
        b'I' => listing::list(heap, fields, text),
        b'E' => evaluating::evaluate_nodes(heap, fields, text),
        b'F' => formulas::read(heap, fields, text),
        b'P' => formulas::print(heap, fields, text),
        b'C' => comparing::compare_models(heap, fields, text),
        b'W' => reporting::write(heap, fields, text),
        b'J' => reporting::compare_pair(heap, payload, text),
        _ => Err(Failure::Bad),
    }
}

fn put_failure(failure: Failure, text: &mut Text) -> Result<(), AllocError> {
    match failure {
        Failure::Bad => text.put("bad\n"),
        Failure::Model(refusal) => {
            text.put("model ")?;
            text.put_refusal(refusal)
        }
        Failure::Memory => text.put("no memory\n"),
    }
}

// The answer, to the line that ends it.
pub(crate) fn answer(heap: Global, job: Result<Job, Failure>) -> Result<Vec<u8>, AllocError> {
    let mut text = Text(Vec::new(heap));
    if let Err(failure) = perform(heap, job, &mut text) {
        text.0.clear();
        put_failure(failure, &mut text)?;
    }
    text.put(".\n")?;
    Ok(text.0)
}
