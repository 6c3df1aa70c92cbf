// Refusals and answers in the engineer's words.
use kripke::refusal::{Cause, Layer, Refusal};
use std::alloc::{AllocError, Global};
use std::fmt;

pub(crate) fn yes_or_no(answer: bool) -> &'static str {
    if answer { "yes" } else { "no" }
}

// A text as it is shown back: what does not print, as a control character, is escaped, and so is a backslash.
pub(crate) fn shown(heap: Global, text: &str) -> Result<String, AllocError> {
    let mut out = String::new(heap);
    for c in text.chars() {
        match c {
            '"' | '\'' => out.push(c)?,
            _ => out.extend(c.escape_debug())?,
        }
    }
    Ok(out)
}

// A number of things, as "1 round" or "2 rounds".
#[derive(Clone, Copy)]
pub(crate) struct Counted(pub(crate) usize, pub(crate) &'static str);

impl fmt::Display for Counted {
    fn fmt<W: fmt::Write>(&self, f: &mut fmt::Formatter<W>) -> fmt::Result {
        let Counted(number, thing) = *self;
        let ending = if number == 1 { "" } else { "s" };
        write!(f, "{number} {thing}{ending}")
    }
}

// A limit that a number breaks.
#[derive(Clone, Copy)]
pub(crate) enum Limit {
    // The bytes of a header.
    Header,
    // The bytes that a header asks for.
    Length,
    // The same, of an image that has more bytes than the number says.
    LongLength,
    Bits,
    Rules,
    // The initial state is none of so many.
    Initial,
    // The bytes and the nodes of a condition.
    Text,
    Parts,
}

// A limit that is broken, and the two numbers by which it is told, in the order of the words.
#[derive(Clone, Copy)]
pub(crate) struct Excess(pub(crate) Limit, pub(crate) usize, pub(crate) usize);

// What is wrong at the place of a refusal, where this needs no look at what is refused.
pub(crate) fn cause_in_words(cause: Cause) -> &'static str {
    match cause {
        Cause::LinkRecord =>
            "a link record has a target that is no state, or a next link that is none",
        Cause::LongChain => "the chain of this state record has more than 16 links",
        Cause::Unexpected => "no condition continues with this",
        Cause::QuestionNumber => "the panel has no such question",
        Cause::TooDeep => "a condition nests at most 64 levels deep",
        Cause::NodeCount => "a node table has 1 to 2045 nodes",
        Cause::BadNode => "the node is not in order",
        Cause::FewWords => "there are too few words for the rows",
        Cause::ClosedComparison => "the comparison is closed",
        Cause::StateNumber => "there is no such state",
        Cause::OpenComparison => "the comparison is open",
        Cause::NotDifferent => "the panels are not told apart",
        Cause::FewPlaces => "there are too few places for the nodes",
        Cause::ReportSize => "the report is too long",
        // These are told by their numbers, or by what stands at the place.
        _ => "a limit is broken",
    }
}

// What is refused, and what a place in it is.
fn place_in_words(layer: Layer) -> &'static str {
    match layer {
        Layer::FirstImage => "image 1, byte",
        Layer::SecondImage => "image 2, byte",
        Layer::Rules => "rules, rule",
        Layer::Text => "condition, byte",
        Layer::Evaluation => "evaluation, place",
        Layer::Comparison => "comparison, place",
        Layer::Report => "report, place",
    }
}

// What is refused as a whole.
fn layer_in_words(layer: Layer) -> &'static str {
    match layer {
        Layer::FirstImage => "image 1",
        Layer::SecondImage => "image 2",
        Layer::Rules => "the model",
        Layer::Text => "the condition",
        Layer::Evaluation => "the evaluation",
        Layer::Comparison => "the comparison",
        Layer::Report => "the report",
    }
}

// A refusal and its reason, as "image 2, byte 24: state record 2 has limits that do not rise (refusal 4)".
pub(crate) fn write_refusal<R: fmt::Display + Drop, W: fmt::Write>(
    f: &mut fmt::Formatter<W>,
    refusal: Refusal,
    reason: R,
) -> fmt::Result {
    let layer = place_in_words(refusal.layer);
    let place = refusal.place;
    let number = refusal.number();
    writeln!(f, "{layer} {place}: {reason} (refusal {number})")
}

// The verb, what the first number counts, and the words before and after the second.
fn limit_in_words(limit: Limit) -> (&'static str, &'static str, &'static str, &'static str) {
    match limit {
        Limit::Header => ("is", "byte", " long, and a header alone has", ""),
        Limit::Length => ("is", "byte", " long, and its header asks for", ""),
        Limit::LongLength => ("is more than", "byte", " long, and its header asks for", ""),
        Limit::Bits => ("has", "bit", ", and 1 to", " are taken"),
        Limit::Rules => ("has", "rule", ", and at most", " are taken"),
        Limit::Initial => (
            "has",
            "state",
            ", numbered from 0, and initial state",
            " is none of them",
        ),
        Limit::Text => ("is", "byte", " long, and at most", " are taken"),
        Limit::Parts => ("has", "part", ", and at most", " are taken"),
    }
}

// A refusal for a number, as "the condition has 3000 parts, and at most 2045 are taken (refusal 13)".
pub(crate) fn write_excess<W: fmt::Write>(
    f: &mut fmt::Formatter<W>,
    refusal: Refusal,
    excess: Excess,
) -> fmt::Result {
    let Excess(limit, given, wanted) = excess;
    let (verb, thing, and, end) = limit_in_words(limit);
    let given = Counted(given, thing);
    let layer = layer_in_words(refusal.layer);
    let number = refusal.number();
    writeln!(
        f,
        "{layer} {verb} {given}{and} {wanted}{end} (refusal {number})"
    )
}
