// What is wrong with what is refused. It is read once more, since a refusal tells a number and a place, and not what is wrong there.
use crate::failure::Failure;
use crate::input::MOST_IMAGE_BYTES;
use crate::words::{Excess, Limit, shown};
use kripke::node::MOST_NODES;
use kripke::refusal::{Cause, Refusal};
use labels::coded::Coded;
use labels::kind::Kind;
use reader::TEXT_BYTES;
use rules::model::{MOST_BITS, MOST_RULES};
use rules::rule::Rule;
use std::alloc::{AllocError, Global};

// The bytes of a header.
const HEADER: usize = 8;

// A record has four bytes of its label, two of its first link, and two that are zero.
fn record<L: Coded>(record: &[u8]) -> &'static str {
    match record {
        // Any four bytes are signal words, so it is a reading.
        [a, b, c, d, ..] if L::decode([*a, *b, *c, *d]).is_none() => "has limits that do not rise",
        [_, _, _, _, 0, 0, ..] => "has no first link",
        [_, _, _, _, _, _, 0, 0, ..] => "has a first link that is none",
        _ => "has last bytes that are not zero",
    }
}

// The kind of an image, which is not that of L. A first or only image is held as the kind that it names, if it names one.
fn kind<L: Coded>(image: &[u8]) -> &'static str {
    match (L::kind(), image) {
        (Kind::SignalWords, [2, ..]) => {
            "NEW holds readings, OLD signal words, and only panels of one kind are compared"
        }
        (Kind::Readings, [1, ..]) => {
            "NEW holds signal words, OLD readings, and only panels of one kind are compared"
        }
        _ => "the kind is neither 1 (signal words) nor 2 (readings)",
    }
}

fn field<L: Coded>(image: &[u8], place: usize) -> &'static str {
    match place {
        0 => kind::<L>(image),
        1 => "the byte after the kind is not zero",
        2 => "the number of states is not 1 to 256",
        4 => "the number of links is not 1 to 4096",
        _ => "the initial state is none of the states",
    }
}

// Of a file that is longer than any image no more was read than tells so.
fn length(bytes: usize, wanted: usize) -> Excess {
    if bytes > MOST_IMAGE_BYTES {
        Excess(Limit::LongLength, MOST_IMAGE_BYTES, wanted)
    } else {
        Excess(Limit::Length, bytes, wanted)
    }
}

// Why an image is refused as one of labels L.
pub(crate) fn of_image<L: Coded>(image: &[u8], refusal: Refusal) -> Failure {
    let (bytes, place) = (image.len(), refusal.place);
    match refusal.cause {
        Cause::ShortImage => Failure::Excess(refusal, Excess(Limit::Header, bytes, HEADER)),
        Cause::HeaderField => Failure::Refused(refusal, field::<L>(image, place)),
        Cause::ImageLength => Failure::Excess(refusal, length(bytes, place)),
        Cause::StateRecord => {
            let from_there = image.get(place..).unwrap_or(&[]);
            Failure::Record(refusal, record::<L>(from_there))
        }
        _ => Failure::from(refusal),
    }
}

// The first of the limits that is broken.
fn limit(bits: usize, initial: usize, rules: usize) -> Excess {
    if bits < 1 || bits > MOST_BITS {
        Excess(Limit::Bits, bits, MOST_BITS)
    } else if rules > MOST_RULES {
        Excess(Limit::Rules, rules, MOST_RULES)
    } else {
        Excess(Limit::Initial, 1 << bits, initial)
    }
}

fn rule(rule: &Rule) -> &'static str {
    if rule.need & rule.care != rule.need {
        "its need is not within its care"
    } else if rule.set & rule.clear != 0 {
        "its set and clear share a bit"
    } else {
        "it has a bit that the model has not"
    }
}

// Why rules are refused.
pub(crate) fn of_rules(bits: usize, initial: usize, rules: &[Rule], refusal: Refusal) -> Failure {
    match rules.get(refusal.place) {
        Some(unlawful) if refusal.cause == Cause::UnlawfulRule => {
            Failure::Refused(refusal, rule(unlawful))
        }
        _ => Failure::Excess(refusal, limit(bits, initial, rules.len())),
    }
}

// Why a text is refused at a place. That is a number of bytes, and the columns before it are those of what is shown of them.
fn at_place(heap: Global, text: &str, refusal: Refusal) -> Result<Failure, AllocError> {
    // A formula goes on with no byte of a longer character, so the place is within none.
    let before = shown(heap, text.get(..refusal.place).unwrap_or(text))?;
    let columns = before.chars().count();
    Ok(Failure::Condition(shown(heap, text)?, columns, refusal))
}

// Why a text is refused as a condition. One that is too long or has too many parts is not shown again.
pub(crate) fn of_text(heap: Global, text: &str, refusal: Refusal) -> Result<Failure, AllocError> {
    let excess = match refusal.cause {
        Cause::TextLimits => Excess(Limit::Text, text.len(), TEXT_BYTES),
        Cause::ManyNodes => Excess(Limit::Parts, refusal.place, MOST_NODES),
        _ => return at_place(heap, text, refusal),
    };
    Ok(Failure::Excess(refusal, excess))
}
