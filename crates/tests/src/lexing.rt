// Tests of the reader's tokens: each byte, alone and among others, from the grammar.

use crate::building::read;
use kripke::node::Node;
use kripke::refusal::{Cause, Layer};
use std::process::Abort;

// What is expected of a text: so many nodes, or that nothing continues at this place.
enum Expected {
    Nodes(usize),
    Stops(usize),
}

// The text is read, or refused with number 10, as expected, on 32 questions.
fn expect(rt: &impl Abort, text: &[u8], expected: Expected) {
    let wanted = match expected {
        Expected::Nodes(count) => Ok(count),
        Expected::Stops(place) => Err(Layer::Text.refusal(Cause::Unexpected, place)),
    };
    let outcome = read(text, 32, &mut [Node::default(); 9]);
    assert_eq!(rt; outcome, wanted, "{text:?}");
}

// The byte alone is the whole text: only T is a formula, and after a space, a sign that begins a formula, and E and A the end is not expected.
fn alone(byte: u8) -> Expected {
    match byte {
        b'T' => Expected::Nodes(1),
        b' ' | b'!' | b'(' | b'E' | b'A' => Expected::Stops(1),
        _ => Expected::Stops(0),
    }
}

// Between ! and T: a space is passed over, ! begins one more formula, T ends it, ( wants a sign before the end, and E and A want [.
fn after_not(byte: u8) -> Expected {
    match byte {
        b' ' => Expected::Nodes(2),
        b'!' => Expected::Nodes(3),
        b'T' | b'E' | b'A' => Expected::Stops(2),
        b'(' => Expected::Stops(3),
        _ => Expected::Stops(1),
    }
}

// Between (T and T): & and | join the two, and after a space they stand side by side.
fn joining(byte: u8) -> Expected {
    match byte {
        b'&' | b'|' => Expected::Nodes(3),
        b' ' => Expected::Stops(3),
        _ => Expected::Stops(2),
    }
}

// After q a digit makes a question.
fn after_q(byte: u8) -> Expected {
    match byte {
        b'0'..=b'9' => Expected::Nodes(1),
        _ => Expected::Stops(0),
    }
}

// After q1 a digit belongs to it, and a space may stand before the end.
fn after_digit(byte: u8) -> Expected {
    match byte {
        b'0'..=b'9' | b' ' => Expected::Nodes(1),
        _ => Expected::Stops(2),
    }
}

// Between E or A and T: X, F and G make an operator of two signs, [ begins an until, and a space is passed over.
fn after_path(byte: u8) -> Expected {
    match byte {
        b'X' | b'F' | b'G' => Expected::Nodes(2),
        b'[' => Expected::Stops(3),
        b' ' => Expected::Stops(2),
        _ => Expected::Stops(1),
    }
}

#[test]
fn bytes(rt: HostRuntime) {
    for byte in 0..=255 {
        expect(&rt, &[byte], alone(byte));
        expect(&rt, &[b'!', byte, b'T'], after_not(byte));
        expect(&rt, &[b'(', b'T', byte, b'T', b')'], joining(byte));
        expect(&rt, &[b'q', byte], after_q(byte));
        expect(&rt, &[b'q', b'1', byte], after_digit(byte));
        expect(&rt, &[b'E', byte, b'T'], after_path(byte));
        expect(&rt, &[b'A', byte, b'T'], after_path(byte));
    }
}
