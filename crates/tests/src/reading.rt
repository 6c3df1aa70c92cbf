// Tests of the reader: texts that are read, and each refusal with its place.

use crate::building::{read, table};
use kripke::node::Node;
use kripke::operator::Operator;
use kripke::refusal::Cause::{self, ManyNodes, QuestionNumber, TextLimits, TooDeep, Unexpected};
use kripke::refusal::Layer;
use std::alloc::{AllocError, Global};
use std::process::Abort;
use std::test::Fail;

// What is expected of a text: so many nodes, or the cause of a refusal and its place.
type Expected = Result<usize, (Cause, usize)>;

// A text, the stated number of questions, the number of places, and what is expected.
type Row = (&'static [u8], usize, usize, Expected);

fn run(
    rt: &impl Abort,
    heap: Global,
    text: &[u8],
    questions: usize,
    room: usize,
    expected: Expected,
) -> Result<(), Fail> {
    let wanted = match expected {
        Ok(count) => Ok(count),
        Err((cause, place)) => Err(Layer::Text.refusal(cause, place)),
    };
    let mut places = vec![in heap; Node::default(); room]?;
    let outcome = read(text, questions, places.as_mut_slice());
    assert!(rt; outcome == wanted, "{text:?}");
    Ok(())
}

fn run_all(rt: &impl Abort, heap: Global, rows: &[Row]) -> Result<(), Fail> {
    for (text, questions, room, expected) in rows {
        run(rt, heap, text, *questions, *room, *expected)?;
    }
    Ok(())
}

const TOKENS: [Row; 15] = [
    (b"T", 1, 1, Ok(1)),
    (b"q05", 32, 9, Err((Unexpected, 2))),
    (b"q", 32, 9, Err((Unexpected, 0))),
    (b"q123", 32, 9, Err((Unexpected, 3))),
    (b"q31", 32, 9, Ok(1)),
    (b"q32", 32, 9, Err((QuestionNumber, 0))),
    (b"E X T", 1, 9, Err((Unexpected, 2))),
    (b"EXT", 1, 9, Ok(2)),
    (b"E [T U T]", 1, 9, Ok(3)),
    (b"( T & T )", 1, 9, Ok(3)),
    (b"A[ EX T U ! q0 ]", 1, 9, Ok(5)),
    (b"", 1, 9, Err((Unexpected, 0))),
    (b"   ", 1, 9, Err((Unexpected, 3))),
    (b"T x", 1, 9, Err((Unexpected, 2))),
    (b"(T&T", 1, 9, Err((Unexpected, 4))),
];

const LIMITS: [Row; 11] = [
    (b"T", 0, 9, Err((TextLimits, 0))),
    (b"T", 33, 9, Err((TextLimits, 0))),
    (b"(T&q4)x", 4, 9, Err((QuestionNumber, 3))),
    (b"AG (q0|EF q2)", 3, 5, Ok(5)),
    (b"AG (q0|EF q2)", 3, 4, Err((ManyNodes, 5))),
    (
        b"!!!!!!!!!!!!!!!!!!!!!!!!!!!!!!!!!!!!!!!!!!!!!!!!!!!!!!!!!!!!!!!T",
        1,
        64,
        Ok(64),
    ),
    (
        b"!!!!!!!!!!!!!!!!!!!!!!!!!!!!!!!!!!!!!!!!!!!!!!!!!!!!!!!!!!!!!!!!T",
        1,
        64,
        Err((TooDeep, 64)),
    ),
    (
        b"!!!!!!!!!!!!!!!!!!!!!!!!!!!!!!!!!!!!!!!!!!!!!!!!!!!!!!!!!!!!!!!!)",
        1,
        64,
        Err((Unexpected, 64)),
    ),
    (
        b"!!!!!!!!!!!!!!!!!!!!!!!!!!!!!!!!!!!!!!!!!!!!!!!!!!!!!!!!!!!!!!!!",
        1,
        64,
        Err((Unexpected, 64)),
    ),
    (
        b"!!!!!!!!!!!!!!!!!!!!!!!!!!!!!!!!!!!!!!!!!!!!!!!!!!!!!!!!!!!!!!!!q7",
        7,
        64,
        Err((QuestionNumber, 64)),
    ),
    (
        b"!!!!!!!!!!!!!!!!!!!!!!!!!!!!!!!!!!!!!!!!!!!!!!!!!!!!!!!!!!!!!!!!q7",
        8,
        64,
        Err((TooDeep, 64)),
    ),
];

// The text of a formula with 1,024 leaves T, 2,047 nodes and 4,093 bytes.
fn tree(heap: Global) -> Result<String, AllocError> {
    let mut text = format!(in heap; "T")?;
    for _ in 0..10 {
        text = format!(in heap; "({text}&{text})")?;
    }
    Ok(text)
}

// The tree without two of its leaves, and without one; texts of one leaf and many spaces; and so many places.
fn long_texts(rt: &impl Abort, heap: Global) -> Result<(), Fail> {
    let mut long = vec![in heap; b' '; 4096]?;
    long[0] = b'T';
    run(rt, heap, long.as_slice(), 1, 1, Ok(1))?;
    long.push(b' ')?;
    run(rt, heap, long.as_slice(), 1, 1, Err((TextLimits, 0)))?;
    let more = tree(heap)?;
    run(rt, heap, more.as_bytes(), 1, 2100, Err((ManyNodes, 2047)))?;
    let over = more.replacen(heap, "(T&T)", "!T   ", 1)?;
    run(rt, heap, over.as_bytes(), 1, 2100, Err((ManyNodes, 2046)))?;
    let fitting = more.replacen(heap, "(T&T)", "T    ", 1)?;
    for (room, expected) in [
        (2100, Ok(2045)),
        (2045, Ok(2045)),
        (2044, Err((ManyNodes, 2045))),
    ] {
        run(rt, heap, fitting.as_bytes(), 1, room, expected)?;
    }
    Ok(())
}

const NODES: [(Operator, u16, u16); 6] = [
    (Operator::Question, 0, 0),
    (Operator::Question, 2, 0),
    (Operator::EF, 1, 0),
    (Operator::Or, 0, 2),
    (Operator::AG, 3, 0),
    (Operator::EG, 9, 9),
];

// The nodes that a text is read into; the place past them stays.
fn nodes(rt: &impl Abort, heap: Global) -> Result<(), Fail> {
    let mut places = vec![in heap; Node::new(Operator::EG, 9, 9); 6]?;
    let count = read(b"AG (q0|EF q2)", 3, places.as_mut_slice());
    assert_eq!(rt; count, Ok(5));
    assert_eq!(rt; places, table(heap, &NODES)?);
    Ok(())
}

#[test]
fn texts(rt: HostRuntime) -> Result<(), Fail> {
    let heap = rt.alloc();
    run_all(&rt, heap, &TOKENS)?;
    run_all(&rt, heap, &LIMITS)?;
    long_texts(&rt, heap)?;
    nodes(&rt, heap)
}
