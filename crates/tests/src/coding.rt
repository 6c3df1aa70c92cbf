// Tests of the operators' codes, as literals: the operators, the texts that are read and printed, and the rows of an evaluation.

use crate::building::{evaluated, loaded, print, read};
use evaluator::Evaluation;
use kripke::node::Node;
use kripke::operator::{Operator, UnknownCode};
use labels::signal::SignalWord;
use std::alloc::{AllocError, Global};
use std::process::Abort;
use std::test::Fail;

// Nodes by their codes.
type Coded = (u8, u16, u16);

fn coded(heap: Global, nodes: &[Coded]) -> Result<Vec<Node>, AllocError> {
    let mut table = Vec::new(heap);
    for (code, a, b) in nodes {
        table.push(Node {
            code: *code,
            a: *a,
            b: *b,
        })?;
    }
    Ok(table)
}

const OPERATORS: [(u8, Operator); 13] = [
    (0, Operator::Truth),
    (1, Operator::Question),
    (2, Operator::Not),
    (3, Operator::And),
    (4, Operator::Or),
    (5, Operator::EX),
    (6, Operator::AX),
    (7, Operator::EF),
    (8, Operator::AF),
    (9, Operator::EG),
    (10, Operator::AG),
    (11, Operator::EU),
    (12, Operator::AU),
];

fn numbered_so(rt: &impl Abort, operators: &[(u8, Operator)]) {
    for (code, operator) in operators {
        assert_eq!(rt; u8::from(*operator), *code);
        assert_eq!(rt; Operator::try_from(*code), Ok(*operator));
        let node = Node {
            code: *code,
            a: 258,
            b: 772,
        };
        assert_eq!(rt; Node::new(*operator, 258, 772), node);
    }
}

#[test]
fn codes(rt: HostRuntime) {
    numbered_so(&rt, &OPERATORS);
    for code in 13..=255 {
        assert_eq!(rt; Operator::try_from(code), Err(UnknownCode(code)));
    }
}

// The text is read into these nodes, and they are printed as it.
fn spelt(rt: &impl Abort, heap: Global, text: &str, nodes: &[Node]) -> Result<(), Fail> {
    let mut places = vec![in heap; Node::default(); nodes.len()]?;
    let count = read(text.as_bytes(), 32, places.as_mut_slice());
    assert_eq!(rt; count, Ok(nodes.len()));
    assert_eq!(rt; places.as_slice(), nodes);
    let printed = print(heap, nodes, 32)?.ok_or("not printed")?;
    assert_eq!(rt; printed.as_str(), text);
    Ok(())
}

const TEXTS: [(&str, &[Coded]); 13] = [
    ("T", &[(0, 0, 0)]),
    ("q7", &[(1, 7, 0)]),
    ("!q7", &[(1, 7, 0), (2, 0, 0)]),
    ("(q7&q18)", &[(1, 7, 0), (1, 18, 0), (3, 0, 1)]),
    ("(q7|q18)", &[(1, 7, 0), (1, 18, 0), (4, 0, 1)]),
    ("EX q7", &[(1, 7, 0), (5, 0, 0)]),
    ("AX q7", &[(1, 7, 0), (6, 0, 0)]),
    ("EF q7", &[(1, 7, 0), (7, 0, 0)]),
    ("AF q7", &[(1, 7, 0), (8, 0, 0)]),
    ("EG q7", &[(1, 7, 0), (9, 0, 0)]),
    ("AG q7", &[(1, 7, 0), (10, 0, 0)]),
    ("E[q7 U q18]", &[(1, 7, 0), (1, 18, 0), (11, 0, 1)]),
    ("A[q7 U q18]", &[(1, 7, 0), (1, 18, 0), (12, 0, 1)]),
];

fn all_spelt(rt: &impl Abort, heap: Global, texts: &[(&str, &[Coded])]) -> Result<(), Fail> {
    for (text, nodes) in texts {
        spelt(rt, heap, text, coded(heap, nodes)?.as_slice())?;
    }
    Ok(())
}

#[test]
fn texts(rt: HostRuntime) -> Result<(), Fail> {
    all_spelt(&rt, rt.alloc(), &TEXTS)
}

// An image: 0 -> 0, 1 -> 5, 2 -> 2, 3 -> 0 5, 4 -> 0 4, 5 -> 1; question 0 is yes in 0, 3 and 5, question 1 in 2 and 5.
const SIX: [u8; 88] = [
    1, 0, 6, 0, 8, 0, 3, 0, //
    1, 0, 0, 0, 1, 0, 0, 0, //
    0, 0, 0, 0, 2, 0, 0, 0, //
    2, 0, 0, 0, 3, 0, 0, 0, //
    1, 0, 0, 0, 4, 0, 0, 0, //
    0, 0, 0, 0, 6, 0, 0, 0, //
    3, 0, 0, 0, 8, 0, 0, 0, //
    0, 0, 0, 0, 5, 0, 0, 0, //
    2, 0, 0, 0, 0, 0, 5, 0, //
    5, 0, 0, 0, 0, 0, 7, 0, //
    4, 0, 0, 0, 1, 0, 0, 0, //
];

const NODES: [Coded; 14] = [
    (0, 0, 0),
    (1, 0, 0),
    (1, 1, 0),
    (2, 1, 0),
    (3, 1, 2),
    (4, 1, 2),
    (5, 1, 0),
    (6, 1, 0),
    (7, 1, 0),
    (8, 1, 0),
    (9, 1, 0),
    (10, 1, 0),
    (11, 1, 2),
    (12, 1, 2),
];

const ROWS: [[u64; 4]; 14] = [
    [0b111111, 0, 0, 0],
    [0b101001, 0, 0, 0],
    [0b100100, 0, 0, 0],
    [0b010110, 0, 0, 0],
    [0b100000, 0, 0, 0],
    [0b101101, 0, 0, 0],
    [0b011011, 0, 0, 0],
    [0b001011, 0, 0, 0],
    [0b111011, 0, 0, 0],
    [0b101011, 0, 0, 0],
    [0b001001, 0, 0, 0],
    [0b000001, 0, 0, 0],
    [0b101100, 0, 0, 0],
    [0b100100, 0, 0, 0],
];

// On these states each operator has another row.
#[test]
fn meanings(rt: HostRuntime) -> Result<(), Fail> {
    let heap = rt.alloc();
    let model = loaded::<SignalWord>(heap, &SIX)?;
    let nodes = coded(heap, &NODES)?;
    let root = Evaluation {
        holds: false,
        count: 2,
    };
    evaluated(&rt, heap, &model, nodes.as_slice(), &ROWS, root)
}
