// Tests of the printer: what it prints is read back as the same formula.

use crate::building::{print, read, table, tower};
use kripke::node::Node;
use kripke::operator::Operator::{
    self, AF, AG, AU, AX, And, EF, EG, EU, EX, Not, Or, Question, Truth,
};
use std::alloc::Global;
use std::process::Abort;
use std::test::Fail;

// The table is printed so, and so is the table that is read from the text.
fn printed(rt: &impl Abort, heap: Global, nodes: &[Node], expected: &str) -> Result<(), Fail> {
    let text = print(heap, nodes, 32)?.ok_or("not printed")?;
    assert!(rt; text.as_str() == expected);
    let mut places = vec![in heap; Node::default(); 64]?;
    let count = read(text.as_bytes(), 32, places.as_mut_slice())?;
    assert!(rt; count <= 64);
    places.truncate(count);
    let again = print(heap, places.as_slice(), 32)?.ok_or("not printed again")?;
    assert!(rt; again.as_str() == expected);
    Ok(())
}

// In the last, node 1 is not of the formula, and node 2 is named twice.
const FORMULAS: [(&[(Operator, u16, u16)], &str); 7] = [
    (&[(Truth, 0, 0)], "T"),
    (&[(Question, 31, 0)], "q31"),
    (
        &[
            (Question, 0, 0),
            (Question, 1, 0),
            (Not, 1, 0),
            (And, 0, 2),
            (EX, 3, 0),
        ],
        "EX (q0&!q1)",
    ),
    (
        &[
            (Question, 0, 0),
            (Question, 1, 0),
            (Question, 2, 0),
            (Not, 2, 0),
            (And, 1, 3),
            (EU, 0, 4),
        ],
        "E[q0 U (q1&!q2)]",
    ),
    (
        &[
            (Question, 0, 0),
            (Question, 2, 0),
            (EF, 1, 0),
            (Or, 0, 2),
            (AG, 3, 0),
        ],
        "AG (q0|EF q2)",
    ),
    (
        &[
            (Question, 2, 0),
            (Question, 1, 0),
            (AX, 0, 0),
            (AF, 2, 0),
            (EG, 1, 0),
            (AU, 3, 4),
        ],
        "A[AF AX q2 U EG q1]",
    ),
    (
        &[(Question, 0, 0), (Question, 1, 0), (Not, 0, 0), (And, 2, 2)],
        "(!q0&!q0)",
    ),
];

fn all_printed(
    rt: &impl Abort,
    heap: Global,
    formulas: &[(&[(Operator, u16, u16)], &str)],
) -> Result<(), Fail> {
    for (nodes, text) in formulas {
        printed(rt, heap, table(heap, nodes)?.as_slice(), text)?;
    }
    Ok(())
}

#[test]
fn formulas(rt: HostRuntime) -> Result<(), Fail> {
    all_printed(&rt, rt.alloc(), &FORMULAS)
}

// The table is printed or not, on so many questions.
fn prints(
    rt: &impl Abort,
    heap: Global,
    nodes: &[Node],
    questions: usize,
    expected: bool,
) -> Result<(), Fail> {
    assert_eq!(rt; print(heap, nodes, questions)?.is_some(), expected);
    Ok(())
}

const TABLES: [(&[(Operator, u16, u16)], usize); 6] = [
    (&[], 1),
    (&[(Truth, 0, 0)], 0),
    (&[(Truth, 0, 0)], 33),
    (&[(Question, 1, 0)], 1),
    (&[(Truth, 0, 0), (Not, 1, 0)], 1),
    (&[(Not, 1, 0), (Truth, 0, 0)], 1),
];

#[test]
fn limits(rt: HostRuntime) -> Result<(), Fail> {
    let heap = rt.alloc();
    let leaf = Node::new(Question, 0, 0);
    for (more, expected) in [(63, true), (64, false)] {
        let deep = tower(heap, Node::default(), Not, false, more)?;
        prints(&rt, heap, deep.as_slice(), 1, expected)?;
    }
    for (more, expected) in [(9, true), (10, false)] {
        let wide = tower(heap, leaf, And, true, more)?;
        prints(&rt, heap, wide.as_slice(), 1, expected)?;
    }
    for (nodes, questions) in TABLES {
        prints(&rt, heap, table(heap, nodes)?.as_slice(), questions, false)?;
    }
    // A code that is no operator's.
    let unknown = Node {
        code: 13,
        a: 0,
        b: 0,
    };
    prints(&rt, heap, &[unknown], 1, false)
}
