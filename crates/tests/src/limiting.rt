// Tests at the limits: what is largest is taken, and finds memory.

ghost use Rattle.std.specs.Prelude.{◌<◌};

use crate::building::{closed, evaluated, holds, image, job, lines, print, stored, table, tower};
use compare::verdict::Outcome;
use evaluator::Evaluation;
use image::stored::StoredModel;
use kripke::node::Node;
use kripke::operator::Operator;
use labels::signal::SignalWord;
use report::report::Report;
use report::write::report_text;
use std::alloc::Global;
use std::test::Fail;

// The image of 256 states, the last of which alone is lit. Each leads to the next, and the last to `back`; every so many states,
// from state r on, one also leads to the state that lies `step` states on, round the end.
fn panel(heap: Global, back: u16, step: u16, every: u16, r: u16) -> Result<Vec<u8>, Fail>
    requires { 0 < every }
{
    let mut states = Vec::new(heap);
    let mut links = Vec::new(heap);
    for s in 0..255u16 {
        let link = u16::try_from(links.len())?.wrapping_add(1);
        states.push(([0, 0, 0, 0], link))?;
        if s % every == r {
            links.push((s + 1, link.wrapping_add(1)))?;
            links.push((s.wrapping_add(step) % 256, 0))?;
        } else {
            links.push((s + 1, 0))?;
        }
    }
    states.push(([1, 0, 0, 0], u16::try_from(links.len())?.wrapping_add(1)))?;
    links.push((back, 0))?;
    image(heap, 1, 0, states.as_slice(), links.as_slice())
}

// Two panels with a long report: more than 1,800 nodes, of 2,045 at most.
#[test]
fn long_report(rt: HostRuntime) -> Result<(), Fail> {
    let heap = rt.alloc();
    let first = panel(heap, 202, 30, 4, 3)?;
    let second = panel(heap, 219, 52, 2, 0)?;
    let text = job(heap, first.as_slice(), second.as_slice())?;
    assert!(rt; text.starts_with(b"differ 51 ") && lines(text.as_slice()) > 1800);
    Ok(())
}

// Nodes of the largest numbers, as many as a report may have. Their text has 18 bytes for the first line and 17 for each node, beside its number:
// 10 numbers have one digit, 90 two, 900 three and 1,045 four.
#[test]
fn largest_report(rt: HostRuntime) -> Result<(), Fail> {
    let largest = Node {
        code: 255,
        a: 65535,
        b: 65535,
    };
    let report = Report::Different {
        rounds: 65535,
        nodes: &[largest; 2045],
    };
    let text = report_text(rt.alloc(), report)?;
    assert_eq!(rt;
        text.len(),
        18 + 2045 * 17 + 10 + 2 * 90 + 3 * 900 + 4 * 1045
    );
    assert!(rt; text.starts_with(b"differ 65535 2045\n0 255 65535 65535\n1 255"));
    assert!(rt; text.ends_with(b"\n2044 255 65535 65535\n"));
    Ok(())
}

// A formula of 1,024 leaves T has a text of 4,093 bytes; with three signs ! before it, it has 4,096.
#[test]
fn longest_text(rt: HostRuntime) -> Result<(), Fail> {
    let heap = rt.alloc();
    let mut nodes = tower(heap, Node::default(), Operator::And, true, 10)?;
    for before in 10..13 {
        nodes.push(Node::new(Operator::Not, before, 0))?;
    }
    let text = print(heap, nodes.as_slice(), 1)?.ok_or("not printed")?;
    assert_eq!(rt; text.len(), 4096);
    assert!(rt;
        text.as_bytes()
            .starts_with(b"!!!((((((((((T&T)&(T&T))&((T&T)&(T&T)))&")
    );
    nodes.push(Node::new(Operator::Not, 13, 0))?;
    assert!(rt; print(heap, nodes.as_slice(), 1)?.is_none());
    Ok(())
}

// 256 states of 16 successors each, 240 to 255, that answer all 32 questions yes; the last one has a label of its own.
fn wide(heap: Global, last: [u8; 4]) -> Result<StoredModel<SignalWord>, Fail> {
    let mut states = vec![in heap; ([255, 255, 255, 255], 1); 255]?;
    states.push((last, 1))?;
    let mut links = Vec::new(heap);
    for l in 1..16 {
        links.push((l + 239, l + 1))?;
    }
    links.push((255, 0))?;
    stored(heap, states.as_slice(), links.as_slice())
}

// They are compared in one round, and the formula of the difference is evaluated on both.
#[test]
fn largest_models(rt: HostRuntime) -> Result<(), Fail> {
    let heap = rt.alloc();
    let bright = wide(heap, [255, 255, 255, 255])?;
    let dimmed = wide(heap, [255, 255, 255, 127])?;
    closed(&rt, &bright, &bright, 1, Outcome::Alike);
    let c = closed(&rt, &bright, &dimmed, 1, Outcome::Different);
    assert!(rt; holds(heap, &bright, c.table()?)?);
    assert!(rt; !holds(heap, &dimmed, c.table()?)?);
    Ok(())
}

const ALL: u64 = 0xFFFFFFFFFFFFFFFF;

const NODES: [(Operator, u16, u16); 4] = [
    (Operator::Question, 31, 0),
    (Operator::Not, 0, 0),
    (Operator::AX, 0, 0),
    (Operator::EX, 1, 0),
];

const ROWS: [[u64; 4]; 4] = [
    [ALL, ALL, ALL, 0x7FFFFFFFFFFFFFFF],
    [0, 0, 0, 0x8000000000000000],
    [0, 0, 0, 0],
    [ALL, ALL, ALL, ALL],
];

// The last question of the last state, and what leads there.
#[test]
fn last_bits(rt: HostRuntime) -> Result<(), Fail> {
    let heap = rt.alloc();
    let dimmed = wide(heap, [255, 255, 255, 127])?;
    let nodes = table(heap, &NODES)?;
    let root = Evaluation {
        holds: true,
        count: 256,
    };
    evaluated(&rt, heap, &dimmed, nodes.as_slice(), &ROWS, root)
}
