// Tests of the report: its texts, in bytes of their own and in given ones.

use kripke::node::Node;
use kripke::refusal::Refusal;
use report::report::Report;
use report::write::{report_text, write_report};
use std::alloc::Global;
use std::process::Abort;
use std::test::Fail;

// The node of question 31, and the one of AU.
const NODES: [Node; 2] = [
    Node {
        code: 1,
        a: 31,
        b: 0,
    },
    Node {
        code: 12,
        a: 10,
        b: 2044,
    },
];

const TEXT: &[u8] = b"differ 7 2\n0 1 31 0\n1 12 10 2044\n";

fn different(nodes: &[Node]) -> Report<'_> {
    Report::Different { rounds: 7, nodes }
}

// The report has this text.
fn told(rt: &impl Abort, heap: Global, report: Report, text: &[u8]) -> Result<(), Fail> {
    let told = report_text(heap, report)?;
    assert!(rt; told.as_slice() == text);
    Ok(())
}

fn write(nodes: &[Node], bytes: &mut [u8]) -> Result<usize, Refusal> {
    write_report(different(nodes), bytes)
}

// In given bytes: more than the text has, as many, and one less.
fn given(rt: &impl Abort) {
    let mut bytes = [b'x'; 40];
    assert!(rt; write(&NODES, &mut bytes) == Ok(33));
    assert!(rt; &bytes[0..33] == TEXT);
    assert!(rt; &bytes[33..40] == b"xxxxxxx".as_slice());
    let mut bytes = [b'x'; 33];
    assert!(rt; write(&NODES, &mut bytes) == Ok(33));
    assert!(rt; bytes.as_slice() == TEXT);
    let mut bytes = [b'x'; 32];
    assert!(rt; write(&NODES, &mut bytes).is_err());
    assert!(rt; bytes.as_slice() == [b'x'; 32].as_slice());
}

// As many nodes make a report, or are too many.
fn counted(rt: &impl Abort, heap: Global, nodes: &[Node], expected: bool) {
    assert!(rt; report_text(heap, different(nodes)).is_ok() == expected);
}

#[test]
fn texts(rt: HostRuntime) -> Result<(), Fail> {
    let heap = rt.alloc();
    told(&rt, heap, Report::Alike { rounds: 65535 }, b"alike 65535\n")?;
    told(&rt, heap, different(&NODES), TEXT)?;
    given(&rt);
    let mut nodes = vec![in heap; Node::default(); 2045]?;
    counted(&rt, heap, nodes.as_slice(), true);
    nodes.push(Node::default())?;
    counted(&rt, heap, nodes.as_slice(), false);
    Ok(())
}
