// Tests of the public value types: values are equal or not, and shown as Rust shows them.

use compare::requests::{Answer, Request};
use compare::verdict::{Outcome, Verdict};
use evaluator::Evaluation;
use image::slot::Slot;
use kripke::node::Node;
use kripke::operator::{Operator, UnknownCode};
use kripke::quantifier::Quantifier;
use kripke::refusal::{Cause, Error, Layer};
use labels::kind::{Kind, UnknownKind};
use labels::reading::Reading;
use labels::signal::SignalWord;
use report::report::Report;
use rules::rule::Rule;
use std::alloc::Global;
use std::fmt::Debug;
use std::process::Abort;

// The value is shown so, and is itself and no other one.
fn shown<T: Debug + PartialEq + Copy>(
    rt: &impl Abort,
    heap: Global,
    value: T,
    other: T,
    text: &str,
) {
    assert!(rt; value == value);
    assert!(rt; value != other);
    let shown = format!(in heap; "{value:?}").expect(rt, "memory");
    assert_eq!(rt; shown.as_str(), text);
}

#[test]
fn values(rt: HostRuntime) {
    let heap = rt.alloc();
    shown(&rt, heap, Slot::First, Slot::Second, "First");
    shown(&rt, heap, Kind::Readings, Kind::SignalWords, "Readings");
    shown(&rt, heap, UnknownKind(7), UnknownKind(8), "UnknownKind(7)");
    shown(&rt, heap, Cause::TooDeep, Cause::ManyNodes, "TooDeep");
    shown(&rt, heap, Layer::Text, Layer::Rules, "Text");
    shown(&rt, heap, Operator::AF, Operator::EG, "AF");
    shown(
        &rt,
        heap,
        UnknownCode(13),
        UnknownCode(14),
        "UnknownCode(13)",
    );
    shown(&rt, heap, Quantifier::ForAll, Quantifier::Exists, "ForAll");
    shown(&rt, heap, SignalWord(5), SignalWord(6), "SignalWord(5)");
    shown(&rt, heap, Outcome::Alike, Outcome::Different, "Alike");
}

#[test]
fn records(rt: HostRuntime) {
    let heap = rt.alloc();
    let refusal = Layer::Text.refusal(Cause::TooDeep, 64);
    shown(
        &rt,
        heap,
        refusal,
        Layer::Text.refusal(Cause::TooDeep, 65),
        "Refusal { cause: TooDeep, layer: Text, place: 64 }",
    );
    shown(&rt, heap, Error::Memory, Error::Refused(refusal), "Memory");
    shown(
        &rt,
        heap,
        Error::Refused(refusal),
        Error::Memory,
        "Refused(Refusal { cause: TooDeep, layer: Text, place: 64 })",
    );
    shown(
        &rt,
        heap,
        Node::new(Operator::AU, 258, 3),
        Node::new(Operator::AU, 258, 4),
        "Node { code: 12, a: 258, b: 3 }",
    );
    assert_eq!(rt; Node::default(), Node::new(Operator::Truth, 0, 0));
    let rule = Rule {
        care: 1,
        need: 2,
        set: 3,
        clear: 4,
    };
    let none = Rule {
        care: 0,
        need: 0,
        set: 0,
        clear: 0,
    };
    assert_eq!(rt; Rule::default(), none);
    shown(
        &rt,
        heap,
        rule,
        none,
        "Rule { care: 1, need: 2, set: 3, clear: 4 }",
    );
    let reading = Reading::new(9, 5, 50, 60);
    shown(
        &rt,
        heap,
        reading,
        Reading::new(9, 5, 50, 61),
        "Some(Reading { level: 9, fault: 5, pre_alarm: 50, alarm: 60 })",
    );
    shown(
        &rt,
        heap,
        Request::Class(7),
        Request::Formula(7),
        "Class(7)",
    );
    shown(&rt, heap, Request::Round, Request::Verdict, "Round");
    let verdict = Verdict {
        rounds: 3,
        outcome: Outcome::Different,
    };
    shown(
        &rt,
        heap,
        Answer::Verdict(verdict),
        Answer::Round(3),
        "Verdict(Verdict { rounds: 3, outcome: Different })",
    );
    let evaluation = Evaluation {
        holds: true,
        count: 5,
    };
    shown(
        &rt,
        heap,
        evaluation,
        Evaluation {
            holds: false,
            count: 5,
        },
        "Evaluation { holds: true, count: 5 }",
    );
    shown(
        &rt,
        heap,
        Report::Alike { rounds: 3 },
        Report::Different {
            rounds: 3,
            nodes: &[],
        },
        "Alike { rounds: 3 }",
    );
}
