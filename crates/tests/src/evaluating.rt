// Tests of rule models, and of the evaluator at rule and stored models. What is refused must leave all as it was.

use crate::building::{evaluated, evaluation, image, loaded, numbered, table};
use crate::holding::moves;
use evaluator::Evaluation;
use kripke::model::Model;
use kripke::node::{MOST_NODES, Node};
use kripke::operator::Operator;
use kripke::refusal::{Cause, Layer};
use labels::signal::SignalWord;
use rules::model::RuleModel;
use rules::rule::Rule;
use std::alloc::Global;
use std::process::Abort;
use std::test::Fail;

fn rule(care: u8, need: u8, set: u8, clear: u8) -> Rule {
    Rule {
        care,
        need,
        set,
        clear,
    }
}

fn ruled(bits: usize, initial: usize, rules: &[Rule]) -> Result<RuleModel, Fail> {
    let mut model = RuleModel::new();
    model.load(bits, initial, rules)?;
    Ok(model)
}

// The rules are refused for this cause at this place, and the holder stays.
fn refused(
    rt: &impl Abort,
    bits: usize,
    initial: usize,
    rules: &[Rule],
    cause: Cause,
    place: usize,
) -> Result<(), Fail> {
    let mut model = ruled(2, 3, &[rule(1, 0, 1, 0)])?;
    let refusal = Layer::Rules.refusal(cause, place);
    assert_eq!(rt; model.load(bits, initial, rules), Err(refusal));
    assert_eq!(rt; model.label(2), SignalWord(2));
    moves(rt, &model, 3, &[&[1], &[1], &[3], &[3]]);
    Ok(())
}

#[test]
fn rule_limits(rt: HostRuntime) -> Result<(), Fail> {
    for (bits, initial) in [(0, 0), (9, 0), (2, 4)] {
        refused(
            &rt,
            bits,
            initial,
            &[rule(0, 1, 0, 0)],
            Cause::RuleLimits,
            0,
        )?;
    }
    refused(&rt, 8, 0, &[rule(0, 0, 0, 0); 17], Cause::RuleLimits, 0)?;
    let largest = ruled(8, 255, &[rule(255, 255, 0, 255); 16])?;
    assert_eq!(rt; largest.states(), 256);
    leads(&rt, &largest, &[(255, 16)], &[(255, 15, 0)]);
    moves(&rt, &RuleModel::new(), 0, &[&[0], &[1]]);
    Ok(())
}

// The model's states have these degrees, and their successors, by state and place, are these.
fn leads<M: Model>(
    rt: &impl Abort,
    model: &M,
    degrees: &[(usize, usize)],
    successors: &[(usize, usize, usize)],
) {
    for (s, degree) in degrees {
        assert_eq!(rt; model.degree(*s), *degree);
    }
    for (s, i, next) in successors {
        assert_eq!(rt; model.successor(*s, *i), *next);
    }
}

#[test]
fn unlawful_rules(rt: HostRuntime) -> Result<(), Fail> {
    let bad = [
        rule(1, 2, 0, 0),
        rule(0, 0, 3, 1),
        rule(4, 0, 0, 0),
        rule(4, 4, 0, 0),
        rule(0, 0, 4, 0),
        rule(0, 0, 0, 4),
    ];
    for unlawful in bad {
        let rules = [rule(3, 3, 1, 2), unlawful, unlawful];
        refused(&rt, 2, 0, &rules, Cause::UnlawfulRule, 1)?;
    }
    Ok(())
}

// Numbers past an end: state 0, and the first successor.
#[test]
fn rule_moves(rt: HostRuntime) -> Result<(), Fail> {
    let rules = [rule(1, 1, 0, 1), rule(3, 0, 3, 0), rule(1, 1, 2, 1)];
    let model = ruled(2, 1, &rules)?;
    let successors = [
        (3, 0, 2),
        (1, 0, 0),
        (1, 1, 2),
        (1, 2, 0),
        (2, 7, 2),
        (4, 0, 3),
    ];
    leads(&rt, &model, &[(3, 2), (2, 1), (4, 1)], &successors);
    assert_eq!(rt; model.label(4), SignalWord(0));
    Ok(())
}

// The table is refused for this cause at this place, and the words stay.
fn rejected(
    rt: &impl Abort,
    heap: Global,
    nodes: &[Node],
    count: usize,
    cause: Cause,
    place: usize,
) -> Result<(), Fail> {
    let mut words = numbered(heap, count)?;
    let refusal = Layer::Evaluation.refusal(cause, place);
    assert_eq!(rt;
        evaluation(&RuleModel::new(), nodes, words.as_mut_slice()),
        Err(refusal)
    );
    assert_eq!(rt; words, numbered(heap, count)?);
    Ok(())
}

// The table is evaluated on a new rule model into so many words, and its root holds at so many states.
fn accepted(
    rt: &impl Abort,
    heap: Global,
    nodes: &[Node],
    words: usize,
    count: u32,
) -> Result<(), Fail> {
    let mut words = numbered(heap, words)?;
    let root = evaluation(&RuleModel::new(), nodes, words.as_mut_slice())?;
    assert_eq!(rt; root.count, count);
    Ok(())
}

// A node whose code is no operator's.
const UNKNOWN: Node = Node {
    code: 13,
    a: 0,
    b: 0,
};

#[test]
fn node_counts(rt: HostRuntime) -> Result<(), Fail> {
    let heap = rt.alloc();
    rejected(&rt, heap, &[], 8, Cause::NodeCount, 0)?;
    let mut many = vec![in heap; Node::default(); MOST_NODES]?;
    accepted(&rt, heap, many.as_slice(), 8180, 2)?;
    rejected(&rt, heap, many.as_slice(), 8179, Cause::FewWords, 8179)?;
    many.push(UNKNOWN)?;
    rejected(&rt, heap, many.as_slice(), 4, Cause::NodeCount, 0)
}

const BAD: [(Operator, u16, u16); 7] = [
    (Operator::Truth, 1, 0),
    (Operator::Truth, 0, 1),
    (Operator::Question, 32, 0),
    (Operator::Question, 0, 1),
    (Operator::Not, 1, 0),
    (Operator::EF, 0, 1),
    (Operator::EU, 0, 1),
];

#[test]
fn bad_nodes(rt: HostRuntime) -> Result<(), Fail> {
    let heap = rt.alloc();
    let mut bad = table(heap, &BAD)?;
    bad.push(UNKNOWN)?;
    for second in bad {
        let nodes = [Node::default(), second, second];
        rejected(&rt, heap, &nodes, 4, Cause::BadNode, 1)?;
    }
    Ok(())
}

const UNTIL: [(Operator, u16, u16); 6] = [
    (Operator::Question, 0, 0),
    (Operator::Question, 1, 0),
    (Operator::Question, 2, 0),
    (Operator::Not, 2, 0),
    (Operator::And, 1, 3),
    (Operator::EU, 0, 4),
];

#[test]
fn few_words(rt: HostRuntime) -> Result<(), Fail> {
    let heap = rt.alloc();
    let nodes = table(heap, &UNTIL)?;
    rejected(&rt, heap, nodes.as_slice(), 23, Cause::FewWords, 23)?;
    accepted(&rt, heap, nodes.as_slice(), 24, 0)
}

const EVERY: [(Operator, u16, u16); 15] = [
    (Operator::Truth, 0, 0),
    (Operator::Question, 0, 0),
    (Operator::Question, 1, 0),
    (Operator::Question, 2, 0),
    (Operator::Not, 1, 0),
    (Operator::And, 2, 4),
    (Operator::Or, 1, 3),
    (Operator::EX, 5, 0),
    (Operator::AX, 6, 0),
    (Operator::EF, 3, 0),
    (Operator::EG, 4, 0),
    (Operator::AG, 3, 0),
    (Operator::EU, 2, 1),
    (Operator::AF, 1, 0),
    (Operator::AU, 4, 1),
];

const EVERY_ROW: [[u64; 4]; 15] = [
    [255, 0, 0, 0],
    [170, 0, 0, 0],
    [204, 0, 0, 0],
    [240, 0, 0, 0],
    [85, 0, 0, 0],
    [68, 0, 0, 0],
    [250, 0, 0, 0],
    [98, 0, 0, 0],
    [253, 0, 0, 0],
    [255, 0, 0, 0],
    [84, 0, 0, 0],
    [240, 0, 0, 0],
    [238, 0, 0, 0],
    [171, 0, 0, 0],
    [171, 0, 0, 0],
];

// Every operator on eight states, 0 -> 1 -> 2 -> 3 -> 5, 2 -> 4, 4 -> 5 -> 6 -> 7, the last four also to themselves.
#[test]
fn operators(rt: HostRuntime) -> Result<(), Fail> {
    let heap = rt.alloc();
    let rules = [
        rule(1, 0, 1, 0),
        rule(3, 1, 2, 1),
        rule(6, 2, 4, 2),
        rule(4, 4, 0, 0),
    ];
    let model = ruled(3, 0, &rules)?;
    let nodes = table(heap, &EVERY)?;
    let root = Evaluation {
        holds: true,
        count: 5,
    };
    evaluated(&rt, heap, &model, nodes.as_slice(), &EVERY_ROW, root)
}

const WAYS: [(Operator, u16, u16); 4] = [
    (Operator::Question, 0, 0),
    (Operator::EF, 0, 0),
    (Operator::AG, 1, 0),
    (Operator::AF, 0, 0),
];

const WAYS_ROWS: [[u64; 4]; 4] = [[2, 0, 0, 0], [3, 0, 0, 0], [3, 0, 0, 0], [2, 0, 0, 0]];

// An image: state 0 stays or goes on to state 1, which stays.
const TWO: [u8; 36] = [
    1, 0, 2, 0, 3, 0, 0, 0, //
    0, 0, 0, 0, 1, 0, 0, 0, //
    1, 0, 0, 0, 3, 0, 0, 0, //
    0, 0, 2, 0, 1, 0, 0, 0, //
    1, 0, 0, 0,
];

// State 0 stays or goes on to state 1, which stays: a rule model and a stored one.
#[test]
fn both_kinds(rt: HostRuntime) -> Result<(), Fail> {
    let heap = rt.alloc();
    let nodes = table(heap, &WAYS)?;
    let root = Evaluation {
        holds: false,
        count: 1,
    };
    let model = ruled(1, 0, &[rule(1, 0, 0, 0), rule(1, 0, 1, 0)])?;
    evaluated(&rt, heap, &model, nodes.as_slice(), &WAYS_ROWS, root)?;
    let stored = loaded::<SignalWord>(heap, &TWO)?;
    evaluated(&rt, heap, &stored, nodes.as_slice(), &WAYS_ROWS, root)
}

const ALL: u64 = 0xFFFFFFFFFFFFFFFF;

const EVEN: u64 = 0x5555555555555555;

const ODD: u64 = 0xAAAAAAAAAAAAAAAA;

const THIRD: [(Operator, u16, u16); 11] = [
    (Operator::Question, 0, 0),
    (Operator::Question, 7, 0),
    (Operator::Truth, 0, 0),
    (Operator::Not, 0, 0),
    (Operator::Not, 1, 0),
    (Operator::AX, 0, 0),
    (Operator::EF, 1, 0),
    (Operator::AG, 1, 0),
    (Operator::AG, 3, 0),
    (Operator::EU, 4, 1),
    (Operator::EX, 1, 0),
];

const THIRD_ROWS: [[u64; 4]; 11] = [
    [ODD, ODD, 0b0101010, 0],
    [0, 0, 0b1111111, 0],
    [ALL, ALL, 0b1111111, 0],
    [EVEN, EVEN, 0b1010101, 0],
    [ALL, ALL, 0, 0],
    [EVEN, EVEN, 0b0010101, 0],
    [ALL, ALL, 0b1111111, 0],
    [0, 0, 0b1111111, 0],
    [0, 0, 0b1000000, 0],
    [ALL, ALL, 0b1111111, 0],
    [0, 0x8000000000000000, 0b1111111, 0],
];

// A chain of 135 states that show their numbers: its rows reach into the third word, and the words past them stay.
#[test]
fn third_word(rt: HostRuntime) -> Result<(), Fail> {
    let heap = rt.alloc();
    let mut states = Vec::new(heap);
    let mut links = Vec::new(heap);
    for s in 0..135u8 {
        states.push(([s, 0, 0, 0], u16::from(s) + 1))?;
        links.push((u16::from(s.saturating_add(1).min(134)), 0))?;
    }
    let bytes = image(heap, 1, 127, states.as_slice(), links.as_slice())?;
    let model = loaded::<SignalWord>(heap, bytes.as_slice())?;
    let nodes = table(heap, &THIRD)?;
    let root = Evaluation {
        holds: true,
        count: 8,
    };
    evaluated(&rt, heap, &model, nodes.as_slice(), &THIRD_ROWS, root)
}
