// Tests of the comparison: stored models of both kinds, rule models, one of each, and models of 256 states.

use crate::building::{DARK, ONE, chain, holds, stored};
use compare::comparison::Comparison;
use compare::requests::{Answer, Request};
use compare::verdict::{Outcome, Verdict};
use image::stored::StoredModel;
use kripke::label::Label;
use kripke::model::Model;
use kripke::node::Node;
use kripke::operator::Operator;
use kripke::refusal::{Cause, Layer, Refusal};
use labels::reading::Reading;
use labels::signal::SignalWord;
use rules::model::RuleModel;
use rules::rule::Rule;
use std::alloc::Global;
use std::process::Abort;
use std::test::Fail;

// Two states that lead to each other, with these labels.
fn readings(heap: Global, one: [u8; 4], two: [u8; 4]) -> Result<StoredModel<Reading>, Fail> {
    stored(heap, &[(one, 1), (two, 2)], &[(1, 0), (0, 0)])
}

fn refusal(cause: Cause, place: usize) -> Refusal {
    Layer::Comparison.refusal(cause, place)
}

// The comparison closes so, after so many rounds and no fewer.
fn closes<L: Label, M: Model<Label = L>, N: Model<Label = L>>(
    rt: &impl Abort,
    heap: Global,
    first: &M,
    second: &N,
    outcome: Outcome,
    rounds: usize,
) -> Result<Comparison, Fail> {
    let mut comparison = Comparison::open(first, second);
    for k in 0..rounds {
        assert_eq!(rt;
            comparison.verdict(),
            Err(refusal(Cause::OpenComparison, k))
        );
        comparison.round()?;
    }
    assert_eq!(rt; comparison.verdict(), Ok(Verdict { rounds, outcome }));
    assert_eq!(rt;
        comparison.round(),
        Err(refusal(Cause::ClosedComparison, rounds))
    );
    Ok(comparison)
}

// Both models' evaluations of the formula tell them apart; it has so many nodes.
fn separates<L: Label, M: Model<Label = L>, N: Model<Label = L>>(
    rt: &impl Abort,
    heap: Global,
    comparison: &Comparison,
    first: &M,
    second: &N,
    nodes: usize,
) -> Result<(), Fail> {
    let places = formula(rt, heap, comparison, nodes)?;
    assert!(rt; holds(heap, first, places.as_slice())?);
    assert!(rt; !holds(heap, second, places.as_slice())?);
    Ok(())
}

// The formula, which has so many nodes, and is the table.
fn formula(
    rt: &impl Abort,
    heap: Global,
    comparison: &Comparison,
    nodes: usize,
) -> Result<Vec<Node>, Fail> {
    let filler = Node::new(Operator::EG, 9, 9);
    let mut places = vec![in heap; filler; 2045]?;
    assert_eq!(rt; comparison.formula(places.as_mut_slice()), Ok(nodes));
    places.truncate(nodes);
    assert_eq!(rt; comparison.table(), Ok(places.as_slice()));
    Ok(places)
}

const TWO: [u8; 4] = [2, 0, 0, 0];

// The bench models: one dark state; three states, the last lit; two ways into one of two lights, chosen late or early.
fn dark(heap: Global) -> Result<StoredModel<SignalWord>, Fail> {
    stored(heap, &[(DARK, 1)], &[(0, 0)])
}

fn slow(heap: Global) -> Result<StoredModel<SignalWord>, Fail> {
    stored(
        heap,
        &[(DARK, 1), (DARK, 2), (ONE, 3)],
        &[(1, 0), (2, 0), (2, 0)],
    )
}

fn late(heap: Global) -> Result<StoredModel<SignalWord>, Fail> {
    stored(
        heap,
        &[(DARK, 1), (DARK, 2), (ONE, 4), (TWO, 5)],
        &[(1, 0), (2, 3), (3, 0), (2, 0), (3, 0)],
    )
}

fn early(heap: Global) -> Result<StoredModel<SignalWord>, Fail> {
    stored(
        heap,
        &[(DARK, 1), (DARK, 3), (DARK, 4), (ONE, 5), (TWO, 6)],
        &[(1, 2), (2, 0), (3, 0), (4, 0), (3, 0), (4, 0)],
    )
}

#[test]
fn one_state(rt: HostRuntime) -> Result<(), Fail> {
    let heap = rt.alloc();
    let l = dark(heap)?;
    let lit = stored(heap, &[(ONE, 1)], &[(0, 0)])?;
    closes(&rt, heap, &l, &l, Outcome::Alike, 1)?;
    let c = closes(&rt, heap, &l, &lit, Outcome::Different, 0)?;
    separates(&rt, heap, &c, &l, &lit, 2)
}

#[test]
fn signal_words(rt: HostRuntime) -> Result<(), Fail> {
    let heap = rt.alloc();
    let l = dark(heap)?;
    let s = slow(heap)?;
    let c = closes(&rt, heap, &l, &s, Outcome::Different, 2)?;
    separates(&rt, heap, &c, &l, &s, 6)
}

#[test]
fn choices(rt: HostRuntime) -> Result<(), Fail> {
    let heap = rt.alloc();
    let p = late(heap)?;
    let r = early(heap)?;
    let c = closes(&rt, heap, &p, &r, Outcome::Different, 2)?;
    separates(&rt, heap, &c, &p, &r, 16)
}

// Levels in the same band are alike.
#[test]
fn readings_in_bands(rt: HostRuntime) -> Result<(), Fail> {
    let heap = rt.alloc();
    let low = readings(heap, [6, 5, 50, 60], [59, 5, 50, 60])?;
    let high = readings(heap, [49, 5, 50, 60], [50, 5, 50, 60])?;
    let hot = readings(heap, [49, 5, 50, 60], [60, 5, 50, 60])?;
    closes(&rt, heap, &low, &high, Outcome::Alike, 1)?;
    let c = closes(&rt, heap, &low, &hot, Outcome::Different, 1)?;
    separates(&rt, heap, &c, &low, &hot, 7)
}

// Rule models with each other, and one with a stored one: state 0 stays or goes on to state 1, which stays.
#[test]
fn rule_models(rt: HostRuntime) -> Result<(), Fail> {
    let heap = rt.alloc();
    let fresh = RuleModel::new();
    let mut ruled = RuleModel::new();
    let stay = Rule {
        care: 1,
        need: 0,
        set: 0,
        clear: 0,
    };
    let go = Rule {
        care: 1,
        need: 0,
        set: 1,
        clear: 0,
    };
    ruled.load(1, 0, &[stay, go])?;
    let stored = stored(heap, &[(DARK, 1), (ONE, 3)], &[(0, 2), (1, 0), (1, 0)])?;
    closes(&rt, heap, &ruled, &stored, Outcome::Alike, 1)?;
    let c = closes(&rt, heap, &fresh, &ruled, Outcome::Different, 1)?;
    separates(&rt, heap, &c, &fresh, &ruled, 5)
}

// They part at the last step, or are alike.
#[test]
fn chains(rt: HostRuntime) -> Result<(), Fail> {
    let heap = rt.alloc();
    let unlit = chain(heap, DARK)?;
    let lit = chain(heap, ONE)?;
    closes(&rt, heap, &unlit, &lit, Outcome::Different, 255)?;
    closes(&rt, heap, &lit, &lit, Outcome::Alike, 255)?;
    Ok(())
}

const ASKED: [Request; 14] = [
    Request::Class(2),
    Request::Class(4),
    Request::Verdict,
    Request::Formula(13),
    Request::Round,
    Request::Class(2),
    Request::Class(1),
    Request::Round,
    Request::Round,
    Request::Verdict,
    Request::Formula(12),
    Request::Formula(13),
    Request::Formula(13),
    Request::Class(1),
];

// What they are answered, and what is in a place that is not written.
fn answers() -> [Result<Answer, Refusal>; 15] {
    let few = Err(refusal(Cause::FewPlaces, 0));
    [
        Ok(Answer::Class(0)),
        Err(refusal(Cause::StateNumber, 4)),
        Err(refusal(Cause::OpenComparison, 0)),
        Err(refusal(Cause::NotDifferent, 0)),
        Ok(Answer::Round(3)),
        Ok(Answer::Class(2)),
        Ok(Answer::Class(0)),
        Ok(Answer::Round(4)),
        Err(refusal(Cause::ClosedComparison, 2)),
        Ok(Answer::Verdict(Verdict {
            rounds: 2,
            outcome: Outcome::Different,
        })),
        Err(refusal(Cause::FewPlaces, 12)),
        Ok(Answer::Formula(6)),
        Ok(Answer::Formula(6)),
        Ok(Answer::Class(1)),
        few,
    ]
}

// What each of a list of requests is answered; the place past them stays.
#[test]
fn requests(rt: HostRuntime) -> Result<(), Fail> {
    let heap = rt.alloc();
    let l = dark(heap)?;
    let s = slow(heap)?;
    let mut places = [Err(refusal(Cause::FewPlaces, 0)); 15];
    let c = Comparison::open_and_run(&l, &s, &ASKED, &mut places);
    assert_eq!(rt; c.table()?.len(), 6);
    assert_eq!(rt; places, answers());
    Ok(())
}
