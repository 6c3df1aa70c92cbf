// Tests of lists of requests to two chains of 256 states, whose last states differ. After k rounds the last k + 1 states of the first chain
// stand alone, and all others are together: k + 2 classes. The chains part after 255 rounds.

use crate::building::{DARK, ONE, chain};
use compare::comparison::Comparison;
use compare::requests::{Answer, Request};
use compare::verdict::{Outcome, Verdict};
use kripke::refusal::{Cause, Layer, Refusal};
use std::alloc::{AllocError, Global};
use std::process::Abort;
use std::test::Fail;

type Told = Result<Answer, Refusal>;

fn refused(cause: Cause, place: usize) -> Told {
    Err(Layer::Comparison.refusal(cause, place))
}

// What is in an answer place that was not written.
const NOTHING: Told = Ok(Answer::Class(65535));

const VERDICT: Told = Ok(Answer::Verdict(Verdict {
    rounds: 255,
    outcome: Outcome::Different,
}));

// Every round, and before each the class of a state of the second chain; then what a closed comparison tells.
fn requests(heap: Global) -> Result<Vec<Request>, AllocError> {
    let mut requests = Vec::new(heap);
    for _ in 0..255 {
        requests.push(Request::Class(300))?;
        requests.push(Request::Round)?;
    }
    requests.extend_from_slice(&[
        Request::Class(300),
        Request::Round,
        Request::Verdict,
        Request::Formula(2044),
        Request::Formula(2045),
    ])?;
    Ok(requests)
}

fn answers(heap: Global) -> Result<Vec<Told>, AllocError> {
    let mut answers = Vec::new(heap);
    for classes in 3..258 {
        answers.push(Ok(Answer::Class(0)))?;
        answers.push(Ok(Answer::Round(classes)))?;
    }
    answers.extend_from_slice(&[
        Ok(Answer::Class(256)),
        refused(Cause::ClosedComparison, 255),
        VERDICT,
        refused(Cause::FewPlaces, 2044),
        Ok(Answer::Formula(513)),
    ])?;
    Ok(answers)
}

// With more places than requests, the rest of the places stays.
#[test]
fn more_places(rt: HostRuntime) -> Result<(), Fail> {
    let heap = rt.alloc();
    let (lit, dark) = (chain(heap, ONE)?, chain(heap, DARK)?);
    let requests = requests(heap)?;
    let mut places = [NOTHING; 518];
    let c = Comparison::open_and_run(&lit, &dark, requests.as_slice(), &mut places);
    let mut wanted = answers(heap)?;
    wanted.extend_from_slice(&[NOTHING; 3])?;
    assert_eq!(rt; places.as_slice(), wanted.as_slice());
    assert_eq!(rt; c.table()?.len(), 513);
    Ok(())
}

// What is asked between, twice; nothing of it is a round.
fn asked(rt: &impl Abort, c: &mut Comparison, told: &[Told; 3]) {
    let requests = [Request::Class(300), Request::Verdict, Request::Formula(9)];
    for _ in 0..2 {
        let mut places = [NOTHING; 3];
        c.run(&requests, &mut places);
        assert_eq!(rt; places, *told);
    }
}

// The first places are written alone, and the rest when it is asked for.
fn in_parts(rt: &impl Abort, heap: Global, c: &mut Comparison) -> Result<(), Fail> {
    let requests = requests(heap)?;
    assert_eq!(rt; requests.len(), 515);
    let mut places = [NOTHING; 515];
    c.run(requests.as_slice(), &mut places[..101]);
    assert_eq!(rt; &places[101..], [NOTHING; 414].as_slice());
    c.run(&requests[101..], &mut places[101..]);
    assert_eq!(rt; places.as_slice(), answers(heap)?.as_slice());
    Ok(())
}

// With fewer places than requests, the requests past the places are not looked at: asked later they are answered as ever.
// Nothing that is asked without a round changes what is answered later, before the rounds and after them.
#[test]
fn fewer_places(rt: HostRuntime) -> Result<(), Fail> {
    let heap = rt.alloc();
    let (lit, dark) = (chain(heap, ONE)?, chain(heap, DARK)?);
    let mut c = Comparison::open(&lit, &dark);
    let open = [
        Ok(Answer::Class(0)),
        refused(Cause::OpenComparison, 0),
        refused(Cause::NotDifferent, 0),
    ];
    asked(&rt, &mut c, &open);
    in_parts(&rt, heap, &mut c)?;
    let closed = [
        Ok(Answer::Class(256)),
        VERDICT,
        refused(Cause::FewPlaces, 9),
    ];
    asked(&rt, &mut c, &closed);
    Ok(())
}
