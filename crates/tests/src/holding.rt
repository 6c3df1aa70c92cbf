// Tests of model holders: what a fresh one has, and each question of models whose images have another number in every field.

ghost use Rattle.std.specs.Prelude.{◌<◌};

use crate::building::{image, loaded};
use image::slot::Slot;
use image::stored::StoredModel;
use kripke::model::Model;
use labels::coded::Coded;
use labels::reading::Reading;
use labels::signal::SignalWord;
use rules::model::RuleModel;
use std::alloc::Global;
use std::process::Abort;
use std::test::Fail;

// The model has this initial state, and these successors in their order, a list a state.
pub(crate) fn moves<M: Model>(rt: &impl Abort, model: &M, initial: usize, successors: &[&[usize]]) {
    assert_eq!(rt; model.states(), successors.len());
    assert_eq!(rt; model.initial(), initial);
    for (s, next) in successors.iter().enumerate() {
        assert_eq!(rt; model.degree(s), next.len(), "state {s}");
        for (i, target) in next.iter().enumerate() {
            assert_eq!(rt; model.successor(s, i), *target, "state {s}");
        }
    }
}

#[test]
fn fresh(rt: HostRuntime) -> Result<(), Fail> {
    let words = StoredModel::<SignalWord>::new(rt.alloc())?;
    let readings = StoredModel::<Reading>::new(rt.alloc())?;
    let rules = RuleModel::new();
    moves(&rt, &words, 0, &[&[0]]);
    moves(&rt, &readings, 0, &[&[0]]);
    moves(&rt, &rules, 0, &[&[0], &[1]]);
    let lowest = Reading::new(0, 0, 1, 2);
    assert_eq!(rt;
        (words.label(0), SignalWord::fresh()),
        (SignalWord(0), SignalWord(0))
    );
    assert_eq!(rt;
        (Some(readings.label(0)), Some(Reading::fresh())),
        (lowest, lowest)
    );
    assert_eq!(rt;
        (rules.label(0), rules.label(1)),
        (SignalWord(0), SignalWord(1))
    );
    Ok(())
}

// Three states and five links, some shared: no two fields of a record are equal.
const SMALL: [u8; 52] = [
    1, 0, 3, 0, 5, 0, 2, 0, //
    17, 34, 51, 68, 4, 0, 0, 0, //
    85, 102, 119, 136, 3, 0, 0, 0, //
    153, 170, 187, 204, 5, 0, 0, 0, //
    2, 0, 0, 0, 0, 0, 1, 0, //
    1, 0, 2, 0, 2, 0, 3, 0, //
    1, 0, 0, 0,
];

const SUCCESSORS: [&[usize]; 3] = [&[2, 1, 0, 2], &[1, 0, 2], &[1]];

#[test]
fn small_images(rt: HostRuntime) -> Result<(), Fail> {
    let words = loaded::<SignalWord>(rt.alloc(), &SMALL)?;
    moves(&rt, &words, 2, &SUCCESSORS);
    for (s, word) in [0x44332211, 0x88776655, 0xCCBBAA99].iter().enumerate() {
        assert_eq!(rt; words.label(s), SignalWord(*word));
    }
    let mut image = SMALL;
    image[0] = 2;
    let mut readings = StoredModel::<Reading>::new(rt.alloc())?;
    readings.load(&image, Slot::Second)?;
    moves(&rt, &readings, 2, &SUCCESSORS);
    for (s, level, fault, pre_alarm, alarm) in [
        (0, 17, 34, 51, 68),
        (1, 85, 102, 119, 136),
        (2, 153, 170, 187, 204),
    ] {
        let reading = Reading::new(level, fault, pre_alarm, alarm);
        assert_eq!(rt; Some(readings.label(s)), reading);
    }
    Ok(())
}

// The image of 256 states and 770 links, whose numbers need two bytes: state s has the links 257 + s and 513 + s.
fn two_bytes(heap: Global) -> Result<Vec<u8>, Fail> {
    let mut states = Vec::new(heap);
    let mut links = Vec::new(heap);
    for s in 0..=255u8 {
        states.push(([s, 3, 2, 1], 257 + u16::from(s)))?;
    }
    for _ in 1..257 {
        links.push((7, 770))?;
    }
    for l in 257..513u16 {
        links.push((l - 257, l + 256))?;
    }
    for _ in 513..771 {
        links.push((199, 0))?;
    }
    image(heap, 1, 200, states.as_slice(), links.as_slice())
}

#[test]
fn numbers_of_two_bytes(rt: HostRuntime) -> Result<(), Fail> {
    let bytes = two_bytes(rt.alloc())?;
    assert!(rt; bytes.starts_with(&[1, 0, 0, 1, 2, 3, 200, 0, 0, 3, 2, 1, 1, 1, 0, 0]));
    let model = loaded::<SignalWord>(rt.alloc(), bytes.as_slice())?;
    assert_eq!(rt; (model.states(), model.initial()), (256, 200));
    for s in 0..256usize {
        assert_eq!(rt; model.label(s), SignalWord(0x01020300 + s as u32));
        assert_eq!(rt; model.degree(s), 2);
        assert_eq!(rt; (model.successor(s, 0), model.successor(s, 1)), (s, 199));
    }
    Ok(())
}

// The state that lies i * i states on from s, round the end.
fn ahead(s: u16, i: u16, n: u16) -> u16
    requires { 0 < n }
{
    s.wrapping_add(i.wrapping_mul(i)) % n
}

// Four label bytes of state s of n.
fn marks(s: u16, n: u16) -> [u8; 4] {
    let [low, high] = n.to_le_bytes();
    let [s, _] = s.to_le_bytes();
    [s, low, 85, high]
}

// An image of n states of so many successors each.
fn ring(heap: Global, n: u16, degree: u16) -> Result<Vec<u8>, Fail>
    requires { 0 < n }
{
    let mut states = Vec::new(heap);
    let mut links = Vec::new(heap);
    for s in 0..n {
        states.push((marks(s, n), s.wrapping_mul(degree).wrapping_add(1)))?;
        for i in 1..degree {
            let next = s.wrapping_mul(degree).wrapping_add(i).wrapping_add(1);
            links.push((ahead(s, i, n), next))?;
        }
        links.push((ahead(s, degree, n), 0))?;
    }
    image(heap, 1, n - 1, states.as_slice(), links.as_slice())
}

// Each number of states, and each number of successors: each question, and the first past each end.
#[test]
fn sizes(rt: HostRuntime) -> Result<(), Fail> {
    let heap = rt.alloc();
    let mut model = StoredModel::<SignalWord>::new(heap)?;
    for n in 1..=256u16 {
        let degree = 16 - n % 16;
        model.load(ring(heap, n, degree)?.as_slice(), Slot::First)?;
        assert_eq!(rt;
            (model.states(), model.initial()),
            (n as usize, n as usize - 1)
        );
        for s in 0..n {
            assert_eq!(rt;
                model.label(s as usize),
                SignalWord(u32::from_le_bytes(marks(s, n)))
            );
            assert_eq!(rt; model.degree(s as usize), degree as usize);
            for i in 0..degree {
                let next = ahead(s, i + 1, n) as usize;
                assert_eq!(rt; model.successor(s as usize, i as usize), next);
            }
            let first = ahead(s, 1, n) as usize;
            assert_eq!(rt; model.successor(s as usize, degree as usize), first);
        }
        assert_eq!(rt;
            model.label(n as usize),
            SignalWord(u32::from_le_bytes(marks(0, n)))
        );
    }
    Ok(())
}
