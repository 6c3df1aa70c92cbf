// Tests of the loader at the boundary of each refusal. Every refused load must leave the holder as it was.

use crate::building::{image, loaded};
use crate::holding::moves;
use image::slot::Slot;
use image::stored::StoredModel;
use kripke::label::Label;
use kripke::model::Model;
use kripke::refusal::{Cause, Layer};
use labels::reading::Reading;
use labels::signal::SignalWord;
use std::alloc::Global;
use std::process::Abort;
use std::test::Fail;

// An image of signal words: n states that all have the chain from link 1, and m links, each to state 0 and to the next link, but for the last.
fn chained(heap: Global, n: u16, m: u16) -> Result<Vec<u8>, Fail> {
    let states = vec![in heap; ([7, 0, 0, 0], 1); n as usize]?;
    let mut links = Vec::new(heap);
    for l in 1..=m {
        links.push((0, if l < m { l + 1 } else { 0 }))?;
    }
    image(heap, 1, 0, states.as_slice(), links.as_slice())
}

// The image with one byte changed, where it has that byte.
fn patched(mut image: Vec<u8>, at: usize, byte: u8) -> Vec<u8> {
    if let Some(place) = image.get_mut(at) {
        *place = byte;
    }
    image
}

// A holder of two states, 0 with word 5 and 1 with word 6, that lead to each other; 1 is initial.
fn held(heap: Global) -> Result<StoredModel<SignalWord>, Fail> {
    loaded(heap, &HELD)
}

const HELD: [u8; 32] = [
    1, 0, 2, 0, 2, 0, 1, 0, //
    5, 0, 0, 0, 1, 0, 0, 0, //
    6, 0, 0, 0, 2, 0, 0, 0, //
    1, 0, 0, 0, 0, 0, 0, 0,
];

fn still_held(rt: &impl Abort, model: &StoredModel<SignalWord>) {
    moves(rt, model, 1, &[&[1], &[0]]);
    assert_eq!(rt; model.label(0), SignalWord(5));
    assert_eq!(rt; model.label(1), SignalWord(6));
}

// The image is refused for this cause at this place, as a second image, and the holder stays.
fn refused(
    rt: &impl Abort,
    heap: Global,
    image: Vec<u8>,
    cause: Cause,
    place: usize,
) -> Result<(), Fail> {
    let mut model = held(heap)?;
    let refusal = Layer::SecondImage.refusal(cause, place);
    let loaded = model.load(image.as_slice(), Slot::Second);
    assert_eq!(rt; loaded, Err(refusal));
    still_held(rt, &model);
    Ok(())
}

// The image is taken, and has so many states, the first with so many successors.
fn taken(
    rt: &impl Abort,
    heap: Global,
    image: Vec<u8>,
    states: usize,
    degree: usize,
) -> Result<(), Fail> {
    let mut model = held(heap)?;
    assert_eq!(rt; model.load(image.as_slice(), Slot::First), Ok(()));
    assert_eq!(rt; model.states(), states);
    assert_eq!(rt; model.degree(0), degree);
    Ok(())
}

#[test]
fn lengths(rt: HostRuntime) -> Result<(), Fail> {
    let heap = rt.alloc();
    refused(&rt, heap, Vec::new(heap), Cause::ShortImage, 0)?;
    let mut short = chained(heap, 1, 1)?;
    short.truncate(7);
    refused(&rt, heap, short, Cause::ShortImage, 7)?;
    let mut header = chained(heap, 1, 1)?;
    header.truncate(8);
    refused(&rt, heap, header, Cause::ImageLength, 20)?;
    let mut long = chained(heap, 1, 1)?;
    long.push(0)?;
    refused(&rt, heap, long, Cause::ImageLength, 20)?;
    taken(&rt, heap, chained(heap, 1, 1)?, 1, 1)
}

#[test]
fn header_fields(rt: HostRuntime) -> Result<(), Fail> {
    let heap = rt.alloc();
    for (at, byte, place) in [(0, 2, 0), (1, 1, 1), (6, 1, 6)] {
        let image = patched(chained(heap, 1, 1)?, at, byte);
        refused(&rt, heap, image, Cause::HeaderField, place)?;
    }
    for (states, links, place) in [(0, 1, 2), (257, 1, 2), (1, 0, 4), (1, 4097, 4)] {
        let image = chained(heap, states, links)?;
        refused(&rt, heap, image, Cause::HeaderField, place)?;
    }
    taken(&rt, heap, chained(heap, 256, 1)?, 256, 1)
}

#[test]
fn records(rt: HostRuntime) -> Result<(), Fail> {
    let heap = rt.alloc();
    for (at, byte, cause, place) in [
        (20, 0, Cause::StateRecord, 16),
        (20, 4, Cause::StateRecord, 16),
        (14, 1, Cause::StateRecord, 8),
        (23, 1, Cause::StateRecord, 16),
        (28, 2, Cause::LinkRecord, 28),
        (34, 4, Cause::LinkRecord, 32),
    ] {
        let image = patched(chained(heap, 2, 3)?, at, byte);
        refused(&rt, heap, image, cause, place)?;
    }
    taken(&rt, heap, patched(chained(heap, 2, 3)?, 32, 1), 2, 3)
}

#[test]
fn chains(rt: HostRuntime) -> Result<(), Fail> {
    let heap = rt.alloc();
    taken(&rt, heap, chained(heap, 1, 16)?, 1, 16)?;
    let long = chained(heap, 1, 17)?;
    refused(&rt, heap, long, Cause::LongChain, 8)?;
    let circle = patched(chained(heap, 1, 1)?, 18, 1);
    refused(&rt, heap, circle, Cause::LongChain, 8)?;
    let second = patched(chained(heap, 3, 17)?, 12, 2);
    refused(&rt, heap, second, Cause::LongChain, 16)?;
    taken(&rt, heap, patched(chained(heap, 1, 17)?, 12, 2), 1, 16)
}

// Of two faults the lower number is told, and of two records the lower place.
#[test]
fn first_fault(rt: HostRuntime) -> Result<(), Fail> {
    let heap = rt.alloc();
    for (one, other, cause, place) in [
        ((28, 2), (23, 1), Cause::StateRecord, 16),
        ((15, 1), (23, 1), Cause::StateRecord, 8),
        ((36, 9), (28, 2), Cause::LinkRecord, 28),
    ] {
        let image = patched(chained(heap, 2, 3)?, one.0, one.1);
        let image = patched(image, other.0, other.1);
        refused(&rt, heap, image, cause, place)?;
    }
    let fields = patched(patched(chained(heap, 1, 1)?, 6, 1), 1, 1);
    refused(&rt, heap, fields, Cause::HeaderField, 1)?;
    let target = patched(chained(heap, 1, 17)?, 16, 1);
    refused(&rt, heap, target, Cause::LinkRecord, 16)
}

// An image of one reading of level 7, with these limits.
fn limits(heap: Global, fault: u8, pre_alarm: u8, alarm: u8) -> Result<Vec<u8>, Fail> {
    image(heap, 2, 0, &[([7, fault, pre_alarm, alarm], 1)], &[(0, 0)])
}

#[test]
fn readings(rt: HostRuntime) -> Result<(), Fail> {
    let heap = rt.alloc();
    let mut model = StoredModel::<Reading>::new(heap)?;
    assert!(rt; model.label(0).answer(0));
    model.load(limits(heap, 5, 50, 60)?.as_slice(), Slot::First)?;
    assert!(rt; !model.label(0).answer(0));
    let refused = model.load(limits(heap, 5, 60, 60)?.as_slice(), Slot::First);
    assert_eq!(rt;
        refused,
        Err(Layer::FirstImage.refusal(Cause::StateRecord, 8))
    );
    assert!(rt; !model.label(0).answer(0));
    Ok(())
}
