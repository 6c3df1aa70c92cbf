// Tests of the pair job: reports of different models, refusals of either image, and inputs cut short.

use crate::building::{chain_image, job, lines};
use std::alloc::Global;
use std::process::Abort;
use std::test::Fail;

// The kind bytes of signal words and of readings, and one that is no kind's: bytes, since these tests are on bytes.
const SIGNAL_WORDS: u8 = 1;

const READINGS: u8 = 2;

const NO_KIND: u8 = 3;

// The label bytes of signal words, and of readings.
const DARK: [u8; 4] = [0, 0, 0, 0];

const LIT: [u8; 4] = [1, 0, 0, 0];

const FAULT: [u8; 4] = [5, 5, 50, 60];

const ALARM: [u8; 4] = [60, 5, 50, 60];

// The image of one state, its own successor.
fn image(kind: u8, label: [u8; 4]) -> [u8; 20] {
    let [a, b, c, d] = label;
    [
        kind, 0, 1, 0, 1, 0, 0, 0, a, b, c, d, 1, 0, 0, 0, 0, 0, 0, 0,
    ]
}

// Two images of one state, by kind and label, and the text that the job answers.
type Case = (u8, [u8; 4], u8, [u8; 4], &'static str);

// The job answers the two, one after the other, by this text.
fn told(
    rt: &impl Abort,
    heap: Global,
    first: &[u8],
    second: &[u8],
    expected: &str,
) -> Result<(), Fail> {
    let text = job(heap, first, second)?;
    assert!(rt; text.as_slice() == expected.as_bytes());
    Ok(())
}

fn answers(rt: &impl Abort, heap: Global, cases: &[Case]) -> Result<(), Fail> {
    for (kind, label, second_kind, second_label, expected) in cases {
        let first = image(*kind, *label);
        let second = image(*second_kind, *second_label);
        told(rt, heap, &first, &second, expected)?;
    }
    Ok(())
}

const REPORTS: [Case; 5] = [
    (SIGNAL_WORDS, DARK, SIGNAL_WORDS, DARK, "alike 1\n"),
    (READINGS, FAULT, READINGS, FAULT, "alike 1\n"),
    (
        SIGNAL_WORDS,
        LIT,
        SIGNAL_WORDS,
        DARK,
        "differ 0 1\n0 1 0 0\n",
    ),
    (
        SIGNAL_WORDS,
        DARK,
        SIGNAL_WORDS,
        LIT,
        "differ 0 2\n0 1 0 0\n1 2 0 0\n",
    ),
    (
        READINGS,
        ALARM,
        READINGS,
        FAULT,
        "differ 0 2\n0 1 0 0\n1 2 0 0\n",
    ),
];

#[test]
fn reports(rt: HostRuntime) -> Result<(), Fail> {
    answers(&rt, rt.alloc(), &REPORTS)
}

const REFUSED: [Case; 4] = [
    (SIGNAL_WORDS, DARK, READINGS, FAULT, "refused 2 2 0\n"),
    (READINGS, FAULT, SIGNAL_WORDS, DARK, "refused 2 2 0\n"),
    (NO_KIND, DARK, NO_KIND, DARK, "refused 2 1 0\n"),
    (READINGS, FAULT, READINGS, DARK, "refused 4 2 8\n"),
];

#[test]
fn kinds_and_labels(rt: HostRuntime) -> Result<(), Fail> {
    answers(&rt, rt.alloc(), &REFUSED)
}

// Two images of one dark state, and a byte more.
const LONGER: [u8; 41] = [
    1, 0, 1, 0, 1, 0, 0, 0, 0, 0, 0, 0, 1, 0, 0, 0, 0, 0, 0, 0, //
    1, 0, 1, 0, 1, 0, 0, 0, 0, 0, 0, 0, 1, 0, 0, 0, 0, 0, 0, 0, //
    0,
];

// So many of their bytes, and the text.
const LENGTHS: [(usize, &str); 8] = [
    (0, "refused 1 1 0\n"),
    (1, "refused 1 1 1\n"),
    (8, "refused 3 1 20\n"),
    (19, "refused 3 1 20\n"),
    (20, "refused 1 2 0\n"),
    (27, "refused 1 2 7\n"),
    (39, "refused 3 2 20\n"),
    (41, "refused 3 2 20\n"),
];

#[test]
fn lengths(rt: HostRuntime) -> Result<(), Fail> {
    let heap = rt.alloc();
    for (length, expected) in LENGTHS {
        let input = LONGER.get(..length).ok_or("as many bytes")?;
        told(&rt, heap, input, &[], expected)?;
    }
    let header = [9, 0, 1, 0, 1, 0, 0, 0];
    told(&rt, heap, &header, &[], "refused 2 1 0\n")
}

// The most rounds that two models of 256 states need: they part at the last of 255 steps, or agree there.
// In one order the formula has a node less than in the other (docs/FORMATS.md, "The pair job").
#[test]
fn longest(rt: HostRuntime) -> Result<(), Fail> {
    let heap = rt.alloc();
    let lit = chain_image(heap, LIT)?;
    let dark = chain_image(heap, DARK)?;
    let text = job(heap, lit.as_slice(), dark.as_slice())?;
    assert!(&rt; text.starts_with(b"differ 255 513\n0 1 0 0\n") && lines(text.as_slice()) == 514);
    let text = job(heap, dark.as_slice(), lit.as_slice())?;
    assert!(&rt; text.starts_with(b"differ 255 512\n") && lines(text.as_slice()) == 513);
    told(&rt, heap, lit.as_slice(), lit.as_slice(), "alike 255\n")
}
