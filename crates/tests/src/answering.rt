// Tests of the label kinds: which question each bit of a word answers, and what a reading answers in each band.

use kripke::label::Label;
use labels::coded::Coded;
use labels::kind::{Kind, UnknownKind};
use labels::reading::Reading;
use labels::signal::SignalWord;
use std::process::Abort;
use std::test::Fail;

// The words of one bit, by its question.
const WORDS: [u32; 32] = [
    0x1, 0x2, 0x4, 0x8, 0x10, 0x20, 0x40, 0x80, 0x100, 0x200, 0x400, 0x800, 0x1000, 0x2000, 0x4000,
    0x8000, 0x10000, 0x20000, 0x40000, 0x80000, 0x100000, 0x200000, 0x400000, 0x800000, 0x1000000,
    0x2000000, 0x4000000, 0x8000000, 0x10000000, 0x20000000, 0x40000000, 0x80000000,
];

// Of the word of one bit its question alone is yes.
#[test]
fn bits(rt: HostRuntime) -> Result<(), Fail> {
    assert_eq!(rt; SignalWord::questions(), 32);
    for (i, word) in WORDS.iter().enumerate() {
        let word = SignalWord(*word);
        for question in 0..65 {
            assert_eq!(rt; word.answer(question), question == i, "{word:?} {question}");
        }
        assert_eq!(rt; word.telling(&SignalWord(0)), Some(i));
    }
    for (bytes, word) in [
        ([2, 0, 0, 0], 0x2),
        ([0, 4, 0, 0], 0x400),
        ([0, 0, 8, 0], 0x80000),
        ([0, 0, 0, 16], 0x10000000),
    ] {
        assert_eq!(rt; SignalWord::decode(bytes), Some(SignalWord(word)));
    }
    Ok(())
}

// A reading of this level and limits that rise.
fn reading(level: u8) -> Result<Reading, Fail> {
    Ok(Reading::new(level, 5, 50, 60).ok_or("a reading")?)
}

const BANDS: [(u8, [bool; 4]); 8] = [
    (0, [true, false, false, false]),
    (5, [true, false, false, false]),
    (6, [false, false, false, false]),
    (49, [false, false, false, false]),
    (50, [false, true, false, false]),
    (59, [false, true, false, false]),
    (60, [false, true, true, false]),
    (255, [false, true, true, false]),
];

#[test]
fn bands(rt: HostRuntime) -> Result<(), Fail> {
    assert_eq!(rt; Reading::questions(), 3);
    for (level, answers) in BANDS {
        let reading = reading(level)?;
        assert_eq!(rt; Reading::decode([level, 5, 50, 60]), Some(reading));
        for (question, answer) in answers.iter().enumerate() {
            assert_eq!(rt; reading.answer(question), *answer, "level {level}");
        }
    }
    for (fault, pre_alarm, alarm) in [(5, 5, 60), (50, 5, 60), (5, 60, 60), (5, 60, 50)] {
        assert_eq!(rt; Reading::new(9, fault, pre_alarm, alarm), None);
        assert_eq!(rt; Reading::decode([9, fault, pre_alarm, alarm]), None);
    }
    Ok(())
}

// The least question that the two labels answer differently, whichever is asked.
fn tells<L: Label>(rt: &impl Abort, one: &L, other: &L, question: Option<usize>) {
    assert_eq!(rt; one.telling(other), question);
    assert_eq!(rt; other.telling(one), question);
}

// Of several questions that tell two labels apart, the least is told.
#[test]
fn least(rt: HostRuntime) -> Result<(), Fail> {
    for (one, other, question) in [
        (0x90, 0, Some(4)),
        (0x80000008, 0, Some(3)),
        (0x8000000F, 0x00000007, Some(3)),
        (0x90, 0x90, None),
    ] {
        tells(&rt, &SignalWord(one), &SignalWord(other), question);
    }
    for (one, other, question) in [
        (5, 60, Some(0)),
        (5, 50, Some(0)),
        (5, 6, Some(0)),
        (6, 60, Some(1)),
        (49, 50, Some(1)),
        (59, 60, Some(2)),
        (0, 5, None),
        (6, 49, None),
        (50, 59, None),
        (60, 255, None),
    ] {
        tells(&rt, &reading(one)?, &reading(other)?, question);
    }
    Ok(())
}

#[test]
fn kinds(rt: HostRuntime) -> Result<(), Fail> {
    for (number, kind) in [(1, Kind::SignalWords), (2, Kind::Readings)] {
        assert_eq!(rt; u8::from(kind), number);
        assert_eq!(rt; Kind::try_from(number), Ok(kind));
        assert_eq!(rt; Kind::of_image(&[number]), kind);
    }
    for number in [0, 3, 255] {
        assert_eq!(rt; Kind::try_from(number), Err(UnknownKind(number)));
        assert_eq!(rt; Kind::of_image(&[number]), Kind::SignalWords);
    }
    let names = format!(in rt.alloc(); "{}, {}", Kind::SignalWords, Kind::Readings)?;
    assert_eq!(rt; names.as_str(), "signal words, readings");
    Ok(())
}
