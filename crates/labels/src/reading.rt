ghost use Rattle.std.specs.Prelude.{◌≡◌, ◌<◌, MatchOption};
ghost use Rattle.labels.specs.Bands.{shows};
ghost use Rattle.labels.specs.Kinds.{bands, readings, stored};
ghost use Rattle.std.proofs.Common.{rules};

use crate::coded::Coded;
use crate::kind::Kind;
use kripke::label::Label;

/// What a detector shows: its level and its limits, each 0 to 255. The limits rise: fault below pre-alarm below alarm.
///
/// Three questions: 0, fault, is the level at most the fault limit; 1, pre-alarm, is it at least the pre-alarm limit;
/// 2, alarm, is it at least the alarm limit (docs/FORMATS.md, "Labels").
#[derive(Clone, Copy, PartialEq, Eq, Debug)]
pub struct Reading {
    level: u8,
    fault: u8,
    pre_alarm: u8,
    alarm: u8,
    ghost fault_lowest: { fault < pre_alarm },
    ghost alarm_highest: { pre_alarm < alarm },
}

// Fault, pre-alarm, alarm.
const QUESTIONS: usize = 3;

// Where a level lies among the limits, from the lowest band up.
#[derive(Clone, Copy, PartialEq, Eq, PartialOrd, Ord)]
enum Band {
    Fault,
    Normal,
    PreAlarm,
    Alarm,
}

impl Reading {
    /// The reading of a level and its limits; none exactly where the limits do not rise. Every level is taken
    /// (docs/FORMATS.md, "Labels").
    pub fn new(level: u8, fault: u8, pre_alarm: u8, alarm: u8) -> Option<Reading>
        ensures { MatchOption result (¬ ((fault < pre_alarm) × (pre_alarm < alarm))) (λ x. (x.level ≡ level) × (x.fault ≡ fault) × (x.pre_alarm ≡ pre_alarm) × (x.alarm ≡ alarm)) }
    {
        if fault < pre_alarm && pre_alarm < alarm {
            Some(Reading {
                level,
                fault,
                pre_alarm,
                alarm,
            })
        } else {
            None
        }
    }

    // The limits rise, so the level lies in exactly one band.
    fn band(&self) -> Band
        ensures { shows result ≡ bands self.now.level self.now.fault self.now.pre_alarm self.now.alarm }
    {
        if self.level <= self.fault {
            Band::Fault
        } else if self.level < self.pre_alarm {
            Band::Normal
        } else if self.level < self.alarm {
            Band::PreAlarm
        } else {
            Band::Alarm
        }
    }
}

impl Label for Reading {
    ghost count = { 3 };

    ghost answers = { λ x. bands x.level x.fault x.pre_alarm x.alarm };

    ghost some = { Prim.search rules };

    ghost few = { Prim.search rules };

    ghost answered = { Prim.search rules };

    fn questions() -> usize {
        QUESTIONS
    }

    fn answer(&self, i: usize) -> bool {
        match (i, self.band()) {
            (0, Band::Fault) => true,
            (1, Band::PreAlarm | Band::Alarm) => true,
            (2, Band::Alarm) => true,
            _ => false,
        }
    }

    fn telling(&self, other: &Reading) -> Option<usize> {
        let (band, other) = (self.band(), other.band());
        if band == other {
            return None;
        }
        match band.min(other) {
            Band::Fault => Some(0),
            Band::Normal => Some(1),
            _ => Some(2),
        }
    }
}

impl Coded for Reading {
    ghost coding = { readings };

    ghost codes = { λ bytes x. stored x.level x.fault x.pre_alarm x.alarm ≡ bytes };

    fn kind() -> Kind {
        Kind::Readings
    }

    fn decode(bytes: [u8; 4]) -> Option<Reading> {
        Reading::new(bytes[0], bytes[1], bytes[2], bytes[3])
    }

    fn fresh() -> Reading {
        Reading {
            level: 0,
            fault: 0,
            pre_alarm: 1,
            alarm: 2,
        }
    }
}
