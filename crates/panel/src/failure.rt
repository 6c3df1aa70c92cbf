use crate::usage::USAGE;
use crate::words::{Excess, cause_in_words, write_excess, write_refusal};
use kripke::refusal::Refusal;
use std::alloc::{AllocError, AllocFailed};
use std::{fmt, io};

// Why a command gives no answer. The texts are as they are shown.
#[derive(Drop)]
pub(crate) enum Failure {
    // The words are no command.
    Misused,
    // The word is not what stands there in a command.
    Word(String, &'static str),
    // What is wrong at the place of the refusal.
    Refused(Refusal, &'static str),
    // What is wrong with the state record at the place of the refusal.
    Record(Refusal, &'static str),
    // A number breaks a limit, and the refusal has no place.
    Excess(Refusal, Excess),
    // The text is refused as a condition, at the place after so many columns.
    Condition(String, usize, Refusal),
    // The file cannot be read.
    File(String, io::Error),
    Io(io::Error),
}

impl From<Refusal> for Failure {
    fn from(refusal: Refusal) -> Failure {
        Failure::Refused(refusal, cause_in_words(refusal.cause))
    }
}

impl From<AllocError> for Failure {
    fn from(error: AllocError) -> Failure {
        Failure::Io(io::Error::from(error))
    }
}

impl<T: Drop> From<AllocFailed<T>> for Failure {
    fn from(error: AllocFailed<T>) -> Failure {
        Failure::from(AllocError::from(error))
    }
}

// The number of a state record, and what is wrong with it.
fn write_record<W: fmt::Write>(
    f: &mut fmt::Formatter<W>,
    refusal: Refusal,
    fault: &str,
) -> fmt::Result {
    let number = refusal.place.saturating_sub(8) / 8;
    write_refusal(f, refusal, format_args!("state record {number} {fault}"))
}

// The text of a condition, a caret under the place where it is refused, and why.
fn write_condition<W: fmt::Write>(
    f: &mut fmt::Formatter<W>,
    text: &str,
    columns: usize,
    refusal: Refusal,
) -> fmt::Result {
    let width = columns.saturating_add(1);
    writeln!(f, "{text}\n{:>width$}", "^")?;
    write_refusal(f, refusal, cause_in_words(refusal.cause))
}

// The lines that tell the engineer.
impl fmt::Display for Failure {
    fn fmt<W: fmt::Write>(&self, f: &mut fmt::Formatter<W>) -> fmt::Result {
        match self {
            Failure::Misused => f.write_str(USAGE),
            Failure::Word(word, wanted) => writeln!(f, "{word} is no {wanted}"),
            Failure::Refused(refusal, reason) => write_refusal(f, *refusal, *reason),
            Failure::Record(refusal, fault) => write_record(f, *refusal, fault),
            Failure::Excess(refusal, excess) => write_excess(f, *refusal, *excess),
            Failure::Condition(text, columns, refusal) => write_condition(
                f, text, *columns, *refusal,
            ),
            Failure::File(name, error) => writeln!(f, "panel: {name}: {error}"),
            Failure::Io(error) => writeln!(f, "panel: {error}"),
        }
    }
}
