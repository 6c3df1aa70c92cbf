ghost use Rattle.labels.specs.Kinds.{Names, kind_number, named, names};
ghost use Rattle.std.specs.Prelude.{◌≡◌, Some};

use std::fmt;

/// The kinds of labels that images hold. The number of a kind is the first byte of an image (docs/FORMATS.md, "Labels").
#[derive(Clone, Copy, PartialEq, Eq, Debug)]
pub enum Kind {
    /// Kind 1, 32 questions.
    SignalWords = 1,
    /// Kind 2, 3 questions.
    Readings,
}

/// A number that is no kind's: neither 1 nor 2.
#[derive(Clone, Copy, PartialEq, Eq, Debug)]
pub struct UnknownKind(pub u8);

impl Kind {
    /// The kind that an image names by its first byte. An image that names none is given to signal words, which refuse it:
    /// by 1 where it is shorter than a header, else by 2 at place 0 (docs/REFUSALS.md, "Causes").
    pub fn of_image(image: &[u8]) -> Kind
        ensures { result ≡ named image.now }
    {
        match image.first() {
            Some(number) => Kind::try_from(*number).unwrap_or(Kind::SignalWords),
            None => Kind::SignalWords,
        }
    }
}

/// The number of a kind, 1 or 2.
impl From<Kind> for u8 {
    ghost from_gives = { λ kind number. number ≡ kind_number kind };

    fn from(kind: Kind) -> u8 {
        kind as u8
    }
}

/// The kind that has a number; the error tells a number that none has.
impl TryFrom<u8> for Kind {
    type Error = UnknownKind;

    ghost try_from_gives = { Names };

    fn try_from(number: u8) -> Result<Kind, UnknownKind> {
        match number {
            1 => Ok(Kind::SignalWords),
            2 => Ok(Kind::Readings),
            _ => Err(UnknownKind(number)),
        }
    }
}

/// The name of the kind in lowercase letters, `signal words` or `readings`.
impl fmt::Display for Kind {
    ghost output = { λ kind. Some (names kind) };

    fn fmt<W: fmt::Write>(&self, f: &mut fmt::Formatter<W>) -> fmt::Result {
        f.write_str(match self {
            Kind::SignalWords => "signal words",
            Kind::Readings => "readings",
        })
    }
}
