ghost use Rattle.kripke.specs.Refusals.{layer_of, number_of, told_as};
ghost use Rattle.std.specs.Prelude.{◌≡◌, Some};
ghost use Rattle.kripke.specs.declared.refusal.Error.TheVariants.{Memory, Refused};

use std::alloc::{AllocError, AllocFailed};
use std::fmt;

/// Why a call is refused, by its number, and what the place of the refusal is then. docs/REFUSALS.md has each case in full ("Causes").
#[derive(Clone, Copy, PartialEq, Eq, Debug)]
pub enum Cause {
    /// 1: an image has fewer than 8 bytes. Place: its length.
    ShortImage = 1,
    /// 2: a header field of an image is outside its limits. Place: its offset.
    HeaderField,
    /// 3: an image is not as long as its header asks for. Place: the length that it asks for.
    ImageLength,
    /// 4: a state record is not in order. Place: its offset.
    StateRecord,
    /// 5: a link record is not in order. Place: its offset.
    LinkRecord,
    /// 6: the chain of a state has more than 16 links. Place: the offset of the state record.
    LongChain,
    /// 7: the bits, the number of rules or the initial state of a rule list are outside their limits. Place: 0.
    RuleLimits,
    /// 8: a rule is not lawful. Place: its number.
    UnlawfulRule,
    /// 9: a text is too long, or the number of questions is not 1 to 32. Place: 0.
    TextLimits,
    /// 10: a text goes on as no formula does. Place: the offset of the token.
    Unexpected,
    /// 11: a text asks a question past the last one. Place: the offset of the token.
    QuestionNumber,
    /// 12: a text nests deeper than 64 levels. Place: the offset of the token.
    TooDeep,
    /// 13: a formula has more nodes than the given places, or than 2,045. Place: its number of nodes.
    ManyNodes,
    /// 14: a node table has no node, or more than 2,045. Place: 0.
    NodeCount,
    /// 15: a node is not in order. Place: its number.
    BadNode,
    /// 16: fewer than four words a node are given. Place: their number.
    FewWords,
    /// 17: a round is asked of a closed comparison. Place: the accepted rounds.
    ClosedComparison,
    /// 18: the class of a number is read that is no state's. Place: that number.
    StateNumber,
    /// 19: a verdict is read of an open comparison. Place: the accepted rounds.
    OpenComparison,
    /// 20: a formula is read of a comparison that is not closed as different. Place: the accepted rounds.
    NotDifferent,
    /// 21: too few places are given for a formula. Place: their number.
    FewPlaces,
    /// 22: a report has too many nodes, or too few bytes are given for it. Place: 0.
    ReportSize,
}

/// Who refuses, by its number (docs/REFUSALS.md, "Layers").
#[derive(Clone, Copy, PartialEq, Eq, Debug)]
pub enum Layer {
    /// 1: an image that is loaded as the first or only one.
    FirstImage = 1,
    /// 2: an image that is loaded as the second one of a pair.
    SecondImage,
    /// 3: a rule list.
    Rules,
    /// 4: the text of a formula.
    Text,
    /// 5: the evaluation of a node table.
    Evaluation,
    /// 6: a comparison.
    Comparison,
    /// 7: a report.
    Report,
}

/// Why a call was refused, by whom, and where in its input. A refused call has changed nothing.
///
/// Where an input breaks several rules, the lowest number is told, and of one number the lowest place; a text of a formula has an order of its own (docs/REFUSALS.md, "Causes").
/// It is printed as the line `refused N L P`, without its end: the numbers of the cause and of the layer, and the place (docs/FORMATS.md, "The line of a refusal").
#[derive(Clone, Copy, PartialEq, Eq, Debug)]
pub struct Refusal {
    /// Why.
    pub cause: Cause,
    /// Who refuses.
    pub layer: Layer,
    /// Where: an offset, a number or a count, as the cause says.
    pub place: usize,
}

impl Layer {
    /// The refusal of this layer for a cause, at a place. That the cause is one of this layer's is not looked at (docs/REFUSALS.md, "Causes").
    pub fn refusal(self, cause: Cause, place: usize) -> Refusal
        ensures { result ≡ record { cause = cause; layer = self; place = place } }
    {
        Refusal {
            cause,
            layer: self,
            place,
        }
    }
}

// A refusal has two numbers, so each is asked for by its name.
impl Refusal {
    /// The number of the cause, 1 to 22 (docs/REFUSALS.md, "Causes").
    pub fn number(&self) -> u8
        ensures { result ≡ number_of self.now.cause }
    {
        self.cause as u8
    }

    /// The number of the layer, 1 to 7 (docs/REFUSALS.md, "Layers").
    pub fn layer_number(&self) -> u8
        ensures { result ≡ layer_of self.now.layer }
    {
        self.layer as u8
    }
}

/// The line of the refusal, without its end (docs/FORMATS.md, "The line of a refusal").
impl fmt::Display for Refusal {
    ghost output = { λ e. Some (told_as e) };

    fn fmt<W: fmt::Write>(&self, f: &mut fmt::Formatter<W>) -> fmt::Result {
        let number = self.number();
        let layer = self.layer_number();
        let place = self.place;
        write!(f, "refused {number} {layer} {place}")
    }
}

/// How a call that allocates can fail. Either way it has changed nothing. docs/REFUSALS.md has the refusals ("Causes"), docs/DECISIONS.md the calls that allocate ("Memory").
#[derive(Clone, Copy, PartialEq, Eq, Debug)]
pub enum Error {
    /// The input breaks a rule.
    Refused(Refusal),
    /// Memory is wanting. Each call that can answer this says when it does; most allocate nothing.
    Memory,
}

/// A refusal is passed upward as it is.
impl From<Refusal> for Error {
    ghost from_gives = { λ e r. r ≡ Refused e };

    fn from(refusal: Refusal) -> Error {
        Error::Refused(refusal)
    }
}

/// Memory was wanting.
impl From<AllocError> for Error {
    ghost from_gives = { λ _ r. r ≡ Memory };

    fn from(_: AllocError) -> Error {
        Error::Memory
    }
}

/// Memory was wanting for a value, which is let go.
impl<T: Drop> From<AllocFailed<T>> for Error {
    ghost from_gives = { λ _ r. r ≡ Memory };

    fn from(_: AllocFailed<T>) -> Error {
        Error::Memory
    }
}
