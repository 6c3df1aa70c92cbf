ghost use Rattle.std.specs.Prelude.{◌≡◌};
ghost use Rattle.reader.specs.Phrases.{applied_by};
ghost use Rattle.reader.specs.Tokens.{numeral_split, operator_split, single, token_of, token_split};
ghost use Rattle.std.specs.Option.{option_map};

use kripke::operator::Operator;
use kripke::quantifier::Quantifier;

/// The operators of one argument: with all operators here, a head of one argument could name one of two.
#[derive(Clone, Copy, PartialEq, Eq)]
pub enum Unary {
    /// `!`
    Not,
    /// `EX`
    EX,
    /// `AX`
    AX,
    /// `EF`
    EF,
    /// `AF`
    AF,
    /// `EG`
    EG,
    /// `AG`
    AG,
}

/// The signs that join and close: each is one byte.
#[derive(Clone, Copy, PartialEq, Eq)]
pub enum Sign {
    /// `&`
    And,
    /// `|`
    Or,
    /// `(`
    Open,
    /// `)`
    Close,
    /// `[`
    Left,
    /// `]`
    Right,
    /// `U`
    Until,
}

/// What a part of a text is, as a token (docs/FORMATS.md, "The text of a formula").
#[derive(Clone, Copy, PartialEq, Eq)]
pub enum Token {
    /// `T`
    Truth,
    /// `q` and one or two digits: the question of that number, 0 to 99.
    Question(u8),
    /// An operator of one argument: `!`, or `E` or `A` directly before `X`, `F` or `G`.
    Unary(Unary),
    /// `E` or `A`, where no `X`, `F` or `G` stands directly after it.
    Alone(Quantifier),
    /// One of the signs `&` `|` `(` `)` `[` `]` `U`.
    Sign(Sign),
    /// Any other byte.
    Other,
    /// The text's end, which has no bytes.
    End,
}

impl From<Unary> for Operator {
    ghost from_gives = { λ unary operator. operator ≡ applied_by unary };

    fn from(unary: Unary) -> Operator {
        match unary {
            Unary::Not => Operator::Not,
            Unary::EX => Operator::EX,
            Unary::AX => Operator::AX,
            Unary::EF => Operator::EF,
            Unary::AF => Operator::AF,
            Unary::EG => Operator::EG,
            Unary::AG => Operator::AG,
        }
    }
}

impl Token {
    // What a part of a text is, as a token.
    pub(crate) fn of(part: &[u8]) -> Token
        ensures { result ≡ token_of part.now }
    {
        split_token(part).0
    }
}

// The token of one byte.
fn byte_token(byte: u8) -> Token
    ensures { result ≡ single byte }
{
    match char::from(byte) {
        'T' => Token::Truth,
        '!' => Token::Unary(Unary::Not),
        '&' => Token::Sign(Sign::And),
        '|' => Token::Sign(Sign::Or),
        '(' => Token::Sign(Sign::Open),
        ')' => Token::Sign(Sign::Close),
        '[' => Token::Sign(Sign::Left),
        ']' => Token::Sign(Sign::Right),
        'U' => Token::Sign(Sign::Until),
        'E' => Token::Alone(Quantifier::Exists),
        'A' => Token::Alone(Quantifier::ForAll),
        _ => Token::Other,
    }
}

// The operator of two signs that the text begins with, and the rest of the text.
fn split_operator(text: &[u8]) -> Option<(Unary, &[u8])>
    ensures { option_map (λ split. (split.0, split.1.now)) result ≡ operator_split text.now }
{
    match text {
        [b'E', b'X', rest @ ..] => Some((Unary::EX, rest)),
        [b'A', b'X', rest @ ..] => Some((Unary::AX, rest)),
        [b'E', b'F', rest @ ..] => Some((Unary::EF, rest)),
        [b'A', b'F', rest @ ..] => Some((Unary::AF, rest)),
        [b'E', b'G', rest @ ..] => Some((Unary::EG, rest)),
        [b'A', b'G', rest @ ..] => Some((Unary::AG, rest)),
        _ => None,
    }
}

// The number of one or two digits that the text begins with, and the rest of the text.
fn split_number(text: &[u8]) -> Option<(u8, &[u8])>
    ensures { option_map (λ split. (split.0, split.1.now)) result ≡ numeral_split text.now }
{
    match text {
        [tens @ b'1'..=b'9', ones @ b'0'..=b'9', rest @ ..] => {
            Some(((tens - b'0') * 10 + (ones - b'0'), rest))
        }
        [ones @ b'0'..=b'9', rest @ ..] => Some((ones - b'0', rest)),
        _ => None,
    }
}

// The token that the text begins with, and the rest of the text.
pub(crate) fn split_token(text: &[u8]) -> (Token, &[u8])
    ensures { (result.0, result.1.now) ≡ token_split text.now }
{
    match text {
        [] => (Token::End, text),
        [b'q', after @ ..] => match split_number(after) {
            Some((number, rest)) => (Token::Question(number), rest),
            None => (Token::Other, after),
        },
        [byte, after @ ..] => match split_operator(text) {
            Some((operator, rest)) => (Token::Unary(operator), rest),
            None => (byte_token(*byte), after),
        },
    }
}
