ghost use Rattle.reader.specs.Grammar.{Asked};
ghost use Rattle.reader.specs.Phrases.{head_of, opening};
ghost use Rattle.reader.specs.declared.token.Token.TheVariants.{Question};
ghost use Rattle.std.specs.Prelude.{◌≡◌, ℕ, ◌≤◌, MatchBool, Some, None};

use crate::token::{Sign, Token, Unary};
use kripke::quantifier::Quantifier;

// How an operator of two arguments begins: with (, or with E or A.
#[derive(Clone, Copy)]
pub(crate) enum Opening {
    Pair,
    Until(Quantifier),
}

// What a formula is, by its first token.
#[derive(Clone, Copy)]
pub(crate) enum Head {
    Truth,
    Question(u8),
    Unary(Unary),
    Binary(Opening),
}

impl Head {
    // What the token begins.
    pub(crate) fn begun_by(token: Token) -> Option<Head>
        ensures { result ≡ head_of token }
    {
        match token {
            Token::Truth => Some(Head::Truth),
            Token::Question(j) => Some(Head::Question(j)),
            Token::Unary(operator) => Some(Head::Unary(operator)),
            Token::Alone(quantifier) => Some(Head::Binary(Opening::Until(quantifier))),
            Token::Sign(Sign::Open) => Some(Head::Binary(Opening::Pair)),
            _ => None,
        }
    }

    // Whether it is a question beyond the count.
    pub(crate) fn is_beyond(self, questions: usize) -> bool
        ensures { MatchBool result ((j : ℕ) × (opening self ≡ Question j) × (questions ≤ j)) (Asked questions (opening self)) }
    {
        matches!(self, Head::Question(j) if usize::from(j) >= questions)
    }
}
