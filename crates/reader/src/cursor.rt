ghost use Rattle.std.specs.Prelude.{◌≡◌, ℕ, ◌+◌, ◌-◌, ◌≤◌, length, IfOk, MatchResult};
ghost use Rattle.reader.specs.Tokens.{unspaced};

use crate::head::{Head, Opening};
use crate::token::{Sign, Token, split_token};
use kripke::operator::Operator;
use kripke::quantifier::Quantifier;
use kripke::refusal::{Cause, Layer, Refusal};

// A text, and how far it has been read.
#[derive(Drop)]
pub(crate) struct Cursor<'a> {
    text: &'a [u8],
    at: usize,
    ghost within: { at ≤ length text.now },
}

// The text after the spaces that it begins with.
fn after_spaces(mut text: &[u8]) -> &[u8]
    ensures { result.now ≡ unspaced text.entry.now }
{
    while let [b' ', rest @ ..] = text {
        text = rest;
    }
    text
}

impl<'a> Cursor<'a> {
    ghost use Rattle.reader.specs.Tokens.{Cut, MadeOf, first, kinds, tokens};
    ghost use Rattle.reader.specs.Phrases.{Begins, Exact, Linked, Middle, Opened, Owes, Refused, Signed, closing, joined_by};
    ghost use Rattle.reader.specs.Reading.{Passed, ahead, left};
    ghost use Rattle.reader.specs.declared.head.Opening.TheVariants.{Pair};
    ghost use Rattle.reader.specs.declared.token.Token.TheVariants.{End};
    ghost use Rattle.kripke.specs.declared.refusal.Layer.TheVariants.{Text};

    // The whole text: it is made of its tokens' parts and the spaces before them, and has no more tokens than bytes, and its end.
    pub(crate) fn new(text: &'a [u8]) -> Cursor<'a>
        ensures whole { ahead result ≡ tokens 0 0 text.now }
        ensures parts { MadeOf text.now (kinds (ahead result)) }
        ensures few { length (kinds (ahead result)) ≤ length text.now + 1 }
    {
        Cursor { text, at: 0 }
    }

    // The next token: the part of the text that it is, which has no bytes at the end. The spaces before it are passed over.
    // By `cut`, from one token to the next, the parts and the spaces between them make up the text.
    fn token(&mut self) -> &'a [u8]
        ensures cut { Cut (left self.old) result.now (left self.new) }
        ensures passed { Passed (ahead self.old) result.now self.new.at (ahead self.new) }
    {
        let text = after_spaces(&self.text[self.at..]);
        let (_, rest) = split_token(text);
        self.at = self.text.len() - rest.len();
        &text[..text.len() - rest.len()]
    }

    // The refusal of the token that was read last, at the place where its part begins.
    fn refusal(&self, cause: Cause, part: &[u8]) -> Refusal
        requires { length part.now ≤ self.now.at }
        ensures { result ≡ record { cause = cause; layer = Text; place = self.now.at - length part.now } }
    {
        Layer::Text.refusal(cause, self.at - part.len())
    }

    // The given sign.
    fn expect(&mut self, sign: Sign) -> Result<(), Refusal>
        ensures { (c : ℕ) → Owes (Signed sign) (λ _ _. Unit {0}) c (ahead self.old) (ahead self.new) result }
    {
        let part = self.token();
        if Token::of(part) == Token::Sign(sign) {
            Ok(())
        } else {
            Err(self.refusal(Cause::Unexpected, part))
        }
    }

    // What stands before the first of two arguments: nothing after (, and [ after E or A.
    pub(crate) fn open(&mut self, opening: Opening) -> Result<(), Refusal>
        ensures { (c : ℕ) → Owes (Opened opening) (λ _ _. Unit {0}) c (ahead self.old) (ahead self.new) result }
    {
        match opening {
            Opening::Pair => Ok(()),
            Opening::Until(_) => self.expect(Sign::Left),
        }
    }

    // & or |, tested one by one: with a match, the proof lacked at the last arm that neither sign stood there.
    fn link(&mut self) -> Result<Operator, Refusal>
        ensures { (c : ℕ) → Owes Linked (λ k operator. operator ≡ joined_by Pair k) c (ahead self.old) (ahead self.new) result }
    {
        let part = self.token();
        let token = Token::of(part);
        if token == Token::Sign(Sign::And) {
            Ok(Operator::And)
        } else if token == Token::Sign(Sign::Or) {
            Ok(Operator::Or)
        } else {
            Err(self.refusal(Cause::Unexpected, part))
        }
    }

    // What stands between two arguments: the rest of their operator.
    pub(crate) fn middle(&mut self, opening: Opening) -> Result<Operator, Refusal>
        ensures { (c : ℕ) → Owes (Middle opening) (λ m operator. operator ≡ joined_by opening m) c (ahead self.old) (ahead self.new) result }
    {
        match opening {
            Opening::Pair => self.link(),
            Opening::Until(quantifier) => {
                self.expect(Sign::Until)?;
                match quantifier {
                    Quantifier::Exists => Ok(Operator::EU),
                    Quantifier::ForAll => Ok(Operator::AU),
                }
            }
        }
    }

    // What stands after the second of two arguments.
    pub(crate) fn close(&mut self, opening: Opening) -> Result<(), Refusal>
        ensures { (c : ℕ) → Owes (Signed (closing opening)) (λ _ _. Unit {0}) c (ahead self.old) (ahead self.new) result }
    {
        match opening {
            Opening::Pair => self.expect(Sign::Close),
            Opening::Until(_) => self.expect(Sign::Right),
        }
    }

    // The end of the text.
    pub(crate) fn end(&mut self) -> Result<(), Refusal>
        ensures { MatchResult result (λ _. first (ahead self.old) ≡ End) (λ e. (c : ℕ) → Refused (Exact End) c (ahead self.old) e) }
    {
        let part = self.token();
        match Token::of(part) {
            Token::End => Ok(()),
            _ => Err(self.refusal(Cause::Unexpected, part)),
        }
    }

    // The first token of a formula that may have so many levels.
    pub(crate) fn head(&mut self, questions: usize, levels: u8) -> Result<Head, Refusal>
        ensures some { IfOk result (λ _. 1 ≤ levels) }
        ensures begins { (l : ℕ) → l + levels ≡ 65 → Begins questions l (ahead self.old) (ahead self.new) result }
    {
        let part = self.token();
        let Some(head) = Head::begun_by(Token::of(part)) else {
            return Err(self.refusal(Cause::Unexpected, part));
        };
        if head.is_beyond(questions) {
            return Err(self.refusal(Cause::QuestionNumber, part));
        }
        if levels == 0 {
            return Err(self.refusal(Cause::TooDeep, part));
        }
        Ok(head)
    }
}
