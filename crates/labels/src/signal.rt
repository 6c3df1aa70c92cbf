ghost use Rattle.labels.specs.Kinds.{bits, word, words};
ghost use Rattle.std.specs.Prelude.{◌≡◌};
ghost use Rattle.labels.specs.Words.{length-bits};
ghost use Rattle.std.proofs.Common.{rules};

use crate::coded::Coded;
use crate::kind::Kind;
use kripke::label::Label;

/// What shows at a panel: 32 signals in a word. Question i, 0 to 31, is answered yes exactly when the bit of value 2^i is 1
/// (docs/FORMATS.md, "Labels").
#[derive(Clone, Copy, PartialEq, Eq, Debug)]
pub struct SignalWord(pub u32);

// A signal is a question.
const SIGNALS: usize = 32;

impl Label for SignalWord {
    ghost count = { 32 };

    ghost answers = { λ w. bits w.0 };

    ghost some = { Prim.search rules };

    ghost few = { Prim.search rules };

    ghost answered = { λ w. length-bits w.0 };

    fn questions() -> usize {
        SIGNALS
    }

    #[tactic(auto, using(crate::specs::Words::bits_at, crate::specs::Words::bits_past, crate::specs::Words::masked))]
    fn answer(&self, i: usize) -> bool {
        i < SIGNALS && (self.0 >> i) & 1 == 1
    }
}

impl Coded for SignalWord {
    ghost coding = { words };

    ghost codes = { λ bytes w. w.0 ≡ word bytes };

    fn kind() -> Kind {
        Kind::SignalWords
    }

    fn decode(bytes: [u8; 4]) -> Option<SignalWord> {
        Some(SignalWord(u32::from_le_bytes(bytes)))
    }

    fn fresh() -> SignalWord {
        SignalWord(0)
    }
}
