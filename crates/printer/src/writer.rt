ghost use Rattle.std.specs.Prelude.{◌≡◌, ℕ, ◌+◌, ◌<◌, ◌≤◌, List, [], length, string_bytes};
ghost use Rattle.kripke.specs.Nodes.{WellFormed, formula};
ghost use Rattle.printer.specs.Spelling.{spell};
ghost use Rattle.printer.specs.Writing.{Appends, Spells};
ghost use Rattle.printer.specs.declared.writer.Stop.TheVariants.{Memory};
ghost use Rattle.reader.specs.Grammar.{marks};
ghost use Rattle.reader.specs.declared.token.Token.TheVariants.{Question};

use crate::signs::Signs;
use kripke::node::Node;
use kripke::operator::Operator;
use reader::TEXT_BYTES;
use std::alloc::{AllocError, Global};
use std::marker::Model;

// Why a text is not written to its end: it passes a limit, or there is no memory.
pub(crate) enum Stop {
    Limit,
    Memory(AllocError),
}

impl From<AllocError> for Stop {
    ghost from_gives = { λ error stop. stop ≡ Memory error };

    fn from(error: AllocError) -> Stop {
        Stop::Memory(error)
    }
}

// Writes a text from its first byte on, and no more bytes than the reader of formulas takes. A clause sees the bytes so far.
// No `Display`: its error would not say whether a limit or want of memory stopped it.
#[derive(Drop)]
pub(crate) struct Writer {
    text: String,
}

impl Model for Writer {
    ghost Value = { List ℕ };

    ghost view = { λ w. string_bytes w.text };

    ghost invariant = { λ w. length (string_bytes w.text) ≤ 4096 };
}

impl Writer {
    pub(crate) fn new(heap: Global) -> Writer
        ensures { result ≡ [] }
    {
        Writer {
            text: String::new(heap),
        }
    }

    pub(crate) fn into_text(self) -> String
        ensures { string_bytes result ≡ self }
    {
        self.text
    }

    // Appends a text, if it keeps the limit.
    fn put(&mut self, text: &str) -> Result<(), Stop>
        ensures { Appends self.old text.now self.new result }
    {
        if text.len() > TEXT_BYTES - self.text.len() {
            return Err(Stop::Limit);
        }
        self.text.push_str(text)?;
        Ok(())
    }

    // Appends the name of a question.
    fn put_question(&mut self, question: u16) -> Result<(), Stop>
        ensures { Appends self.old (spell (Question question)) self.new result }
    {
        let heap = *self.text.allocator();
        let name = format!(in heap; "q{question}")?;
        self.put(name.as_str())
    }

    // Appends the formula of node i, which may have so many levels.
    pub(crate) fn put_formula(&mut self, nodes: &[Node], i: usize, levels: u8) -> Result<(), Stop>
        requires ordered { (q : ℕ) × WellFormed q nodes.now }
        requires node { i < length nodes.now }
        requires deep { levels ≤ 64 }
        ensures { (q l : ℕ) → WellFormed q nodes.now → l + levels ≡ 65 → Spells q self.old (marks l (formula nodes.now i)) self.new result }
    {
        if levels == 0 {
            return Err(Stop::Limit);
        }
        let node = nodes[i];
        let Ok(operator) = Operator::try_from(node.code) else {
            unreachable!()
        };
        match Signs::from(operator) {
            Signs::Truth => self.put("T"),
            Signs::Question => self.put_question(node.a),
            Signs::Before(sign) => {
                self.put(sign)?;
                self.put_formula(nodes, node.a as usize, levels - 1)
            }
            Signs::Around(before, between, after) => {
                self.put(before)?;
                self.put_formula(nodes, node.a as usize, levels - 1)?;
                self.put(between)?;
                self.put_formula(nodes, node.b as usize, levels - 1)?;
                self.put(after)
            }
        }
    }
}
