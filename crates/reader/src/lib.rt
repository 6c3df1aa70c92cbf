// The reader of formulas: the texts of the grammar, as node tables.

#![tactic(auto)]

ghost use Rattle.kripke.specs.Refusals.{JudgedBy};
ghost use Rattle.kripke.specs.declared.refusal.Layer.TheVariants.{Text};
ghost use Rattle.reader.specs.Breaches.{TextBreach, Complete, Reads, Sooner};
ghost use Rattle.std.specs.Prelude.{◌≡◌, length};

use kripke::node::Node;
use kripke::refusal::Refusal;

mod cursor;
mod head;
mod passes;
mod reader;
mod token;

/// The most bytes of a text that is read (docs/FORMATS.md, "The text of a formula"). A longer one is refused by 9 (docs/REFUSALS.md, "Causes").
pub const TEXT_BYTES: usize = 4096;

/// The most levels of a formula. The whole formula is at level 1, and an argument is one level deeper than its operator (docs/FORMATS.md, "The text of a formula").
/// A formula with more is refused by 12 where a subformula begins at level 65 (docs/REFUSALS.md, "Causes").
pub const LEVELS: u8 = 64;

/// Reads a text as a formula on so many questions, 1 to 32: writes the formula's nodes to the places from the first on, and answers their number.
///
/// docs/FORMATS.md has the grammar ("The text of a formula") and the order of the nodes ("The table that is read"). The other places stay as they were. Nothing is allocated.
/// The text is read twice, and the first time nothing is written: so a refusal changes nothing.
///
/// Refuses, in layer 4 (text), with all places as they were (docs/REFUSALS.md, "Causes"):
/// - 9 where the text has more than 4,096 bytes, or the questions are not 1 to 32, at place 0;
/// - 10 where a token, another byte or the text's end stands where no formula continues with it, at its offset;
/// - 11 where a question's number is not below the number of questions, at the question's offset;
/// - 12 where a subformula begins at level 65, at its first token's offset;
/// - 13 where the formula has more nodes than there are places, or than 2,045, at its number of nodes.
///
/// 9 is told before the others and 13 after them. Of 10 to 12 the least offset is told, and at one offset the lower number.
pub fn read_formula(text: &[u8], questions: usize, places: &mut [Node]) -> Result<usize, Refusal>
    ensures judged { JudgedBy Sooner result record {
      breaches = TextBreach text.now questions (length places.old);
      layer = Text;
      accepted = Reads text.now questions places.old places.new;
      refused = places.new ≡ places.old;
    } }
    ensures complete { Complete text.now questions (length places.old) result }
{
    passes::check_text(text, questions, places.len())?;
    passes::write_nodes(text, questions, places)
}
