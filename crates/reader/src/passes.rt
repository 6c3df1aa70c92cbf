ghost use Rattle.std.specs.Prelude.{◌≡◌, ℕ, length, MatchResult};
ghost use Rattle.kripke.specs.Ctl.{Formula};
ghost use Rattle.kripke.specs.Refusals.{JudgedBy};
ghost use Rattle.kripke.specs.declared.refusal.Layer.TheVariants.{Text};
ghost use Rattle.reader.specs.Breaches.{TextBreach, Complete, Limited, Readable, Reads, Refuses, Sooner};

use crate::TEXT_BYTES;
use crate::reader::read_whole;
use kripke::label::MOST_QUESTIONS;
use kripke::node::{MOST_NODES, Node};
use kripke::refusal::{Cause, Layer, Refusal};

// The limits of the text and of the stated count of questions.
fn check_limits(text: &[u8], questions: usize) -> Result<(), Refusal>
    ensures { MatchResult result (λ _. Limited text.now questions) (λ e. (places : ℕ) → Refuses text.now questions places e) }
{
    if text.len() > TEXT_BYTES || questions < 1 || questions > MOST_QUESTIONS {
        return Err(Layer::Text.refusal(Cause::TextLimits, 0));
    }
    Ok(())
}

// The text is a formula's, and its nodes have room.
fn check_nodes(text: &[u8], questions: usize, room: usize) -> Result<(), Refusal>
    requires { Limited text.now questions }
    ensures { MatchResult result (λ _. (f : Formula) × Readable text.now questions room f) (λ e. Refuses text.now questions room e) }
{
    let count = read_whole(text, questions, &mut [])?;
    if count > room || count > MOST_NODES {
        return Err(Layer::Text.refusal(Cause::ManyNodes, count));
    }
    Ok(())
}

// The first pass, which writes nothing: all that can be refused. It has the number of places only, so it cannot hold them as a reader does.
pub(crate) fn check_text(text: &[u8], questions: usize, room: usize) -> Result<(), Refusal>
    ensures { MatchResult result (λ _. (f : Formula) × Readable text.now questions room f) (λ e. Refuses text.now questions room e) }
{
    check_limits(text, questions)?;
    check_nodes(text, questions, room)
}

// The second pass, which writes the nodes.
pub(crate) fn write_nodes(
    text: &[u8],
    questions: usize,
    places: &mut [Node],
) -> Result<usize, Refusal>
    requires { (f : Formula) × Readable text.now questions (length places.old) f }
    ensures judged { JudgedBy Sooner result record {
      breaches = TextBreach text.now questions (length places.old);
      layer = Text;
      accepted = Reads text.now questions places.old places.new;
      refused = places.new ≡ places.old;
    } }
    ensures complete { Complete text.now questions (length places.old) result }
{
    read_whole(text, questions, places)
}
