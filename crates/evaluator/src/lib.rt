// Decides CTL formulas on any model: at which states the formula of each node of a table holds.

#![tactic(auto)]

ghost use Rattle.evaluator.specs.Breaches.{EvaluationBreach};
ghost use Rattle.evaluator.specs.Evaluated.{Evaluated};
ghost use Rattle.kripke.specs.Refusals.{Judged};
ghost use Rattle.kripke.specs.declared.refusal.Layer.TheVariants as layer;
ghost use Rattle.std.specs.Prelude.{◌≡◌, length};

use crate::row::{count, marked, read};
use crate::table::{check, fill};
use kripke::label::Label;
use kripke::model::Model;
use kripke::node::Node;
use kripke::refusal::Refusal;

mod operators;
mod row;
mod table;

/// What is answered of the formula of the root, which is the last node.
#[derive(Clone, Copy, PartialEq, Eq, Debug)]
pub struct Evaluation {
    /// Whether it holds at the initial state.
    pub holds: bool,
    /// At how many states it holds, 0 to 256.
    pub count: u32,
}

/// Decides at which states of a model the formulas of a node table hold, by the path meaning of CTL (docs/LOGIC.md, "Formulas").
///
/// Writes, for node i, the states at which its formula holds to the words 4i to 4i + 3, state s as bit s mod 64 of word s div 64.
/// The other bits of the rows become 0, and the words past the rows stay as they were (docs/FORMATS.md, "The rows of the word table"). It allocates nothing.
///
/// Refuses, in layer 5, with all words as they were (docs/REFUSALS.md, "Causes"):
/// - 14 where the table has no node, or more than 2,045, at place 0;
/// - 15 where a node is not in order, at its number;
/// - 16 where there are fewer than four words a node, at the number of words.
pub fn evaluate<M: Model>(
    model: &M,
    nodes: &[Node],
    words: &mut [u64],
) -> Result<Evaluation, Refusal>
    ensures { Judged result record {
      breaches = EvaluationBreach M.Label.count nodes.now (length words.old);
      layer = layer.Evaluation;
      accepted = λ e. Evaluated (M.meaning model.now) nodes.now words.old words.new e;
      refused = words.new ≡ words.old;
    } }
{
    check(M::Label::questions(), nodes, words.len())?;
    fill(model, nodes, words);
    let root = read(words, nodes.len() - 1);
    Ok(Evaluation {
        holds: marked(&root, model.initial()),
        count: count(&root),
    })
}
