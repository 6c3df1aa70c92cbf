ghost use Rattle.std.specs.Prelude.{◌≡◌, ℕ, ◌*◌, ◌<◌, ◌≤◌, length};
ghost use Rattle.evaluator.specs.Breaches.{EvaluationBreach};
ghost use Rattle.evaluator.specs.Rows.{at};
ghost use Rattle.evaluator.specs.Marks.{Applies, Filled, Ready, marks};
ghost use Rattle.kripke.specs.Nodes.{operator, operators};
ghost use Rattle.kripke.specs.Refusals.{Judged};
ghost use Rattle.kripke.specs.declared.refusal.Layer.TheVariants as layer;

use crate::operators::apply;
use crate::row::{Row, read};
use kripke::model::Model;
use kripke::node::{MOST_NODES, Node, first_disordered};
use kripke::refusal::{Cause, Layer, Refusal};

// Refuses a table that cannot be evaluated into so many words.
#[tactic(auto, using(crate::proofs::Breaches::first_count, crate::proofs::Breaches::first_node, crate::proofs::Breaches::first_words, crate::proofs::Breaches::clean))]
pub(crate) fn check(questions: usize, nodes: &[Node], words: usize) -> Result<(), Refusal>
    ensures { Judged result record {
      breaches = EvaluationBreach questions nodes.now words;
      layer = layer.Evaluation;
      accepted = λ _. Ready questions nodes.now words;
      refused = Unit {0};
    } }
{
    if nodes.is_empty() || nodes.len() > MOST_NODES {
        return Err(Layer::Evaluation.refusal(Cause::NodeCount, 0));
    }
    if let Some(i) = first_disordered(nodes, questions) {
        return Err(Layer::Evaluation.refusal(Cause::BadNode, i));
    }
    if words < 4 * nodes.len() {
        return Err(Layer::Evaluation.refusal(Cause::FewWords, words));
    }
    Ok(())
}

// The row of an operand, which is an earlier node. A number that names none gives no marks, and no option:
// a leaf's row does not depend on it, and every other operator would have to take the option apart.
fn operand(words: &[u64], i: usize, x: u16) -> Row
    requires { 4 * i ≤ length words.now }
    ensures { x < i → (s : ℕ) → s < 256 → marks result s ≡ at words.now x s }
{
    let x = usize::from(x);
    if x < i { read(words, x) } else { [0; 4] }
}

// Writes the row of a node to its four words.
fn write<M: Model>(model: &M, node: Node, a: &Row, b: &Row, words: &mut [u64])
    requires room { length words.old ≡ 4 }
    requires known { node.code < length operators }
    ensures { Applies (M.meaning model.now) (operator node) node.a node.b (marks a.now) (marks b.now) (marks words.new) }
{
    let Some(row) = words.as_mut_array() else {
        unreachable!();
    };
    apply(model, node, a, b, row);
}

// Writes the row of each node, in order.
pub(crate) fn fill<M: Model>(model: &M, nodes: &[Node], words: &mut [u64])
    requires { Ready M.Label.count nodes.now (length words.old) }
    ensures { Filled (M.meaning model.now) nodes.now (length nodes.now) words.old words.new }
{
    for (i, node) in nodes.iter().enumerate() {
        let a = operand(words, i, node.a);
        let b = operand(words, i, node.b);
        write(model, *node, &a, &b, &mut words[4 * i..4 * i + 4]);
    }
}
