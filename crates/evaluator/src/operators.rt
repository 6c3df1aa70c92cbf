ghost use Rattle.std.specs.Prelude.{◌≡◌, ℕ, ◌<◌, ◌&&◌, length, nat_lt};
ghost use Rattle.evaluator.specs.Marks.{Applies, Collects, Complements, Divides, Marked, Sweeps, Trim, Whole, marks, steps};
ghost use Rattle.kripke.specs.Ctl.{Always, Next, Until};
ghost use Rattle.kripke.specs.Nodes.{operator, operators};
ghost use Rattle.kripke.specs.Structure.{answer, or_first, size, successors};

use crate::row::{Order, Row, combine, first, lowest, mark, marked};
use kripke::label::Label;
use kripke::model::Model;
use kripke::node::Node;
use kripke::operator::Operator;
use kripke::quantifier::Quantifier;

// Every state.
fn every_state<M: Model>(model: &M) -> Row
    ensures { Whole (M.meaning model.now) (marks result) }
{
    first(model.states())
}

// The states that pass a test.
fn states_where<M: Model, F: Fn(usize) -> bool>(model: &M, test: F, row: &mut Row)
    requires { F.IsAlwaysCallable test }
    ensures { Collects (size (M.meaning model.now)) (F.post test) (marks row.new) }
{
    *row = [0; 4];
    for s in 0..model.states() {
        if test(s) {
            mark(row, s);
        }
    }
}

// The states that f lacks.
fn complement<M: Model>(model: &M, f: &Row, row: &mut Row)
    ensures { Complements (M.meaning model.now) (marks f.now) (marks row.new) }
{
    combine(&every_state(model), f, |x, y| x ^ y, row);
}

// The states whose label answers a question with yes.
fn ask<M: Model>(model: &M, question: usize, row: &mut Row)
    ensures { (s : ℕ) → s < 256 → marks row.new s ≡ (nat_lt s (size (M.meaning model.now)) && answer (M.meaning model.now) s question) }
{
    states_where(model, |s| model.label(s).answer(question), row);
}

// Whether successor number i of s is marked.
fn successor_marked<M: Model>(model: &M, s: usize, i: usize, row: &Row) -> bool
    ensures { result ≡ marks row.now (or_first (successors (M.meaning model.now) s) i 0) }
{
    marked(row, model.successor(s, i))
}

// Whether some successor of s is marked, or each. It runs for each state of each sweep.
#[inline(always)]
fn onward<M: Model>(model: &M, quantifier: Quantifier, s: usize, row: &Row) -> bool
    ensures { result ≡ steps quantifier (marks row.now) (successors (M.meaning model.now) s) }
{
    let mut numbers = 0..model.degree(s);
    let leads = |i| successor_marked(model, s, i, row);
    match quantifier {
        Quantifier::Exists => numbers.any(leads),
        Quantifier::ForAll => numbers.all(leads),
    }
}

// EX f, or AX f.
fn next<M: Model>(model: &M, quantifier: Quantifier, f: &Row, row: &mut Row)
    ensures { Divides (M.meaning model.now) quantifier (Next (Marked (marks f.now))) (marks row.new) }
{
    states_where(model, |s| onward(model, quantifier, s, f), row);
}

// Marks each unmarked state of f that steps to marked states, in an order. Tells whether it marked one.
// For speed it runs within `until`, as `onward` within it.
#[inline(always)]
fn sweep<M: Model>(model: &M, quantifier: Quantifier, f: &Row, order: Order, row: &mut Row) -> bool
    ensures { Sweeps (M.meaning model.now) quantifier (marks f.now) (marks row.old) (marks row.new) result }
{
    let mut changed = false;
    for i in 0..4usize {
        let q = order.word(i);
        // For speed, states to visit are taken bit by bit out of a word, which stays in a register: no other state takes time.
        // They are taken from its lowest bit on, in either order, as finding the highest would wait for the visit before.
        let mut left = order.arranged(f[q] & !row[q]);
        while left != 0 {
            let j = lowest(left);
            left &= !(1 << j);
            let s = 64 * q + order.bit(j);
            if onward(model, quantifier, s, row) {
                mark(row, s);
                changed = true;
            }
        }
    }
    changed
}

// E[f U g], or A[f U g]: sweeps from g on, down and up in turn, until one marks nothing.
// For speed it runs within `apply`, where the quantifier is known.
#[inline(always)]
fn until<M: Model>(model: &M, quantifier: Quantifier, f: &Row, g: &Row, row: &mut Row)
    ensures { Trim (M.meaning model.now) (marks f.now) → Trim (M.meaning model.now) (marks g.now) → Divides (M.meaning model.now) quantifier (Until (Marked (marks f.now)) (Marked (marks g.now))) (marks row.new) }
{
    *row = *g;
    let mut order = Order::Down;
    while sweep(model, quantifier, f, order, row) {
        order = order.turned();
    }
}

// EG f, or AG f: a state has it where not each path, or no path, comes to a state that lacks f.
fn always<M: Model>(model: &M, quantifier: Quantifier, f: &Row, row: &mut Row)
    ensures { Trim (M.meaning model.now) (marks f.now) → Divides (M.meaning model.now) quantifier (Always (Marked (marks f.now))) (marks row.new) }
{
    let every = every_state(model);
    let mut lacking = [0; 4];
    complement(model, f, &mut lacking);
    let mut leaving = [0; 4];
    until(model, quantifier.dual(), &every, &lacking, &mut leaving);
    complement(model, &leaving, row);
}

// The row of a node, from its operands' rows.
pub(crate) fn apply<M: Model>(model: &M, node: Node, a: &Row, b: &Row, row: &mut Row)
    requires { node.code < length operators }
    ensures { Applies (M.meaning model.now) (operator node) node.a node.b (marks a.now) (marks b.now) (marks row.new) }
{
    let every = every_state(model);
    match Operator::try_from(node.code).unwrap() {
        Operator::Truth => *row = every,
        Operator::Question => ask(model, usize::from(node.a), row),
        Operator::Not => complement(model, a, row),
        Operator::And => combine(a, b, |x, y| x & y, row),
        Operator::Or => combine(a, b, |x, y| x | y, row),
        Operator::EX => next(model, Quantifier::Exists, a, row),
        Operator::AX => next(model, Quantifier::ForAll, a, row),
        Operator::EF => until(model, Quantifier::Exists, &every, a, row),
        Operator::AF => until(model, Quantifier::ForAll, &every, a, row),
        Operator::EG => always(model, Quantifier::Exists, a, row),
        Operator::AG => always(model, Quantifier::ForAll, a, row),
        Operator::EU => until(model, Quantifier::Exists, a, b, row),
        Operator::AU => until(model, Quantifier::ForAll, a, b, row),
    }
}
