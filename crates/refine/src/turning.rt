ghost use Rattle.std.specs.Prelude.{◌≡◌, ℕ, ◌+◌, ◌*◌, ◌<◌, ◌≤◌, ◌||◌, [], ◌∷◌, map, length, slice_index, slice_index_or};
ghost use Rattle.kripke.specs.Rounds.{total};
ghost use Rattle.kripke.specs.Structure.{state};
ghost use Rattle.kripke.specs.Union.{both, moved};
ghost use Rattle.refine.specs.Rows.{state_of};
ghost use Rattle.refine.specs.Chains.{has};
ghost use Rattle.refine.specs.Sources.{Entered, Leads, leading};
ghost use Rattle.refine.specs.Steps.{at};
ghost use Rattle.refine.specs.Tables.{structure_of};

use crate::row::Row;
use crate::sources::{Sources, Step};
use crate::table::Table;
use arrayvec::ArrayVec;

// The row of state i of two structures, and the number of the first state of its structure.
pub(crate) fn row<'a>(first: &'a Table, second: &'a Table, i: usize) -> (&'a Row, usize)
    requires { i < total (structure_of first.now) (structure_of second.now) }
    ensures { state (both (structure_of first.now) (structure_of second.now)) i ≡ moved result.1 (state_of result.0.now) }
{
    let n = first.rows.len();
    if i < n {
        (&first.rows[i], 0)
    } else {
        (&second.rows[i - n], n)
    }
}

impl Sources {
    // No step yet.
    fn new() -> Sources
        ensures steps { result.steps.items ≡ [] }
        ensures none { (t : ℕ) → leading result t ≡ [] }
    {
        Sources {
            last: [0; 512],
            steps: ArrayVec::new(),
        }
    }

    // Writes s down at t.
    fn enter(&mut self, t: usize, s: u16)
        requires target { t < 512 }
        requires source { s < 512 }
        requires room { length self.old.steps.items < 8192 }
        ensures long { length self.new.steps.items ≡ length self.old.steps.items + 1 }
        ensures entered { Entered self.old self.new s (t ∷ []) }
    {
        let earlier = self.last[t];
        self.steps.push(Step { from: s, earlier });
        self.last[t] = self.steps.len() as u16;
    }

    // Writes s down at each of its successors.
    fn enter_all(&mut self, low: usize, next: &[u16], s: u16)
        requires targets { (i : ℕ) → i < length next.now → low + slice_index next.now i < 512 }
        requires source { s < 512 }
        requires room { length self.old.steps.items + length next.now ≤ 8192 }
        ensures long { length self.new.steps.items ≡ length self.old.steps.items + length next.now }
        ensures entered { Entered self.old self.new s (map (λ v. low + v) next.now) }
    {
        for v in next {
            self.enter(low + *v as usize, s);
        }
    }

    // Says yes at each of the states that lead to t.
    pub(crate) fn mark(&self, t: usize, row: &mut [bool; 512])
        requires { t < 512 }
        ensures { (x : ℕ) → x < 512 → at row.new x ≡ (has x (leading self.now t) || at row.old x) }
    {
        let mut place = self.last[t] as usize;
        while place > 0 {
            let step = self.steps[place - 1];
            row[step.from as usize] = true;
            place = step.earlier as usize;
        }
    }
}

// The steps of two structures turned round: for each state the states that lead to it.
pub(crate) fn reverse(first: &Table, second: &Table) -> Sources
    ensures { Leads (both (structure_of first.now) (structure_of second.now)) result (total (structure_of first.now) (structure_of second.now)) }
{
    let mut sources = Sources::new();
    for s in 0..first.rows.len() + second.rows.len() {
        let (row, low) = row(first, second, s);
        sources.enter_all(low, &row.next, s as u16);
    }
    sources
}
