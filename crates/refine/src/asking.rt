ghost use Rattle.std.specs.Prelude.{◌≡◌, ℕ, ◌<◌, ◌≤◌, false, slice_index_or};
ghost use Rattle.kripke.specs.Rounds.{total};
ghost use Rattle.kripke.specs.Structure.{answer};
ghost use Rattle.refine.specs.Pairs.{both_of, first_of, second_of};
ghost use Rattle.refine.specs.Tests.{hits};

use crate::pair::Pair;
use crate::turning::row;

impl Pair {
    // How many states there are in all.
    pub(crate) fn states(&self) -> usize
        ensures value { result ≡ total (first_of self.now) (second_of self.now) }
        ensures few { result ≤ 512 }
    {
        self.first.rows.len() + self.second.rows.len()
    }

    // The answer of state i to question q.
    fn answer(&self, i: usize, q: usize) -> bool
        requires state { i < total (first_of self.now) (second_of self.now) }
        requires question { q < self.now.first.questions }
        ensures { result ≡ answer (both_of self.now) i q }
    {
        let (row, _) = row(&self.first, &self.second, i);
        row.answers[q]
    }

    // Which states say yes. Only the states are asked: `array::from_fn` would ask at each of its places, and most pairs have far fewer states.
    fn ask<F: Fn(usize) -> bool + Drop>(&self, question: F) -> [bool; 512]
        requires { (i : ℕ) → i < total (first_of self.now) (second_of self.now) → F.pre question i }
        ensures { (i : ℕ) → i < total (first_of self.now) (second_of self.now) → F.post question i (slice_index_or result i false) }
    {
        let mut row = [false; 512];
        for i in 0..self.states() {
            row[i] = question(i);
        }
        row
    }

    // Which states answer yes to question q.
    pub(crate) fn answer_row(&self, q: usize) -> [bool; 512]
        requires { q < self.now.first.questions }
        ensures { (i : ℕ) → i < total (first_of self.now) (second_of self.now)
            → slice_index_or result i false ≡ answer (both_of self.now) i q }
    {
        self.ask(|i| self.answer(i, q))
    }

    // Which states have a successor in class c.
    pub(crate) fn successor_row(&self, class: &[u16; 512], c: u16) -> [bool; 512]
        ensures { (i : ℕ) → i < total (first_of self.now) (second_of self.now)
            → slice_index_or result i false ≡ hits (both_of self.now) class.now c i }
    {
        let mut row = [false; 512];
        for t in 0..self.states() {
            if class[t] == c {
                self.sources.mark(t, &mut row);
            }
        }
        row
    }
}
