ghost use Rattle.std.specs.Prelude.{◌≡◌, vec_items};
ghost use Rattle.kripke.specs.Structure.{or_first, state};
ghost use Rattle.image.specs.Held.{meaning_of};
ghost use Rattle.image.specs.Stored.{row_state};
ghost use Rattle.image.specs.Rows;
ghost use Rattle.image.specs.declared.stored.row.Row.{Row};

use super::StoredModel;
use super::row::Row;
use kripke::label::Label;
use kripke::model::Model as KripkeModel;

impl<L: Label + Copy> KripkeModel for StoredModel<L> {
    type Label = L;

    ghost meaning = { λ m. meaning_of L.Label.answers m };

    ghost lawful = { λ m.
        Rows.lawful L.Label.answers L.Label.count L.Label.answered m.rows.items m.initial
        m.some m.few m.begins m.inside };

    #[tactic(auto, using(crate::specs::Rows::size_is))]
    fn states(&self) -> usize {
        self.rows.len()
    }

    fn initial(&self) -> usize {
        self.initial as usize
    }

    fn label(&self, s: usize) -> L
        ensures answers { L.Label.answers result ≡ (state (meaning_of L.Label.answers self.now) s).answers }
        ensures held { (d : Row L) → result ≡ (or_first (vec_items self.now.rows) s d).label }
    {
        self.row(s).label
    }

    fn degree(&self, s: usize) -> usize {
        self.row(s).next.len()
    }

    fn successor(&self, s: usize, i: usize) -> usize {
        let next = &self.row(s).next;
        *next.get(i).unwrap_or(&next[0]) as usize
    }
}

impl<L: Label> StoredModel<L> {
    // The row of state s, and past the last that of state 0.
    fn row(&self, s: usize) -> &Row<L>
        ensures means { state (meaning_of L.Label.answers self.now) s ≡ row_state L.Label.answers result.now }
        ensures held { (d : Row L) → result.now ≡ or_first (vec_items self.now.rows) s d }
    {
        self.rows.get(s).unwrap_or(&self.rows[0])
    }
}
