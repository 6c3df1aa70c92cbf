ghost use Rattle.std.specs.Prelude.{◌≡◌, ◌<◌, ◌≤◌, Err, IfOk, vec_capacity};
ghost use Rattle.kripke.specs.Refusals.{FirstBreach, Judged};
ghost use Rattle.kripke.specs.declared.refusal.Refusal.{Refusal};
ghost use Rattle.image.specs.Checks.{Shown};
ghost use Rattle.image.specs.Held.{Filled, LabelsOf, label_at, meaning_of};
ghost use Rattle.image.specs.Image.{label_bytes, most_states, states};
ghost use Rattle.image.specs.Loading.{ImageBreach, Describes, Fresh, slot_layer};
ghost use Rattle.image.specs.Stored.{row_state};
ghost use Rattle.image.specs.declared.stored.row.Row.{Row};

use super::StoredModel;
use super::row::Row;
use crate::chain::MOST_SUCCESSORS;
use crate::check::{Sound, check};
use crate::records::MOST_STATES;
use crate::slot::Slot;
use arrayvec::ArrayVec;
use kripke::refusal::{Layer, Refusal};
use labels::coded::Coded;
use std::alloc::{AllocError, Global};

// The row of state s: its label and the targets of its chain.
fn row<L: Coded>(image: &Sound<L>, s: usize) -> Row<L>
    requires { s < image.now.linked.records.states }
    ensures shown { Shown L.Coded.coding image.now.linked.records.image.now s (row_state L.Label.answers result) }
    ensures coded { L.Coded.codes (label_bytes image.now.linked.records.image.now s) result.label }
{
    let label = image.linked.records.label(s).unwrap();
    let mut next = ArrayVec::new();
    // No more are taken than there is room for.
    let _ = next.extend(image.linked.chain(s).take(MOST_SUCCESSORS));
    Row { label, next }
}

// Writes down the rows of all states, in the place of what was there.
fn fill<L: Coded>(image: &Sound<L>, rows: &mut Vec<Row<L>>)
    requires { most_states ≤ vec_capacity rows.old }
    ensures room { most_states ≤ vec_capacity rows.new }
    ensures filled { Filled L.Label.answers L.Coded.codes L.Coded.coding image.now.linked.records.image.now (states image.now.linked.records.image.now) rows.new.items }
{
    rows.clear();
    for s in 0..image.linked.records.states {
        rows.push_reserved(row(image, s));
    }
}

impl<L: Coded> StoredModel<L> {
    /// A fresh model: one state, its own successor and initial, with the fresh label of its kind (docs/FORMATS.md, "The stored image").
    /// It has the room for every model that an image can describe. Want of memory is the only error, and no other call of a holder
    /// meets it (docs/DECISIONS.md, "Memory").
    pub fn new(heap: Global) -> Result<StoredModel<L>, AllocError>
        ensures meaning { IfOk result (λ m. Fresh L.Coded.coding (meaning_of L.Label.answers m)) }
        ensures label { IfOk result (λ m. (d : Row L) → L.Coded.codes L.Coded.coding.fresh (label_at m 0 d)) }
    {
        let mut rows = Vec::with_capacity(heap, MOST_STATES)?;
        let mut next = ArrayVec::new();
        next.push(0);
        rows.push_reserved(Row {
            label: L::fresh(),
            next,
        });
        Ok(StoredModel { rows, initial: 0 })
    }

    // Makes this the model that the image describes, or tells its first breach. `load` adds what holds of every image.
    fn take(&mut self, image: &[u8], slot: Slot) -> Result<(), Refusal>
        ensures { Judged result record {
          breaches = ImageBreach L.Coded.coding image.now;
          layer = slot_layer slot;
          accepted = λ _. Describes L.Coded.coding image.now (meaning_of L.Label.answers self.new) × LabelsOf L.Coded.codes image.now self.new;
          refused = self.new ≡ self.old;
        } }
    {
        let image = check::<L>(image, Layer::from(slot))?;
        fill(&image, &mut self.rows);
        self.initial = image.linked.records.initial;
        Ok(())
    }

    /// Makes this the model that the image describes, which is one.
    ///
    /// An image that breaks a rule is refused, in layer 1 or 2 by its slot, by the least of these numbers that fits it, and of one
    /// number at the least place: 1, it is shorter than a header; 2, a header field is outside its limits; 3, its length is another
    /// than the header asks for; 4, a state record is not in order; 5, a link record is not; 6, a chain has more than 16 links.
    /// docs/FORMATS.md has the rules ("The stored image"), docs/REFUSALS.md the places ("Causes"). A refusal changes nothing, and nothing is
    /// allocated.
    #[tactic(auto, using(crate::proofs::Unique::one_given))]
    pub fn load(&mut self, image: &[u8], slot: Slot) -> Result<(), Refusal>
        ensures judged { Judged result record {
          breaches = ImageBreach L.Coded.coding image.now;
          layer = slot_layer slot;
          accepted = λ _. Describes L.Coded.coding image.now (meaning_of L.Label.answers self.new) × LabelsOf L.Coded.codes image.now self.new;
          refused = self.new ≡ self.old;
        } }
        ensures one_refusal { (e : Refusal) → FirstBreach (ImageBreach L.Coded.coding image.now) (slot_layer slot) e → result ≡ Err e }
    {
        self.take(image, slot)
    }
}
