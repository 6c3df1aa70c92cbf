ghost use Rattle.std.specs.Prelude.{◌≡◌, ◌+◌, ◌*◌, ◌≤◌, length};
ghost use Rattle.compare.specs.Breaches.{FormulaBreach, TableBreach};
ghost use Rattle.compare.specs.Calls.{Lent, Written, first, rounds, second};
ghost use Rattle.kripke.specs.Refusals.{Judged};
ghost use Rattle.kripke.specs.Rounds.{total};
ghost use Rattle.kripke.specs.declared.refusal.Layer.TheVariants as layer;

use crate::comparison::Comparison;
use crate::keeping::differs;
use kripke::node::Node;
use kripke::refusal::{Cause, Layer, Refusal};

impl Comparison {
    /// The nodes of a next-only formula of least nesting that holds at the initial state of the first model and fails at that of the second: in order, every node a part of the root,
    /// 1 to 4 N - 3 of them for N states in both models, so 2,045 at most (docs/LOGIC.md, "The comparison").
    ///
    /// Refuses with 20 unless the comparison is closed as different, at the accepted rounds (docs/REFUSALS.md, "Causes").
    pub fn table(&self) -> Result<&[Node], Refusal>
        ensures { Judged result record {
          breaches = TableBreach (first self.now) (second self.now) (rounds self.now);
          layer = layer.Comparison;
          accepted = λ nodes. Lent self.now nodes.now;
          refused = Unit {0};
        } }
    {
        if !differs(&self.stages) {
            return Err(Layer::Comparison.refusal(Cause::NotDifferent, self.stages.rounds));
        }
        Ok(self.formula.list.as_slice())
    }

    // How many places are enough for a formula of N states: 4 N - 3, which is 4 for each class but the first, and 1.
    fn enough(&self) -> usize
        ensures { result + 3 ≡ 4 * total (first self.now) (second self.now) }
    {
        4 * self.stages.parts.states as usize - 3
    }

    // The same nodes, where so many places are enough for them.
    pub(crate) fn table_for(&self, places: usize) -> Result<&[Node], Refusal>
        ensures { Judged result record {
          breaches = FormulaBreach (first self.now) (second self.now) (rounds self.now) places;
          layer = layer.Comparison;
          accepted = λ nodes. Lent self.now nodes.now × length nodes.now ≤ places;
          refused = Unit {0};
        } }
    {
        let nodes = self.table()?;
        if places < self.enough() {
            return Err(Layer::Comparison.refusal(Cause::FewPlaces, places));
        }
        Ok(nodes)
    }

    /// Writes the nodes that `table` lends to the first places; how many they are. The rest of the places stays as it was
    /// (docs/FORMATS.md, "Requests and answers of a comparison").
    ///
    /// Refuses, with all places as they were (docs/REFUSALS.md, "Causes"):
    /// - 20 unless the comparison is closed as different, at the accepted rounds;
    /// - 21 where there are fewer than 4 N - 3 places for N states in both models, at their number.
    pub fn formula(&self, places: &mut [Node]) -> Result<usize, Refusal>
        ensures { Judged result record {
          breaches = FormulaBreach (first self.now) (second self.now) (rounds self.now) (length places.old);
          layer = layer.Comparison;
          accepted = Written self.now places.old places.new;
          refused = places.new ≡ places.old;
        } }
    {
        let nodes = self.table_for(places.len())?;
        places[..nodes.len()].copy_from_slice(nodes);
        Ok(nodes.len())
    }
}
