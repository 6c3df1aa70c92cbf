ghost use Rattle.compare.specs.Answers.{ClassNumber, Decides};
ghost use Rattle.std.specs.Prelude.{◌≡◌};
ghost use Rattle.compare.specs.Breaches.{ClassBreach, RoundBreach, VerdictBreach};
ghost use Rattle.compare.specs.Calls.{Opened, Rounded, SameModels, first, rounds, second};
ghost use Rattle.compare.specs.Closing.{Reached};
ghost use Rattle.kripke.specs.Refusals.{Judged};
ghost use Rattle.kripke.specs.Rounds.{ClosedAfter, FirstClosed};
ghost use Rattle.kripke.specs.declared.refusal.Layer.TheVariants as layer;

use crate::comparison::Comparison;
use crate::keeping::{differs, keep};
use crate::verdict::{Outcome, Verdict};
use kripke::label::Label;
use kripke::model::Model;
use kripke::refusal::{Cause, Layer, Refusal};
use refine::nodes::Nodes;
use refine::refinement::Refinement;

impl Comparison {
    /// Opens the comparison of two models of one label kind: no round is accepted yet, and it may be closed as different at once (docs/LOGIC.md, "Rounds and classes").
    /// It refuses nothing and cannot fail.
    pub fn open<L: Label, M: Model<Label = L>, N: Model<Label = L>>(
        first: &M,
        second: &N,
    ) -> Comparison
        ensures { Opened L.Label.count (M.Model.meaning first.now) (N.Model.meaning second.now) result }
    {
        let stages = Refinement::open(first, second);
        let mut formula = Nodes::new();
        keep(&stages, &mut formula);
        Comparison { stages, formula }
    }

    // The outcome by the closing rule; none while the comparison is open.
    fn outcome(&self) -> Option<Outcome>
        ensures { Reached (first self.now) (second self.now) (rounds self.now) result }
    {
        if differs(&self.stages) {
            Some(Outcome::Different)
        } else if self.stages.rests {
            Some(Outcome::Alike)
        } else {
            None
        }
    }

    // One round of an open comparison; how many classes it leaves.
    fn advance(&mut self) -> usize
        requires { ¬ ClosedAfter (first self.old) (second self.old) (rounds self.old) }
        ensures { Rounded self.old self.new result }
    {
        let count = self.stages.round();
        keep(&self.stages, &mut self.formula);
        count
    }

    /// One round; how many classes it leaves, 1 to the number of states of both models, 512 at most. A comparison accepts no more rounds than both models have states.
    /// docs/LOGIC.md has what a round splits ("Rounds and classes") and how ("The comparison").
    ///
    /// Refuses with 17 when the comparison is closed, at the accepted rounds (docs/REFUSALS.md, "Causes").
    pub fn round(&mut self) -> Result<usize, Refusal>
        ensures { Judged result record {
          breaches = RoundBreach (first self.old) (second self.old) (rounds self.old);
          layer = layer.Comparison;
          accepted = Rounded self.old self.new;
          refused = self.new ≡ self.old;
        } }
    {
        match self.outcome() {
            None => Ok(self.advance()),
            Some(_) => Err(Layer::Comparison.refusal(Cause::ClosedComparison, self.stages.rounds)),
        }
    }

    /// Makes rounds until the comparison is closed, which is after no more of them than both models have states (docs/LOGIC.md, "The theorems": closing comes in time).
    /// A closed comparison stays as it is. It refuses nothing.
    pub fn close(&mut self)
        ensures same { SameModels self.old self.new }
        ensures still { ClosedAfter (first self.old) (second self.old) (rounds self.old) → self.new ≡ self.old }
        ensures closed { FirstClosed (first self.new) (second self.new) (rounds self.new) }
    {
        while self.outcome().is_none() {
            self.advance();
        }
    }

    /// The class of state `i`: the least number of a state that no next-only formula, nesting no deeper than the accepted rounds, separates from it.
    /// The states of both models are numbered through from 0, those of the second after those of the first (docs/LOGIC.md, "Rounds and classes").
    ///
    /// Refuses with 18 when there is no state `i`, at that number (docs/REFUSALS.md, "Causes").
    pub fn class(&self, i: usize) -> Result<usize, Refusal>
        ensures { Judged result record {
          breaches = ClassBreach (first self.now) (second self.now) i;
          layer = layer.Comparison;
          accepted = ClassNumber (first self.now) (second self.now) (rounds self.now) i;
          refused = Unit {0};
        } }
    {
        if i >= self.stages.parts.states as usize {
            return Err(Layer::Comparison.refusal(Cause::StateNumber, i));
        }
        Ok(self.stages.parts.class[i] as usize)
    }

    /// Alike or different, after how many rounds: alike exactly when no CTL formula of any size separates the initial states
    /// (docs/LOGIC.md, "The theorems": what closing means).
    ///
    /// Refuses with 19 while the comparison is open, at the accepted rounds (docs/REFUSALS.md, "Causes").
    pub fn verdict(&self) -> Result<Verdict, Refusal>
        ensures { Judged result record {
          breaches = VerdictBreach (first self.now) (second self.now) (rounds self.now);
          layer = layer.Comparison;
          accepted = Decides (first self.now) (second self.now) (rounds self.now);
          refused = Unit {0};
        } }
    {
        let rounds = self.stages.rounds;
        match self.outcome() {
            Some(outcome) => Ok(Verdict { rounds, outcome }),
            None => Err(Layer::Comparison.refusal(Cause::OpenComparison, rounds)),
        }
    }
}
