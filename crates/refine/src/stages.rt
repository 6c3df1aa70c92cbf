ghost use Rattle.std.specs.Prelude.{◌≡◌, suc, false};
ghost use Rattle.kripke.specs.Classes.{Classes};
ghost use Rattle.refine.specs.Refinements.{Advanced, Opened, first, second};

use crate::pair::Pair;
use crate::partition::Partition;
use crate::reading::read;
use crate::refinement::Refinement;
use kripke::label::Label;
use kripke::model::Model;

impl Refinement {
    /// Reads two models of one label kind, and splits their states by their labels. No round is made yet. It allocates nothing, and cannot fail
    /// (docs/LOGIC.md, "The comparison").
    pub fn open<L: Label, M: Model<Label = L>, N: Model<Label = L>>(
        first: &M,
        second: &N,
    ) -> Refinement
        ensures { Opened L.Label.count (M.Model.meaning first.now) (N.Model.meaning second.now) result }
    {
        let pair = Pair::new(read(first), read(second));
        let mut parts = Partition::whole(pair.states() as u16, pair.first.questions);
        let before = parts.class;
        parts.ask_all(&pair);
        Refinement {
            pair,
            parts,
            before,
            rounds: 0,
            rests: false,
        }
    }

    // One round more.
    fn advance(&mut self)
        requires { self.old.rests ≡ false }
        ensures pair { self.new.pair ≡ self.old.pair }
        ensures rounds { self.new.rounds ≡ suc self.old.rounds }
    {
        let class = self.parts.class;
        self.rests = self.parts.round(&self.pair, &self.before);
        self.before = class;
        self.rounds += 1;
    }

    // How many classes there are.
    fn count(&self) -> usize
        ensures { Classes (first self.now) (second self.now) self.now.rounds result }
    {
        self.parts.count as usize
    }

    /// One round more, unless the last one split nothing: then it changes nothing. How many classes there are after it, 1 to 512.
    /// It refuses nothing: a comparison, which closes, does (docs/LOGIC.md, "The comparison").
    pub fn round(&mut self) -> usize
        ensures { Advanced self.old self.new result }
    {
        if !self.rests {
            self.advance();
        }
        self.count()
    }
}
