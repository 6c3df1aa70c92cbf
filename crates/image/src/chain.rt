ghost use Rattle.std.specs.Prelude.{◌≡◌, ◌<◌, ◌≤◌, MatchBool};
ghost use Rattle.image.specs.Checks.{FirstBad, Firsts, Links, LongChain, Step};
ghost use Rattle.image.specs.Image;

use crate::records::Records;

// The most successors that a state has.
pub(crate) const MOST_SUCCESSORS: usize = 16;

// Records whose states all have a first link, and whose links all lead to states and go on to links or end.
#[derive(Clone, Copy)]
pub(crate) struct Linked<'a> {
    pub(crate) records: Records<'a>,
    ghost firsts: { Firsts records.image.now },
    ghost links: { Links records.image.now },
}

// What is left of a chain, as an iterator over the targets of its links.
#[derive(Drop)]
pub(crate) struct Chain<'a> {
    linked: Linked<'a>,
    link: usize,
    ghost within: { link ≤ Image.links linked.records.image.now },
}

impl<'a> Linked<'a> {
    // The chain of state s.
    pub(crate) fn chain(&self, s: usize) -> Chain<'a>
        requires { s < self.now.records.states }
        ensures linked { result.linked ≡ self.now }
        ensures first { result.link ≡ Image.first self.now.records.image.now s }
    {
        Chain {
            linked: *self,
            link: self.records.first_link(s),
        }
    }

    // Has the chain of state s more links than a state may have successors?
    fn chain_is_long(&self, s: usize) -> bool
        requires { s < self.now.records.states }
        ensures { MatchBool result (LongChain self.now.records.image.now s) (¬ LongChain self.now.records.image.now s) }
    {
        self.chain(s).nth(MOST_SUCCESSORS).is_some()
    }

    // The first state whose chain is too long.
    pub(crate) fn first_long_chain(&self) -> Option<usize>
        ensures { FirstBad (λ s. ¬ LongChain self.now.records.image.now s) (LongChain self.now.records.image.now) 0 self.now.records.states result }
    {
        (0..self.records.states).find(|s| self.chain_is_long(*s))
    }
}

impl<'a> Iterator for Chain<'a> {
    type Item = u16;

    ghost next_gives = { λ s r t. (t.linked ≡ s.linked) × Step s.linked.records.image.now s.link r t.link };

    fn next(&mut self) -> Option<u16> {
        // In an image 0 names no link: it ends a chain.
        if self.link == 0 {
            return None;
        }
        let records = self.linked.records;
        let target = records.target(self.link);
        self.link = records.after(self.link);
        Some(target)
    }
}
