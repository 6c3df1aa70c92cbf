ghost use Rattle.std.specs.Prelude.{◌≡◌, ◌+◌, ◌<◌, ◌≤◌, length, IfSome, MatchBool, MatchResult};
ghost use Rattle.std.specs.Option.{option_map};
ghost use Rattle.kripke.specs.Refusals.{FirstBreach};
ghost use Rattle.image.specs.Checks.{FirstBad, FirstBadField, GoodHeader};
ghost use Rattle.image.specs.Image;
ghost use Rattle.image.specs.Loading.{ImageBreach, GoodLink, GoodState};

use kripke::refusal::{Cause, Layer, Refusal};
use labels::coded::Coded;

// The lengths of the header, of a state's record and of a link's, in bytes.
pub(crate) const HEADER: usize = 8;

pub(crate) const STATE_RECORD: usize = 8;

pub(crate) const LINK_RECORD: usize = 4;

// The offsets of the header's fields.
const KIND: usize = 0;

const GAP: usize = 1;

const STATES: usize = 2;

const LINKS: usize = 4;

const INITIAL: usize = 6;

// The most states and links that an image may have.
pub(crate) const MOST_STATES: usize = 256;

pub(crate) const MOST_LINKS: usize = 4096;

// An image with a header in order, and the numbers of the header.
#[derive(Clone, Copy)]
pub(crate) struct Records<'a> {
    image: &'a [u8],
    pub(crate) states: usize,
    pub(crate) links: usize,
    pub(crate) initial: u16,
    ghost states_are: { states ≡ Image.states image.now },
    ghost links_are: { links ≡ Image.links image.now },
    ghost initial_is: { initial ≡ Image.initial image.now },
    ghost sized: { length image.now ≡ Image.whole image.now },
    ghost some: { 1 ≤ states },
    ghost few: { states ≤ Image.most_states },
    ghost few_links: { links ≤ Image.most_links },
    ghost begins: { initial < states },
}

// The number of two bytes at an offset, low byte first.
#[tactic(auto, unfolding(crate::specs::Image::number_at))]
fn number(image: &[u8], at: usize) -> u16
    requires { at + 2 ≤ length image.now }
    ensures { result ≡ Image.number_at image.now at }
{
    u16::from_le_bytes([image[at], image[at + 1]])
}

// The offset of the first header field that is outside its limits.
fn bad_field<L: Coded>(image: &[u8]) -> Option<usize>
    requires { 8 ≤ length image.now }
    ensures { FirstBadField L.Coded.coding image.now result }
{
    let states = number(image, STATES) as usize;
    let links = number(image, LINKS) as usize;
    let initial = number(image, INITIAL) as usize;
    if image[KIND] != u8::from(L::kind()) {
        Some(KIND)
    } else if image[GAP] != 0 {
        Some(GAP)
    } else if !(1..=MOST_STATES).contains(&states) {
        Some(STATES)
    } else if !(1..=MOST_LINKS).contains(&links) {
        Some(LINKS)
    } else if initial >= states {
        Some(INITIAL)
    } else {
        None
    }
}

impl<'a> Records<'a> {
    // Reads the header, and checks it and the length.
    pub(crate) fn read<L: Coded>(image: &'a [u8], layer: Layer) -> Result<Records<'a>, Refusal>
        ensures { MatchResult result (λ records. (records.image.now ≡ image.now) × GoodHeader L.Coded.coding records.image.now) (λ e. FirstBreach (ImageBreach L.Coded.coding image.now) layer e) }
    {
        if image.len() < HEADER {
            return Err(layer.refusal(Cause::ShortImage, image.len()));
        }
        if let Some(place) = bad_field::<L>(image) {
            return Err(layer.refusal(Cause::HeaderField, place));
        }
        let states = number(image, STATES) as usize;
        let links = number(image, LINKS) as usize;
        let initial = number(image, INITIAL);
        let whole = HEADER + STATE_RECORD * states + LINK_RECORD * links;
        if image.len() != whole {
            return Err(layer.refusal(Cause::ImageLength, whole));
        }
        Ok(Records {
            image,
            states,
            links,
            initial,
        })
    }

    // The offset of the record of state s.
    pub(crate) fn state_at(&self, s: usize) -> usize
        requires { s < self.now.states }
        ensures { result ≡ Image.state_at s }
    {
        HEADER + STATE_RECORD * s
    }

    // The first link of state s.
    pub(crate) fn first_link(&self, s: usize) -> usize
        requires { s < self.now.states }
        ensures { result ≡ Image.first self.now.image.now s }
    {
        number(self.image, self.state_at(s) + 4) as usize
    }

    // The label of state s, if its bytes code one.
    pub(crate) fn label<L: Coded>(&self, s: usize) -> Option<L>
        requires { s < self.now.states }
        ensures answers { option_map L.Label.answers result ≡ L.Coded.coding.decoded (Image.label_bytes self.now.image.now s) }
        ensures coded { IfSome result (λ label. L.Coded.codes (Image.label_bytes self.now.image.now s) label) }
    {
        let at = self.state_at(s);
        L::decode([
            self.image[at],
            self.image[at + 1],
            self.image[at + 2],
            self.image[at + 3],
        ])
    }

    // Is the record of state s in order?
    fn state_in_order<L: Coded>(&self, s: usize) -> bool
        requires { s < self.now.states }
        ensures { MatchBool result (GoodState L.Coded.coding self.now.image.now s) (¬ GoodState L.Coded.coding self.now.image.now s) }
    {
        let at = self.state_at(s);
        let first = self.first_link(s);
        let coded = self.label::<L>(s).is_some();
        coded
            && 1 <= first
            && first <= self.links
            && self.image[at + 6] == 0
            && self.image[at + 7] == 0
    }

    // The first state whose record is not in order.
    pub(crate) fn first_bad_state<L: Coded>(&self) -> Option<usize>
        ensures { FirstBad (GoodState L.Coded.coding self.now.image.now) (λ s. ¬ GoodState L.Coded.coding self.now.image.now s) 0 self.now.states result }
    {
        (0..self.states).find(|s| !self.state_in_order::<L>(*s))
    }

    // The offset of the record of link l.
    pub(crate) fn link_at(&self, l: usize) -> usize
        requires { Image.Link self.now.image.now l }
        ensures { result ≡ Image.link_at self.now.image.now l }
    {
        HEADER + STATE_RECORD * self.states + LINK_RECORD * (l - 1)
    }

    // The target of link l.
    pub(crate) fn target(&self, l: usize) -> u16
        requires { Image.Link self.now.image.now l }
        ensures { result ≡ Image.target self.now.image.now l }
    {
        number(self.image, self.link_at(l))
    }

    // The link after link l, as the image has it: 0 where a chain ends.
    pub(crate) fn after(&self, l: usize) -> usize
        requires { Image.Link self.now.image.now l }
        ensures { result ≡ Image.after self.now.image.now l }
    {
        number(self.image, self.link_at(l) + 2) as usize
    }

    // Is the record of link l in order?
    fn link_in_order(&self, l: usize) -> bool
        requires { Image.Link self.now.image.now l }
        ensures { MatchBool result (GoodLink self.now.image.now l) (¬ GoodLink self.now.image.now l) }
    {
        let target = self.target(l) as usize;
        let after = self.after(l);
        target < self.states && after <= self.links
    }

    // The first link whose record is not in order.
    pub(crate) fn first_bad_link(&self) -> Option<usize>
        ensures { FirstBad (GoodLink self.now.image.now) (λ l. ¬ GoodLink self.now.image.now l) 1 (self.now.links + 1) result }
    {
        (1..self.links + 1).find(|l| !self.link_in_order(*l))
    }
}
