ghost use Rattle.std.specs.Prelude.{◌≡◌, MatchResult};
ghost use Rattle.kripke.specs.Refusals.{Clean, FirstBreach};
ghost use Rattle.image.specs.Checks.{States};
ghost use Rattle.image.specs.Loading.{ImageBreach};

use crate::chain::Linked;
use crate::records::Records;
use kripke::refusal::{Cause, Layer, Refusal};
use labels::coded::Coded;
use std::marker::PhantomData;

// An image that breaks no rule, for a holder of labels L.
#[derive(Drop)]
pub(crate) struct Sound<'a, L: Coded> {
    pub(crate) linked: Linked<'a>,
    labels: PhantomData<L>,
    ghost clean: { Clean (ImageBreach L.Coded.coding linked.records.image.now) },
    ghost good: { States L.Coded.coding linked.records.image.now },
}

// Checks the whole image, for a holder of labels L.
pub(crate) fn check<L: Coded>(image: &[u8], layer: Layer) -> Result<Sound<L>, Refusal>
    ensures { MatchResult result (λ x. x.linked.records.image.now ≡ image.now) (λ e. FirstBreach (ImageBreach L.Coded.coding image.now) layer e) }
{
    let records = Records::read::<L>(image, layer)?;
    if let Some(s) = records.first_bad_state::<L>() {
        return Err(layer.refusal(Cause::StateRecord, records.state_at(s)));
    }
    if let Some(l) = records.first_bad_link() {
        return Err(layer.refusal(Cause::LinkRecord, records.link_at(l)));
    }
    let linked = Linked { records };
    if let Some(s) = linked.first_long_chain() {
        return Err(layer.refusal(Cause::LongChain, records.state_at(s)));
    }
    Ok(Sound {
        linked,
        labels: PhantomData,
    })
}
