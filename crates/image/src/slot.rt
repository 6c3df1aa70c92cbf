ghost use Rattle.image.specs.Loading.{slot_layer};
ghost use Rattle.std.specs.Prelude.{◌≡◌};

use kripke::refusal::Layer;

/// Which image of a pair is loaded. Its refusals are told in the layer of that number (docs/REFUSALS.md, "Layers").
#[derive(Clone, Copy, PartialEq, Eq, Debug)]
pub enum Slot {
    /// The first or only image, layer 1.
    First,
    /// The second image, layer 2.
    Second,
}

/// The layer that refuses the image.
impl From<Slot> for Layer {
    ghost from_gives = { λ slot layer. layer ≡ slot_layer slot };

    fn from(slot: Slot) -> Layer {
        match slot {
            Slot::First => Layer::FirstImage,
            Slot::Second => Layer::SecondImage,
        }
    }
}
