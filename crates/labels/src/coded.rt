ghost use Rattle.labels.specs.Kinds.{Coding, kind_number};
ghost use Rattle.std.specs.Option.{option_map};
ghost use Rattle.std.specs.Prelude.{◌≡◌, ℕ, List, Some, IfSome};

use crate::kind::Kind;
use kripke::label::Label;

/// A label kind that stored images hold, four bytes a label (docs/FORMATS.md, "Labels").
pub trait Coded: Label + Copy {
    /// The number of the kind, the answers of the label that four bytes code, and the bytes of the fresh label.
    ghost coding: { Coding };

    /// Which bytes code which label. Whoever implements it says by this how much of a label its bytes settle (docs/DECISIONS.md, "Structure").
    ghost codes: { List ℕ → Self → Type 0 };

    /// The kind, whose number an image of such labels has as its first byte.
    fn kind() -> Kind
        ensures { kind_number result ≡ coding.kind };

    /// The label that the four bytes code; none where they code none, which loading an image refuses by 4 (docs/REFUSALS.md, "Causes").
    fn decode(bytes: [u8; 4]) -> Option<Self>
        ensures answers { option_map Self.Label.answers result ≡ coding.decoded bytes }
        ensures coded { IfSome result (λ label. codes bytes label) };

    /// The label of the one state that a fresh holder has (docs/FORMATS.md, "The stored image").
    fn fresh() -> Self
        ensures answers { Some (Self.Label.answers result) ≡ coding.decoded coding.fresh }
        ensures coded { codes coding.fresh result };
}
