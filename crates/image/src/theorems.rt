ghost use Rattle.image.specs.Theorems.{OneModel, OneRefusal, SomeModel};

/// An image describes at most one model (docs/LOGIC.md, "Images and rules"). This function does nothing; its contract is a theorem, as of those below.
pub fn one_model()
    ensures { OneModel }
{}

/// An image that breaks no rule describes some model, and a lawful one (docs/LOGIC.md, "Images and rules").
pub fn some_model()
    ensures { SomeModel }
{}

/// Two first refusals of an image are one, and an image that breaks no rule has none: so loading, which refuses an image by its first breach, has one way to
/// (docs/REFUSALS.md, "Causes"; docs/DECISIONS.md, "Refusals").
pub fn one_refusal()
    ensures { OneRefusal }
{}
