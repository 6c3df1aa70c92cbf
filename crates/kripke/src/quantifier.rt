ghost use Rattle.kripke.specs.Quantifiers.{dual};
ghost use Rattle.std.specs.Prelude.{◌≡◌};

/// The path quantifiers of CTL (docs/LOGIC.md, "Formulas").
#[derive(Clone, Copy, PartialEq, Eq, Debug)]
pub enum Quantifier {
    /// E: on some path.
    Exists,
    /// A: on each path.
    ForAll,
}

impl Quantifier {
    /// The other quantifier, which tells of the negation: where a formula does not hold on some path, its negation holds on each
    /// (docs/LOGIC.md, "How the evaluator decides, and why it is right").
    pub fn dual(self) -> Quantifier
        ensures { result ≡ dual self }
    {
        match self {
            Quantifier::Exists => Quantifier::ForAll,
            Quantifier::ForAll => Quantifier::Exists,
        }
    }
}
