// The theorems that the comparison rests on, for every structure. Each function does nothing; its contract is a theorem.
// docs/LOGIC.md has the arguments, under "The theorems".
ghost use Rattle.kripke.specs.Theorems.{AlikeAgree, ApartByRounds, ClassByFormulas, ClassesCounted, ClassesGrow};
ghost use Rattle.kripke.specs.Theorems.{ClosesInTime, Decided, DifferentSeparated, LeastNesting, ModelsApart};
ghost use Rattle.kripke.specs.Theorems.{SameOrSeparated, SameWhenInseparable, SettledAgree, TestReflects};

/// Two states of closed structures are the same after k rounds exactly when no next-only formula of nesting k or less separates them.
pub fn same_when_inseparable()
    ensures { SameWhenInseparable }
{}

/// Two states of closed structures are the same after k rounds, or some next-only formula of nesting k or less separates them.
pub fn same_or_separated()
    ensures { SameOrSeparated }
{}

/// The class number of a state after k rounds is the least number of a state that no next-only formula of nesting k or less separates from it.
pub fn class_by_formulas()
    ensures { ClassByFormulas }
{}

/// Where a round splits nothing, states that are together agree on every CTL formula, of any size.
pub fn settled_agree()
    ensures { SettledAgree }
{}

/// Some CTL formula separates two states of closed structures exactly when some round tells them apart.
pub fn apart_by_rounds()
    ensures { ApartByRounds }
{}

/// Some CTL formula separates the initial states of two lawful models exactly when some round closes their comparison as different.
pub fn models_apart()
    ensures { ModelsApart }
{}

/// A next-only formula that separates two states nests deeper than any number of rounds after which they are the same.
pub fn least_nesting()
    ensures { LeastNesting }
{}

/// A comparison of lawful models closes within as many rounds as there are states.
pub fn closes_in_time()
    ensures { ClosesInTime }
{}

/// A comparison that is closed as alike: no CTL formula of any size separates the initial states.
pub fn alike_agree()
    ensures { AlikeAgree }
{}

/// A comparison that is first closed as different, after k rounds: a next-only formula of nesting k separates the initial states, and no next-only formula that does nests less deep.
pub fn different_separated()
    ensures { DifferentSeparated }
{}

/// After any number of rounds there is one number of classes, at most that of the states.
pub fn classes_counted()
    ensures { ClassesCounted }
{}

/// A round that splits nothing leaves the number of classes, and any other makes it grow.
pub fn classes_grow()
    ensures { ClassesGrow }
{}

/// Every CTL formula is decided at every state of a closed structure.
pub fn decided()
    ensures { Decided }
{}

/// The test of the rounds answers yes exactly for states that are the same.
pub fn test_reflects()
    ensures { TestReflects }
{}
