// Tests of a label kind and a model that are none of the library's: a lamp, which is not copied, and panels of two lamps.

ghost use Rattle.std.specs.Prelude.{false, [], ◌∷◌};
ghost use Rattle.std.proofs.Common.{rules};

use crate::building::{closed, evaluated, table};
use compare::verdict::Outcome;
use evaluator::Evaluation;
use kripke::label::Label;
use kripke::model::Model as KripkeModel;
use kripke::operator::Operator;
use std::test::Fail;

// Its one question is whether it is lit.
#[derive(Drop)]
struct Lamp {
    lit: bool,
}

impl Label for Lamp {
    ghost count = { 1 };

    ghost answers = { λ x. x.lit ∷ [] };

    ghost some = { Prim.search rules };

    ghost few = { Prim.search rules };

    ghost answered = { Prim.search rules };

    fn questions() -> usize {
        1
    }

    fn answer(&self, i: usize) -> bool {
        i == 0 && self.lit
    }
}

// A dark lamp leads to one that is lit or not, and that one to itself.
#[derive(Drop)]
struct Lamps {
    lit: bool,
}

impl KripkeModel for Lamps {
    type Label = Lamp;

    ghost meaning = { λ m. record {
      initial = 0;
      states = record { answers = false ∷ []; next = 1 ∷ [] } ∷ record { answers = m.lit ∷ []; next = 1 ∷ [] } ∷ [];
    } };

    ghost lawful = { Prim.search rules };

    fn states(&self) -> usize {
        2
    }

    fn initial(&self) -> usize {
        0
    }

    fn label(&self, s: usize) -> Lamp {
        Lamp {
            lit: s == 1 && self.lit,
        }
    }

    fn degree(&self, _s: usize) -> usize {
        1
    }

    fn successor(&self, _s: usize, _i: usize) -> usize {
        1
    }
}

const NODES: [(Operator, u16, u16); 2] = [(Operator::Question, 0, 0), (Operator::AX, 0, 0)];

#[test]
fn compared(rt: HostRuntime) -> Result<(), Fail> {
    let heap = rt.alloc();
    let (dark, lit) = (Lamps { lit: false }, Lamps { lit: true });
    closed(&rt, &lit, &lit, 1, Outcome::Alike);
    closed(&rt, &dark, &dark, 1, Outcome::Alike);
    closed(&rt, &lit, &dark, 1, Outcome::Different);
    let nodes = table(heap, &NODES)?;
    let root = Evaluation {
        holds: true,
        count: 2,
    };
    let rows = [[2, 0, 0, 0], [3, 0, 0, 0]];
    evaluated(&rt, heap, &lit, nodes.as_slice(), &rows, root)
}
