ghost use Rattle.std.specs.List.{All};
ghost use Rattle.arrayvec.specs.ArrayVec.{array_vec_len};
ghost use Rattle.rules.specs.Limits.{LawfulRule, Limits};

use crate::rule::Rule;
use arrayvec::ArrayVec;

/// A model has no more bits, and at least one: other numbers are refused by 7 (docs/FORMATS.md, "The rule list"; docs/REFUSALS.md, "Causes").
pub const MOST_BITS: usize = 8;

/// A model has no more rules, and may have none: more are refused by 7 (docs/FORMATS.md, "The rule list"; docs/REFUSALS.md, "Causes").
pub const MOST_RULES: usize = 16;

/// A model of 2^b states, b from 1 to 8, that is given by 0 to 16 rules (docs/FORMATS.md, "The rule list").
///
/// The label of a state is its number, as a signal word. Successors are computed from the rules whenever they are asked for.
#[derive(Drop)]
pub struct RuleModel {
    bits: usize,
    initial: usize,
    rules: ArrayVec<Rule, MOST_RULES>,
    ghost within: { Limits bits initial (array_vec_len rules) },
    ghost lawful: { All (LawfulRule bits) rules.items },
}

mod asks;
mod load;
