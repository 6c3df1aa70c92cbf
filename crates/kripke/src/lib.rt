// The traits of labels and models, the refusals, and the mathematics of comparison.

#![tactic(auto)]

pub mod label;
pub mod model;
pub mod node;
pub mod operator;
pub mod quantifier;
pub mod refusal;
pub mod theory;
