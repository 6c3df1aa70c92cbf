// The comparison of two models: opening, rounds and readings, and any list of requests.

#![tactic(auto)]

mod calls;
pub mod comparison;
mod keeping;
mod prune;
mod reading;
pub mod requests;
mod running;
pub mod verdict;
