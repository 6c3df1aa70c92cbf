// The label kinds of panels.

#![tactic(auto)]

pub mod coded;
pub mod kind;
pub mod reading;
pub mod signal;
