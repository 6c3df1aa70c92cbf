// The model that is loaded from a stored image.

#![tactic(auto)]

mod chain;
mod check;
mod records;
pub mod slot;
pub mod stored;
pub mod theorems;
