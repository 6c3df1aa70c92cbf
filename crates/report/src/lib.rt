// The report of a comparison, as a value and as text.

#![tactic(auto)]

mod cursor;
pub mod report;
pub mod write;
