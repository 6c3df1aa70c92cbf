// Two models read into tables, and their states split into classes, round by round.

#![tactic(auto)]

mod asking;
mod growth;
pub mod nodes;
pub mod pair;
pub mod partition;
mod reading;
pub mod refinement;
mod rounds;
pub mod row;
pub mod sources;
mod split;
pub mod stages;
pub mod table;
mod turning;
