// The response-time bounds of a task table, and whether the table is accepted.
#![tactic(auto)]

pub mod assess;
mod curve;
mod search;
pub mod verdict;
