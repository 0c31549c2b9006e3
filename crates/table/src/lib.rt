// Tables: the table with its limits in its type, and the way from a file's bytes to a table.
#![tactic(auto)]

pub mod cases;
pub mod fault;
mod kind;
pub mod laws;
pub mod load;
pub mod name;
pub mod read;
pub mod table;
