// A node over any harvester: its table, its state, and the calls that change it.
#![tactic(auto)]

mod ahead;
pub mod laws;
pub mod node;
mod release;
mod scan;
pub mod session;
mod store;
mod turn;
mod work;
