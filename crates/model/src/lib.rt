// The theory of the node: tasks, demand, bounds, slots, histories, the deadline theorem and the worked cases; and what calls take and answer.
#![tactic(auto)]

pub mod cases;
pub mod deadlines;
pub mod histories;
pub mod laws;
pub mod order;
pub mod refusal;
pub mod slot;
pub mod state;
pub mod task;
