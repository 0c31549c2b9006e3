// What brings energy to a node: a steady source, recorded samples, a converter, two at once, and either of two.
#![tactic(auto)]

pub mod cases;
pub mod choice;
pub mod converter;
pub mod harvester;
pub mod pair;
pub mod reading;
pub mod steady;
pub mod trace;
