// The listing of a table file: its text, its lines, and the scratch text in which they are put together.
#![tactic(auto)]

pub mod cases;
pub mod laws;
mod line;
pub mod list;
#[cfg(test)]
mod tests;
mod text;
