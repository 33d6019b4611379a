//! Tests of loops: their blocks, runs by several workers and in order, and replays. What they share is rows of text,
//! each a program with its maps, gates at which workers meet, and loops at their call.
//! They are a crate of their own, since a crate with tests is proved twice.
#![tactic(auto)]

pub mod meeting;
pub mod rows;
pub mod stage;
#[cfg(test)]
mod tests;
