//! Tests of calls that no program shows: the examples at the heads of crates, a store through its trait, streams over
//! scripted readers and writers, units that no text spells, the board in one thread and in several, and allocations
//! that fail. They are in a crate of their own, since a crate with tests is proved twice.
#![tactic(auto)]

#[cfg(test)]
mod tests;
