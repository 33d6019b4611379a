//! The inspector: what is known of a loop call before it runs.
//!
//! From the ranges and lines of the callback's addresses follows which elements are open: iterations may conflict there
//! alone. `is_independent` says that none is, so that the loop passes by the flow test, whatever the words of the maps
//! are. `inspect` finds the verdict on the words that there are. A slice of the callback's row list, what its accesses
//! of open elements and its result depend on, runs in batches on these words. It applies nothing, and is marked. Once
//! each open element conflicts, no other iteration changes the verdict.
#![tactic(auto)]

mod independent;
mod inspection;
mod open;
mod reach;
mod slice;
mod survey;

pub use independent::is_independent;
pub use inspection::inspect;
