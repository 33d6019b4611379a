//! Marks of what a loop's iterations do, which run in batches, for the verdict on it.
#![tactic(auto)]

mod by_site;
mod comparing;
mod marks;

pub use by_site::set_run;
pub use marks::LoopMarks;
