//! The program's streams, and what is printed of programs, runs, loops and refusals. All bytes of a
//! stream are read or written, and failed calls are counted. Printed are what the verifier accepted, a
//! program that ran, a loop that was replayed, and a refusal.
//!
//!     let functions = [Function { start: 0, count: 2 }];
//!     let text = print_accepted(alloc, &functions)?;
//!     // accepted
//!     // function 0 at 0 count 2
#![tactic(auto)]

mod accepted;
mod counting;
mod reading;
mod refusal;
mod report;
mod retrying;
mod streams;
mod writing;

pub use accepted::{Function, print_accepted};
pub use counting::{Counted, read_outcome, write_outcome};
pub use reading::{ReadAllError, read_all};
pub use refusal::{MEMORY_LINE, Refusal, Section, print_refusal, section_name};
pub use report::{print_replay, print_report};
pub use streams::{DeviceFault, Sink, Source};
pub use writing::write_all;
