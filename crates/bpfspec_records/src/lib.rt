//! The facts of an input as records, and their lines: an object of JSON each.
//!
//! ```text
//! let mut records = Vec::new(alloc);
//! add_unit_records(&mut records, &inspection, false)?;
//! let text = print_records(alloc, &records)?;
//! // {"record":"map","map":0,"elements":8}
//! // {"record":"insn","slot":0,"insn":"mov64 r0, 0","reached":true,"ahead":1,"aside":null}
//! ```
#![tactic(auto)]

mod adding;
mod elements;
mod fields;
mod grids;
mod known;
mod loop_facts;
mod loop_printing;
mod loops;
mod optional;
mod printing;
mod reading;
mod records;
mod refusals;
mod units;
mod unwritten;
mod values;
mod words;

pub use loop_facts::{CellFact, GridFact, LoopFact, PairFact};
pub use loops::loop_records;
pub use printing::print_records;
pub use records::{FrameOf, Record};
pub use units::add_unit_records;
