//! Ranges of words: the numbers from a least to a greatest that are multiples of a power of two.
//!
//! What makes a range is defined in `specs/Spans.antt`, what conditional jumps say of their operands in
//! `specs/RefineRows.antt`, what operations leave in `specs/AluRows.antt`. `refine` loses no pair of words that meets
//! its condition, and `alu` contains the result of every pair of words in its operands.
#![tactic(auto)]

mod arithmetic;
mod bits;
mod bounds;
mod comparisons;
mod condition;
mod laws;
mod moves;
mod operation;
mod quotients;
mod range;
mod refinement;
mod shifts;
mod sums;
mod widths;

pub use arithmetic::alu;
pub use condition::Condition;
pub use laws::{alu_law, refine_law, span_law};
pub use operation::Operation;
pub use range::{Range, exact, join, norm, top};
pub use refinement::refine;
