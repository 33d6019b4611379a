//! Kernels over the planes of marks, in vectors of any number of lanes that `std::simd` has, and one
//! word at a time for what is left: planes merged, conflicts found, counted and the least found.
//!
//! ```text
//! merge::<8>(&mut planes, &other);            // iteration 0 wrote element 1, and iteration 1 read it
//! let mut found = [0; 1];                     // a bit for each of at most 64 elements
//! conflicts::<8>(&planes, &mut found);        // 2: element 1
//! let count = count_bits::<8>(&found);        // 1
//! let least = first_bit::<8>(&found);         // Some(1)
//! ```
#![tactic(auto)]

mod bits;
mod conflict;
mod counting;
mod flow;
mod indices;
mod judging;
mod kept;
mod loading;
mod merging;
mod touching;
mod verdict;

pub use counting::{count_bits, first_bit};
pub use judging::conflicts;
pub use merging::merge;
pub use touching::{conflicts_touched, merge_touched};
pub use verdict::{conflict_plane, verdict_of};
