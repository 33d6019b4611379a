//! Array maps, and the trait through which a program sees them, whatever it is made of.
//! `specs/Accesses.antt` says what an access is, and what a list of accesses leaves of each element.
//!
//! ```text
//! let mut maps = Maps::new(alloc, &[2, 1])?;      // all zero
//! maps.set(1, 0, 8);
//! let seen = maps.load(2);                        // 8: element 0 of map 1, after the two of map 0
//! maps.store(0, 5);                               // maps.get(0, 0) is 5
//! ```
#![tactic(auto)]

mod access;
pub mod changes;
pub mod halves;
pub mod maps;
mod runs;
pub mod store;
pub mod word_change;
pub mod words;

pub use access::{Half, Op, Part, Rmw, each_element};
pub use changes::{combine, exchange};
pub use halves::{half_of, part_of, with_half};
pub use maps::{Maps, MapsError};
pub use store::Store;
pub use word_change::WordChange;
pub use words::are_words;
