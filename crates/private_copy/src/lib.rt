//! Private copies of maps, for the iterations of a loop that run ahead: each iteration sees the start
//! words changed by its own accesses alone, and what it did is remembered element by element.
//!
//! ```text
//! let mut copy = Private::try_new(alloc, &maps)?;     // of maps that are all zero
//! copy.begin(alloc, 2)?;                              // an iteration of at most two accesses
//! copy.store(1, 7);
//! let seen = copy.load(1);                            // 7
//! copy.end(&mut planes, 0);
//! copy.begin(alloc, 1)?;
//! let next = copy.load(1);                            // 0: it sees no other iteration
//! copy.end(&mut planes, 1);
//! let last = copy.last_value(1);                      // Some(7)
//! ```
#![tactic(auto)]

mod clearing;
mod page;
mod pages;
pub mod private;
pub mod reduction;
pub mod store;
pub mod workspace;

ghost use Rattle.private_copy.specs.{CopyLaw.{AccessesFollow}, Reductions.{PartialIsCombination}};

pub use private::{MAX_ACCESSES, Private};
pub use reduction::Reduction;
pub use workspace::CopyWorkspace;

/// The law of partials: the partial of iterations at an element is what was combined there, where there
/// was one operator alone.
#[tactic(auto, using(crate::proofs::ReductionLaws::partial_is_combination))]
pub fn law_of_partials()
    ensures { PartialIsCombination }
{}

/// The law of accesses: a run's accesses, each by its effect, lead to a copy that records the
/// iteration with those accesses more.
#[tactic(auto, using(crate::proofs::FollowLaws::accesses_follow))]
pub fn law_of_accesses()
    ensures { AccessesFollow }
{}
