//! What the iterations of a speculative loop did, element by element: flags of the iteration under
//! way, and planes of marks of those that ended.
//!
//! ```text
//! let mut flags = IterFlags::try_new(alloc, 2)?;                  // of two elements
//! let mut planes = Planes::try_new(alloc, 2, Test::Flow)?;
//! flags.mark(1, Access::Write);
//! planes.end_iteration(&mut flags, index);                        // the iteration of this index wrote element 1
//! ```
#![tactic(auto)]

mod bits;
mod clearing;
mod element_flags;
mod ending;
pub mod iter_flags;
pub mod planes;

pub use bits::is_set;
pub use iter_flags::{IterFlags, MAX_MARKS};
pub use loop_core_model::{Access, Test};
pub use planes::{FlowPlanes, LrpdPlanes, NO_WRITER, OperatorPlanes, Planes, Tested};
