//! Replays a loop of an accepted program: the program runs in order up to its first valid loop call, and that loop is
//! done as a list of events says.
//!
//! ```text
//! let program = verify(alloc, unit)?;                     // a loop of 8 iterations that adds its index
//! let maps = Maps::of(alloc, &[vec![in alloc; 5]?])?;
//! let (bounds, events) = parse_events(alloc, "bounds 0 8\nc0 l0 t0 t0 t0 t0 t0 t0 t0 t0 c0 s0\n")?;
//! let replayed = replay(alloc, &program, maps, 0, bounds, &events, Test::Flow)?;
//! // loop call 0, which answered 8 in parallel and left 5 + 0 + 1 + .. + 7
//! ```
#![tactic(auto)]

mod first_loop;
mod replaying;

pub use replaying::{NoReplay, ReplayRefusal, Replayed, replay};
