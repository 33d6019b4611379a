//! The replay of a list of events: the outcome of a speculative loop whose workers do what the list says, or the
//! first fault of a list that is no schedule.
//!
//! ```text
//! let split = Split::of(bounds, call.n())?;
//! let outcome = replay_loop(alloc, &program, &call, &maps, &split, &events, Test::Flow)?;
//! // outcome.verdict, outcome.answer and outcome.maps are the loop's; maps is as before
//! ```
//!
//! Where an event is a worker's turn, `Blocks::breaks` says whether that iteration breaks on the loop's start words.
//! `Workers::step` does the event, and `Blocks::end` takes the block that was run with it.
#![tactic(auto)]

mod blocks;
mod error;
mod moves;
mod replay;
mod replaying;
mod worker;
mod workers;

pub use error::ReplayError;
pub use loop_core_gather::LoopOutcome;
pub use loop_core_model::ReplayFault;
pub use replaying::replay_loop;
