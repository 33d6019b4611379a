//! Loops of accepted programs: split into blocks, run block by block on the start maps, gathered, replayed from a list
//! of events, and run in order. The crates below, of which all calls are offered here, have the definitions and the
//! code.
//!
//! ```text
//! let split = Split::of(vec![in alloc; 0, 4, 8]?, call.n())?; // a loop of 8 iterations that adds its index
//! let first = run_block(alloc, &program, &call, &maps, &split, 0, &NoGate, Test::Flow)?;
//! let second = run_block(alloc, &program, &call, &maps, &split, 1, &NoGate, Test::Flow)?;
//! let blocks = vec![in alloc; first, second]?;
//! let gathered = gather(alloc, &program, &call, &maps, &split, blocks, Test::Flow)?;
//! // gathered.verdict() is Verdict::Parallel, gathered.answer() 8, and gathered.element(0) what the loop leaves there
//! let pages = gathered.left_pages(alloc)?;
//! drop(gathered);                                                         // it borrowed the maps
//! let mut ordered = maps.try_copy(alloc)?;
//! let answer = in_order(&program, &call, &mut ordered);                   // 8 too
//! store_pages(&mut maps, &pages);                                         // the maps are as those in order
//! ```
#![tactic(auto)]

pub use loop_core_block::{Block, BlockWorkspace, SpeculativeLoop, run_block};
pub use loop_core_gather::{
    GatherError, GatherFault, Gathered, LeftPage, LoopOutcome, commit_or_rerun, gather, store_pages,
};
pub use loop_core_model::{Event, EventKind, Test, Verdict};
pub use loop_core_replay::{ReplayError, ReplayFault, replay_loop};
pub use loop_core_sequential::in_order;
pub use loop_core_split::{Gate, NoGate, Split, SplitError};
