//! Loops in order: all iterations of a loop call on one thread, each on the maps that the one before left.
//! Iterations that may go together do, up to 512 at a time. A loop may be watched while it runs so: where no iteration
//! reads what an earlier one wrote, it is known to pass by the flow test; else it can go on from there.
#![tactic(auto)]

mod applying;
mod batch_run;
mod batches;
mod loop_run;
mod noting;
mod one_by_one;
mod ordering;
mod progress;
mod watched_loop;
mod watching;

ghost use Rattle.loop_core_sequential.specs.FilledCalls.{FilledCallsAreOneLoop};

use bpf_verify_sound::{law_of_accepted_programs, law_of_accepted_runs};
pub use ordering::{in_order, range_in_order};
pub use progress::{Progress, resume_in_order};
pub use watched_loop::{WatchedLoop, in_order_watched};

/// The law of filled calls: a call that main made, and the same call with its frame filled, as `Main::next` gives it,
/// are one loop. They come to the same in order, by the verdict, by the outcome and by any list of events.
pub fn law_of_filled_calls()
    ensures { FilledCallsAreOneLoop }
{
    law_of_accepted_runs();
    law_of_accepted_programs();
}
