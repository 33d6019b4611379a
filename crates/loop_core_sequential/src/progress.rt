//! How far a loop ran in order, and the rest of it.

ghost use Rattle.std.specs.Prelude.{◌≡◌};
ghost use Rattle.bpf_verify_sound.specs.Soundness.{OverApproximatesCall};
ghost use Rattle.loop_core_sequential.specs.{Loops.{RanLoopInOrder}, Dependences.{IsAhead}};

use crate::ordering::{answer, range_in_order};
use array_maps::Maps;
use bpf_step::LoopCall;
use bpf_verify::Verified;
use loop_core_undo::UndoLog;

/// How far a loop ran in order.
#[derive(Clone, Copy)]
pub struct Progress {
    /// How many of its iterations ran.
    pub done: u32,
    /// Whether the last of them returned 1, after which none runs.
    pub broke: bool,
}

/// Runs the rest of a loop call that `in_order_watched` stopped, in order, and gives the loop's answer: how many
/// iterations ran. The maps and the log are as it left them; what the log has is the maps after the progress that it
/// gave.
pub fn resume_in_order(
    program: &Verified,
    call: &LoopCall,
    progress: Progress,
    log: &mut UndoLog,
    maps: &mut Maps,
) -> u32
    requires known { OverApproximatesCall program.now call.now }
    requires sizes { maps.old.sizes ≡ program.now.sizes }
    requires ahead { IsAhead program.now call.now maps.old log.old progress }
    ensures { RanLoopInOrder program.now call.now maps.old maps.new result }
{
    log.restore(maps);
    if progress.broke {
        return progress.done;
    }
    let n = call.n();
    answer(range_in_order(program, call, progress.done, n, maps), n)
}
