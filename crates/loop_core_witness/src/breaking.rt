//! Finding the iteration that breaks a loop.

ghost use Rattle.std.specs.Prelude.{◌≡◌, IfOk};
ghost use Rattle.bpf_verify_sound.specs.Soundness.{OverApproximatesCall};
ghost use Rattle.loop_core_model.specs.LeastBreak.{least_break};
ghost use Rattle.loop_core_witness.specs.Breaks.{IsBreak};

use crate::place::Place;
use array_maps::Maps;
use bpf_step::LoopCall;
use bpf_verify::Verified;
use loop_core_trace::trace_iteration;
use std::alloc::{AllocError, Global};

/// The iteration that breaks a loop call which main of this program made, each run on the start maps: the least index
/// at which one returns 1, which is given, and the slot at which it returns. `None` where none breaks. The start maps
/// are of the program's sizes.
pub fn find_break(
    alloc: Global,
    program: &Verified,
    call: &LoopCall,
    start: &Maps,
    least: Option<u32>,
) -> Result<Option<Place>, AllocError>
    requires known { OverApproximatesCall program.now call.now }
    requires sizes { start.now.sizes ≡ program.now.sizes }
    requires least { least ≡ least_break program.now 4096 call.now start.now.words }
    ensures broke { IfOk result (IsBreak program.now call.now start.now.words) }
{
    let Some(index) = least else {
        return Ok(None);
    };
    let mut maps = start.try_copy(alloc)?;
    let trace = trace_iteration(alloc, program, call, &mut maps, index, 0)?;
    Ok(Some(Place {
        index,
        slot: trace.exit,
    }))
}
