//! What is shown of a loop call that conflicts.

ghost use Rattle.std.specs.Prelude.{◌≡◌, ◌&&◌, IfOk};
ghost use Rattle.bpf_verify_sound.specs.Soundness.{OverApproximatesCall};
ghost use Rattle.loop_core_witness.specs.Breaks.{IsBreak};
ghost use Rattle.spec_run_explain.specs.Showing.{first_pair, is_conflict, Shows};

use array_maps::Maps;
use bpf_step::LoopCall;
use bpf_verify::Verified;
use loop_core_model::Verdict;
use loop_core_witness::{Cause, Focus, Grid, Place, counted_by, grid_of_loop};
use std::alloc::{AllocError, Global};

/// Whether a grid is shown of a loop: if one is wanted, and the loop conflicts.
pub(crate) fn is_shown(wanted: bool, verdict: Verdict) -> bool
    ensures { result ≡ (wanted && is_conflict verdict) }
{
    wanted && matches!(verdict, Verdict::Conflict { .. })
}

/// The pair of the first of some causes.
fn first_pair(causes: &[Cause]) -> Option<Focus>
    ensures { result ≡ first_pair causes.now }
{
    match causes.first().copied() {
        Some(cause) => Some(Focus {
            element: cause.element,
            first: cause.witness.writer.index,
            second: cause.witness.reader.index,
        }),
        None => None,
    }
}

/// The grid of a loop call's counted iterations around the pair of its first cause, if it is wanted.
pub(crate) fn grid_if(
    wanted: bool,
    alloc: Global,
    program: &Verified,
    call: &LoopCall,
    start: &Maps,
    broke: Option<Place>,
    causes: &[Cause],
) -> Result<Option<Grid>, AllocError>
    requires known { OverApproximatesCall program.now call.now }
    requires sizes { start.now.sizes ≡ program.now.sizes }
    requires broke { IsBreak program.now call.now start.now.words broke }
    ensures { IfOk result (Shows program.now call.now start.now.words causes.now wanted) }
{
    if !wanted {
        return Ok(None);
    }
    let count = counted_by(program, call, start, broke);
    let grid = grid_of_loop(alloc, program, call, start, count, first_pair(causes))?;
    Ok(Some(grid))
}
