//! Finding the elements of a loop that conflict.

ghost use Rattle.std.specs.Prelude.{◌≡◌, None, IfOk};
ghost use Rattle.bpf_verify_sound.specs.Soundness.{OverApproximatesCall};
ghost use Rattle.spec_run_explain.specs.Conflicting.{AreConflicts};

use crate::conflicts::Conflicts;
use crate::listing::least_elements;
use array_maps::Maps;
use bpf_step::LoopCall;
use bpf_verify::Verified;
use lane_planes::{conflict_plane, verdict_of};
use loop_core_block::run_block;
use loop_core_model::Test;
use loop_core_split::{NoGate, Split};
use std::alloc::{AllocError, Global};

/// The verdict by a test on a loop call that main of this program made, where it breaks, and the least elements that
/// conflict: at most `most`, rising. Its iterations run on the start maps, which are of the program's sizes and don't
/// change, up to the first that breaks.
#[tactic(auto, using(crate::proofs::ListLaws::one_block))]
pub fn find_conflicts(
    alloc: Global,
    program: &Verified,
    call: &LoopCall,
    start: &Maps,
    test: Test,
    most: u32,
) -> Result<Conflicts, AllocError>
    requires known { OverApproximatesCall program.now call.now }
    requires sizes { start.now.sizes ≡ program.now.sizes }
    ensures { IfOk result (AreConflicts test program.now call.now start.now.words most) }
{
    // For the proof: there are at most 65,536 words.
    let _words = start.words();
    let Ok(split) = Split::even(call.n(), 1) else {
        unreachable!()
    };
    let block = run_block(alloc, program, call, start, &split, 0, &NoGate, test)?;
    let plane = conflict_plane(alloc, block.planes())?;
    let least = least_elements(alloc, plane.as_slice(), most)?;
    Ok(Conflicts {
        verdict: verdict_of(plane.as_slice()),
        broke: block.broke(),
        least,
    })
}
