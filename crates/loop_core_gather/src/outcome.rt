//! The outcome of a gathered loop.

ghost use Rattle.std.specs.Prelude.{◌≡◌, IfOk};
ghost use Rattle.bpf_verify_sound.specs.Soundness.{OverApproximatesCall};
ghost use Rattle.loop_core_gather.specs.Gathered.{HasOutcome, IsOutcome};

use crate::decision::{Decision, LoopOutcome};
use crate::gathered::Gathered;
use array_maps::Maps;
use bpf_step::LoopCall;
use bpf_verify::Verified;
use loop_core_model::{Test, Verdict};
use std::alloc::{AllocError, Global};

/// The outcome of a loop call that main of this program made, and whose blocks were gathered for this test: after a
/// pass, what the blocks give; else the loop is run in order on a copy of the start maps. These are of the program's
/// sizes, and don't change.
#[tactic(auto, using(crate::proofs::PassLaws::passes_so))]
pub fn commit_or_rerun(
    alloc: Global,
    program: &Verified,
    call: &LoopCall,
    start: &Maps,
    gathered: &Gathered,
    test: Test,
) -> Result<LoopOutcome, AllocError>
    requires known { OverApproximatesCall program.now call.now }
    requires sizes { start.now.sizes ≡ program.now.sizes }
    requires outcome { HasOutcome test program.now call.now start.now.words gathered.now }
    ensures { IfOk result (λ o. IsOutcome test program.now call.now start.now o.verdict o.answer o.maps) }
{
    let decision = match gathered.verdict() {
        Verdict::Parallel => Decision::Commit {
            answer: gathered.answer(),
            pages: gathered.left_pages(alloc)?,
        },
        verdict => Decision::Discard { verdict },
    };
    decision.apply_to_copy(alloc, program, call, start, test)
}
