//! Loops whose iterations never conflict by the flow test. It is known before they run, whatever the words of the maps
//! are. Such a loop is run in order, and nothing is watched or marked.

ghost use Rattle.std.specs.Prelude.{◌≡◌, true, IfOk};
ghost use Rattle.bpf_verify_sound.specs.Soundness.{OverApproximatesCall};
ghost use Rattle.loop_inspector.specs.Independent.{AlwaysPasses};

use crate::survey::survey_of;
use bpf_insn_types::results_fit;
use bpf_step::{LoopCall, law_of_plain_iterations};
use bpf_verify::Verified;
use bpf_verify_sound::{law_of_accepted_programs, law_of_accepted_runs};
use std::alloc::{AllocError, Global};

/// Whether it is known of a loop call that main of this program made that it passes by the flow test, on any words of
/// the maps. It fails where memory runs out.
pub fn is_independent(
    alloc: Global,
    program: &Verified,
    call: &LoopCall,
) -> Result<bool, AllocError>
    requires { OverApproximatesCall program.now call.now }
    ensures { IfOk result (λ found. found ≡ true → AlwaysPasses program.now call.now) }
{
    results_fit();
    law_of_plain_iterations();
    law_of_accepted_runs();
    law_of_accepted_programs();
    // The program is accepted.
    let _unit = program.unit();
    // The frame that iterations see.
    let _frame = call.frame();
    let Some(rows) = program.rows(call.callback()) else {
        return Ok(false);
    };
    let ops = rows.list.list.as_slice();
    let Some(survey) = survey_of(alloc, ops, call.n())? else {
        return Ok(false);
    };
    Ok(survey.spans.is_empty())
}
