//! Surveying a loop in which elements conflict.

ghost use Rattle.std.specs.Prelude.{◌≡◌, ◌≤◌, IfOk, IfSome};
ghost use Rattle.bpf_verify_sound.specs.Soundness.{OverApproximatesCall};
ghost use Rattle.loop_core_witness.specs.Surveys.{IsStretch, IsSurvey};

use crate::conflicts::Conflicts;
use array_maps::Maps;
use bpf_step::LoopCall;
use bpf_verify::Verified;
use loop_core_model::Test;
use loop_core_witness::{Span, Stretch, Survey, block_of};
use std::alloc::{AllocError, Global};

/// The most stretches of a survey.
const MOST_STRETCHES: u32 = 512;

/// The fewest iterations of a stretch, but for the last one: each stretch keeps marks of its own.
const MIN_BATCHED_ITERATIONS: u32 = 256;

/// The stretch of a span of iterations, if none of them breaks the loop.
fn stretch_of(
    alloc: Global,
    program: &Verified,
    call: &LoopCall,
    start: &Maps,
    span: Span,
) -> Result<Option<Stretch>, AllocError>
    requires known { OverApproximatesCall program.now call.now }
    requires sizes { start.now.sizes ≡ program.now.sizes }
    requires rising { span.from ≤ span.past }
    requires within { span.past ≤ call.now.n }
    ensures { IfOk result (λ stretch. IfSome stretch (IsStretch program.now call.now start.now.words)) }
{
    let mut block = block_of(alloc, program, call, start, span, Test::Lrpd)?;
    if block.broke().is_some() {
        return Ok(None);
    }
    Ok(Some(Stretch {
        first: block.first(),
        past: block.past(),
        planes: block.take_planes(alloc),
    }))
}

/// Surveys the iterations of a loop call before the one that breaks it, for searches at the elements that conflict: of
/// none where no element does. Main of this program made the call, and the start maps are of the program's sizes.
pub fn survey_loop(
    alloc: Global,
    program: &Verified,
    call: &LoopCall,
    start: &Maps,
    conflicts: &Conflicts,
) -> Result<Survey, AllocError>
    requires known { OverApproximatesCall program.now call.now }
    requires sizes { start.now.sizes ≡ program.now.sizes }
    ensures { IfOk result (IsSurvey program.now call.now start.now.words) }
{
    let n = call.n();
    let past = if conflicts.least.is_empty() {
        0
    } else {
        conflicts.broke.unwrap_or(n)
    };
    let past = past.min(n);
    let size = MIN_BATCHED_ITERATIONS.max(past / MOST_STRETCHES + 1);
    let mut stretches = Vec::new(alloc);
    let mut first = 0;
    while first < past {
        let span = Span {
            from: first,
            past: first + size.min(past - first),
        };
        if let Some(stretch) = stretch_of(alloc, program, call, start, span)? {
            stretches.push(stretch)?;
        }
        first = span.past;
    }
    Ok(Survey { size, stretches })
}
