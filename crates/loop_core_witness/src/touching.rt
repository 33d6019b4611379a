//! Which elements iterations access.

ghost use Rattle.std.specs.Prelude.{◌≡◌, ◌≤◌, IfOk};
ghost use Rattle.bpf_verify_sound.specs.Soundness.{OverApproximatesCall};
ghost use Rattle.loop_core_block.specs.{Ran.{RecordsRun}, Shown.{shown}};
ghost use Rattle.shadow_marks.specs.Standing.{ArePlanes};
ghost use Rattle.loop_core_witness.specs.Touching.{AreTouched, marked_by};

use crate::choosing::Span;
use crate::survey::does_more;
use array_maps::Maps;
use bpf_step::LoopCall;
use bpf_verify::Verified;
use loop_core_block::{Block, run_block};
use loop_core_model::Test;
use loop_core_split::{NoGate, Split};
use shadow_marks::Planes;
use std::alloc::{AllocError, Global};

/// What the iterations of a span of a loop call that main of this program made do, up to the first that breaks; each
/// runs on the start maps, which are of the program's sizes. The planes are for this test.
#[tactic(auto, using(crate::proofs::SpanLaws::no_fault))]
pub fn block_of<'a>(
    alloc: Global,
    program: &Verified,
    call: &LoopCall,
    start: &'a Maps,
    span: Span,
    test: Test,
) -> Result<Block<'a>, AllocError>
    requires known { OverApproximatesCall program.now call.now }
    requires sizes { start.now.sizes ≡ program.now.sizes }
    requires rising { span.from ≤ span.past }
    requires within { span.past ≤ call.now.n }
    ensures first { IfOk result (λ b. (shown b).first ≡ span.from) }
    ensures past { IfOk result (λ b. (shown b).past ≡ span.past) }
    ensures ran { IfOk result (λ b. RecordsRun test program.now call.now start.now.words (shown b)) }
{
    let n = call.n();
    let mut bounds = Vec::new(alloc);
    bounds.extend_from_slice(&[0, span.from, span.past, n])?;
    let Ok(split) = Split::of(bounds, n) else {
        unreachable!()
    };
    run_block(alloc, program, call, start, &split, 1, &NoGate, test)
}

/// The elements that the planes of one of two blocks mark as accessed, rising.
fn marked_elements(alloc: Global, lower: &Planes, upper: &Planes) -> Result<Vec<u32>, AllocError>
    requires lower { ArePlanes lower.now }
    requires upper { ArePlanes upper.now }
    requires same { lower.now.elements ≡ upper.now.elements }
    ensures { IfOk result (λ elements. elements.items ≡ marked_by lower.now upper.now) }
{
    let mut elements = Vec::new(alloc);
    for element in 0..lower.elements {
        if does_more(lower, None, element) || does_more(upper, None, element) {
            elements.push(element)?;
        }
    }
    Ok(elements)
}

/// The elements that the iterations of two spans access, rising: of each span those up to the first that breaks. The
/// start maps are of the program's sizes.
pub(crate) fn touched_elements(
    alloc: Global,
    program: &Verified,
    call: &LoopCall,
    start: &Maps,
    lower: Span,
    upper: Span,
) -> Result<Vec<u32>, AllocError>
    requires known { OverApproximatesCall program.now call.now }
    requires sizes { start.now.sizes ≡ program.now.sizes }
    requires rising { lower.from ≤ lower.past }
    requires within { lower.past ≤ call.now.n }
    requires upper_rising { upper.from ≤ upper.past }
    requires upper_within { upper.past ≤ call.now.n }
    ensures { IfOk result (λ elements.
        AreTouched program.now call.now start.now.words lower upper elements.items) }
{
    let below = block_of(alloc, program, call, start, lower, Test::Flow)?;
    let above = block_of(alloc, program, call, start, upper, Test::Flow)?;
    marked_elements(alloc, below.planes(), above.planes())
}
