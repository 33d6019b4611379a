//! Finding the access by which an element isn't reduction-only.

ghost use Rattle.std.specs.Prelude.{◌≡◌, IfOk};
ghost use Rattle.bpf_verify_sound.specs.Soundness.{OverApproximatesCall};
ghost use Rattle.loop_core_witness.specs.{Breaks.{IsBreak}, Reductions.{operator_after, end_slot, HasEnd}};
ghost use Rattle.loop_core_witness.specs.Surveys.{IsSurvey};

use crate::counting::counted_by;
use crate::finding::Search;
use crate::place::Place;
use crate::survey::Survey;
use array_maps::{Maps, Op};
use bpf_step::LoopCall;
use bpf_verify::Verified;
use loop_core_trace::{FirstReduce, Slots, trace_iteration};
use std::alloc::{AllocError, Global};

/// The operator of the reduces so far, after an iteration that begins with this one.
fn operator_after(op: Option<Op>, first: Option<FirstReduce>) -> Option<Op>
    ensures { result ≡ operator_after op first }
{
    match (op, first) {
        (None, Some(reduce)) => Some(reduce.op),
        _ => op,
    }
}

/// The slot at which an iteration ends a reduction by an operator.
fn end_slot(op: Option<Op>, slots: Slots) -> Option<u32>
    ensures { result ≡ end_slot op slots.reduce slots.other }
{
    match (op, slots.reduce) {
        (Some(kept), Some(first)) if kept != first.op => Some(first.slot),
        _ => slots.other,
    }
}

/// The access by which an element isn't reduction-only: of the counted iterations of a loop call that main of this
/// program made, each run on the start maps, the first access of the element that isn't a reduce by the operator of the
/// first one. `None` if the element is reduction-only, or isn't accessed. The start maps are of the program's sizes,
/// `broke` is what `find_break` returned for them, and the survey is of the call on them.
pub fn find_end_of_reduction(
    alloc: Global,
    program: &Verified,
    call: &LoopCall,
    start: &Maps,
    element: u32,
    broke: Option<Place>,
    survey: &Survey,
) -> Result<Option<Place>, AllocError>
    requires known { OverApproximatesCall program.now call.now }
    requires sizes { start.now.sizes ≡ program.now.sizes }
    requires broke { IsBreak program.now call.now start.now.words broke }
    requires survey { IsSurvey program.now call.now start.now.words survey.now }
    ensures end { IfOk result (HasEnd program.now call.now start.now.words element) }
{
    let search = Search {
        alloc,
        program,
        call,
        start,
        element,
        count: counted_by(program, call, start, broke),
        survey,
    };
    let mut maps = start.try_copy(alloc)?;
    let mut op = None;
    let mut index = 0;
    while index < search.count {
        let next = search.skip_quiet(op, index).min(search.count);
        if index < next {
            index = next;
            continue;
        }
        let trace = trace_iteration(alloc, program, call, &mut maps, index, element)?;
        if let Some(slot) = end_slot(op, trace.slots) {
            return Ok(Some(Place { index, slot }));
        }
        op = operator_after(op, trace.slots.reduce);
        index += 1;
    }
    Ok(None)
}
