//! Verdicts on loops before they run: slices of their iterations run, each on the start words, and are marked.

ghost use Rattle.std.specs.{Prelude.{◌≡◌, ℕ, ◌+◌, ◌≤◌, List, length, true, IfOk, IfSome}, List.{filter}};
ghost use Rattle.array_maps.specs.MapList.{AreWords};
ghost use Rattle.bpf_step_model.specs.Run.{Ended};
ghost use Rattle.bpf_verify_sound.specs.Soundness.{OverApproximatesCall};
ghost use Rattle.loop_core_model.specs.declared.loop_test.Test.TheVariants.{Flow as ByFlow};
ghost use Rattle.loop_core_model.specs.{Planes.{bit_of, elements_in_plane}, Report.{judged, verdict}};
ghost use Rattle.bpf_verify.specs.declared.callback_rows.CallbackRows.{CallbackRows};
ghost use Rattle.lane_planes.specs.Merged.{StandForSome};
ghost use Rattle.shadow_marks.specs.Standing.{ArePlanes, StandFor, no_visits, test_of};
ghost use Rattle.loop_inspector.specs.Inspections.{AreInspected, IsInspection, IsInspectionOf, IsVerdictAt, KeepsBits};

use crate::open::plane_of;
use crate::slice::{Slice, slice_of};
use crate::survey::survey_of;
use array_maps::{Maps, are_words};
use bpf_insn_types::results_fit;
use bpf_step::{LoopCall, law_of_plain_iterations};
use bpf_verify::{CallbackRows, Verified};
use bpf_verify_sound::{law_of_accepted_programs, law_of_accepted_runs};
use lane_planes::verdict_of;
use loop_core_model::{Test, Verdict, law_of_planes};
use loop_marks::LoopMarks;
use row_run::Batch;
use std::alloc::{AllocError, Global};

/// How many iterations run together.
const LANES: u32 = 512;

/// After how many iterations it is looked for the first time whether others can change the verdict.
const FIRST_LOOK: u32 = 1024;

/// What is known of a loop before it runs.
#[derive(Drop)]
pub(crate) struct Inspection {
    /// What its iterations run.
    pub slice: Slice,
    /// The elements at which they may conflict, a bit each.
    pub plane: Vec<u64>,
}

/// What is known of a loop of n iterations of a callback over so many elements, if it can be inspected. It fails where
/// memory runs out.
fn inspection_of(
    alloc: Global,
    rows: &CallbackRows,
    n: u32,
    elements: u32,
) -> Result<Option<Inspection>, AllocError>
    ensures { IfOk result (λ found. IfSome found (IsInspection rows.now n elements)) }
{
    let ops = rows.list.list.as_slice();
    let Some(survey) = survey_of(alloc, ops, n)? else {
        return Ok(None);
    };
    let plane = plane_of(alloc, survey.spans.as_slice(), elements)?;
    match slice_of(
        alloc,
        &rows.list,
        survey.sites.as_slice(),
        survey.spans.as_slice(),
    )? {
        None => Ok(None),
        Some(slice) => Ok(Some(Inspection { slice, plane })),
    }
}

/// Clears the bits of a plane that another hasn't.
fn keep_bits(plane: &mut [u64], others: &[u64])
    ensures { KeepsBits others.now plane.old plane.new }
{
    for k in 0..plane.len() {
        let word = if k < others.len() { others[k] } else { 0 };
        plane[k] &= word;
    }
}

/// The verdict that a plane of conflicts is.
fn judge(plane: &[u64]) -> Verdict
    requires few { length plane.now ≤ 1024 }
    ensures { result ≡ judged (elements_in_plane plane.now) }
{
    law_of_planes();
    are_words(plane);
    verdict_of(plane)
}

/// The verdict that a plane of conflicts is at the elements of another. Its other bits are cleared.
fn judge_at(plane: &mut [u64], others: &[u64]) -> Verdict
    requires few { length plane.old ≤ 1024 }
    ensures { result ≡ judged (filter (bit_of others.now) (elements_in_plane plane.old)) }
{
    keep_bits(plane, others);
    judge(plane)
}

/// How many elements conflict by a verdict.
fn conflicts_in(found: Verdict) -> u32
    ensures { (elements : List ℕ) → found ≡ judged elements → result ≡ length elements }
{
    match found {
        Verdict::Conflict { count, .. } => count,
        _ => 0,
    }
}

impl Inspection {
    /// Marks what so many iterations from an index on do at open elements, each on these maps. `false` where one may
    /// return 1, or they can't be run or marked so.
    fn mark_batch(
        &self,
        batch: &mut Batch,
        index: u32,
        lanes: u32,
        program: &Verified,
        call: &LoopCall,
        maps: &Maps,
        marks: &mut LoopMarks,
    ) -> bool
        requires known { OverApproximatesCall program.now call.now }
        requires is { IsInspectionOf program.now call.now (length maps.now.words) self.now }
        requires sizes { maps.now.sizes ≡ program.now.sizes }
        requires room { lanes ≤ 512 }
        requires within { index + lanes ≤ call.now.n }
        requires elements { marks.old.planes.elements ≡ length maps.now.words }
        requires whole { ArePlanes marks.old.planes }
        ensures elements { marks.new.planes.elements ≡ marks.old.planes.elements }
        ensures test { test_of marks.new.planes.tested ≡ test_of marks.old.planes.tested }
        ensures marked { result ≡ true
            → AreInspected program.now call.now maps.now.words self.now.plane.items index marks.old.planes
            → AreInspected program.now call.now maps.now.words self.now.plane.items (index + lanes) marks.new.planes }
    {
        results_fit();
        law_of_plain_iterations();
        law_of_accepted_runs();
        law_of_accepted_programs();
        // For the proof: the program is accepted, and the maps have as many words as their sizes add up to, each below 2^64.
        let _unit = program.unit();
        let _sizes = maps.sizes();
        let frame = call.frame();
        let ran = batch.run(
            &self.slice.list,
            &self.slice.sites,
            index,
            lanes as usize,
            frame,
            maps.words(),
        );
        let Some(count) = ran else {
            return false;
        };
        if count < lanes as usize {
            return false;
        }
        marks.mark_lanes(batch.sites(), batch.lanes(), lanes, index)
    }

    /// The same of the iterations from one up to another.
    fn mark_range(
        &self,
        batch: &mut Batch,
        from: u32,
        to: u32,
        program: &Verified,
        call: &LoopCall,
        maps: &Maps,
        marks: &mut LoopMarks,
    ) -> bool
        requires known { OverApproximatesCall program.now call.now }
        requires is { IsInspectionOf program.now call.now (length maps.now.words) self.now }
        requires sizes { maps.now.sizes ≡ program.now.sizes }
        requires rising { from ≤ to }
        requires within { to ≤ call.now.n }
        requires elements { marks.old.planes.elements ≡ length maps.now.words }
        requires marked { AreInspected program.now call.now maps.now.words self.now.plane.items from marks.old.planes }
        ensures elements { marks.new.planes.elements ≡ marks.old.planes.elements }
        ensures test { test_of marks.new.planes.tested ≡ test_of marks.old.planes.tested }
        ensures marked { result ≡ true
            → AreInspected program.now call.now maps.now.words self.now.plane.items to marks.new.planes }
    {
        let mut index = from;
        while index < to {
            let lanes = LANES.min(to - index);
            if !self.mark_batch(batch, index, lanes, program, call, maps, marks) {
                return false;
            }
            index += lanes;
        }
        true
    }

    /// The verdict that marks give at open elements.
    fn verdict_by(&self, alloc: Global, marks: &LoopMarks) -> Result<Verdict, AllocError>
        requires stand { StandForSome marks.now.planes }
        requires few { marks.now.planes.elements ≤ 65536 }
        ensures { IfOk result (IsVerdictAt self.now.plane.items marks.now.planes) }
    {
        let mut conflicts = marks.conflicts(alloc)?;
        Ok(judge_at(conflicts.as_mut_slice(), self.plane.as_slice()))
    }

    /// The verdict on the loop by marks for so many elements: it is known once all iterations are marked, or all open
    /// elements conflict.
    #[inline(never)]
    fn verdict(
        &self,
        alloc: Global,
        program: &Verified,
        call: &LoopCall,
        maps: &Maps,
        marks: &mut LoopMarks,
    ) -> Result<Option<Verdict>, AllocError>
        requires known { OverApproximatesCall program.now call.now }
        requires is { IsInspectionOf program.now call.now (length maps.now.words) self.now }
        requires sizes { maps.now.sizes ≡ program.now.sizes }
        requires few { length maps.now.words ≤ 65536 }
        requires elements { marks.old.planes.elements ≡ length maps.now.words }
        requires test { test_of marks.old.planes.tested ≡ ByFlow }
        requires none { StandFor marks.old.planes no_visits }
        ensures { IfOk result (λ found. IfSome found (λ v. verdict ByFlow program.now 4096 call.now maps.now.words
            ≡ Ended v)) }
    {
        results_fit();
        law_of_plain_iterations();
        law_of_accepted_runs();
        law_of_accepted_programs();
        // For the proof: the program is accepted, and the maps have as many words as their sizes add up to, each below 2^64.
        let _unit = program.unit();
        let _sizes = maps.sizes();
        let _words = maps.words();
        let _frame = call.frame();
        let most = conflicts_in(judge(self.plane.as_slice()));
        // An iteration accesses at most an element a site: before so many, not all open elements can conflict.
        let sites = self.slice.sites.sites.len() as u32;
        let mut batch = Batch::new(alloc);
        batch.make_room(&self.slice.list, &self.slice.sites)?;
        let n = call.n();
        let mut index = 0;
        let mut look = FIRST_LOOK;
        while index < n {
            let to = look.min(n);
            if !self.mark_range(&mut batch, index, to, program, call, maps, marks) {
                return Ok(None);
            }
            index = to;
            look = look.saturating_mul(2);
            if index < n && most <= index.saturating_mul(sites) {
                let found = self.verdict_by(alloc, marks)?;
                if conflicts_in(found) == most {
                    return Ok(Some(found));
                }
            }
        }
        Ok(Some(self.verdict_by(alloc, marks)?))
    }
}

/// The verdict by the flow test on a loop call that main of this program made, from these maps, which are of the
/// program's sizes. `None` where it isn't known: the callback has no list, or an iteration returns 1, or goes on with
/// what it may have left itself. It fails where memory runs out.
pub fn inspect(
    alloc: Global,
    program: &Verified,
    call: &LoopCall,
    maps: &Maps,
) -> Result<Option<Verdict>, AllocError>
    requires known { OverApproximatesCall program.now call.now }
    requires sizes { maps.now.sizes ≡ program.now.sizes }
    ensures { IfOk result (λ found. IfSome found (λ v. verdict ByFlow program.now 4096 call.now maps.now.words
        ≡ Ended v)) }
{
    // For the proof: the maps have at most 65,536 words.
    let _sizes = maps.sizes();
    let Some(rows) = program.rows(call.callback()) else {
        return Ok(None);
    };
    let elements = maps.words().len() as u32;
    let Some(inspection) = inspection_of(alloc, rows, call.n(), elements)? else {
        return Ok(None);
    };
    let mut marks = LoopMarks::try_new(alloc, elements, Test::Flow)?;
    inspection.verdict(alloc, program, call, maps, &mut marks)
}
