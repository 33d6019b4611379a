//! Planes merged and judged where they were touched.

ghost use Rattle.std.specs.Prelude.{◌≡◌, ◌+◌, ◌-◌, ◌*◌, ◌<◌, ◌≤◌, ℕ, min, length, slice_index};
ghost use Rattle.shadow_marks.specs.declared.planes.Tested.TheVariants.{Flow};
ghost use Rattle.shadow_marks.specs.Standing.{ArePlanes, test_of, words_for};
ghost use Rattle.lane_planes.specs.{Words.{FlowWords, HasBits, stands_at}, Merged.{IsMerge, StandForSome}};
ghost use Rattle.lane_planes.specs.Conflicts.{IsConflictPlane};

use crate::flow::flow_word;
use crate::judging::{failing_into, leave_conflicts};
use crate::merging::{have_numbers, merge_pages};
use shadow_marks::{FlowPlanes, Planes, Tested};

/// Merges planes of other iterations into these as `merge` does, but goes only over the pages of 64 elements that
/// those iterations touched: in any other page there is nothing to merge. Both are for the same number of elements
/// and the same test.
pub fn merge_touched<const N: usize>(into: &mut Planes, from: &Planes)
    requires lanes { (0 < N) × (N ≤ 64) }
    requires mine { ArePlanes into.old }
    requires theirs { StandForSome from.now }
    requires elements { into.old.elements ≡ from.now.elements }
    requires test { test_of into.old.tested ≡ test_of from.now.tested }
    ensures { IsMerge into.old from.now into.new }
{
    have_numbers(&into.tested);
    have_numbers(&from.tested);
    let mut page = 0;
    while page < from.plain.len() {
        if from.is_marked(page) {
            let past = touched_up_to(from, page + 1);
            merge_pages::<N>(into, from, page, past);
            page = past;
        } else {
            page += 1;
        }
    }
}

/// Writes which elements conflict as `conflicts` does, but looks for a first writer before a last reader only in the
/// pages of 64 elements that the planes' iterations touched: in any other page there is neither.
pub fn conflicts_touched<const N: usize>(planes: &Planes, into: &mut [u64])
    requires lanes { (0 < N) × (N ≤ 64) }
    requires stand { StandForSome planes.now }
    requires words { length into.old ≡ words_for planes.now.elements }
    ensures { IsConflictPlane planes.now into.new }
{
    match &planes.tested {
        Tested::Lrpd(_) => failing_into::<N>(&planes.tested, into),
        Tested::Flow(flow) => flow_where_touched::<N>(planes, flow, into),
    }
    leave_conflicts::<N>(planes, into);
}

/// Tells where the flow test of these planes fails, whether or not elements are reduction-only.
fn flow_where_touched<const N: usize>(planes: &Planes, flow: &FlowPlanes, into: &mut [u64])
    requires lanes { (0 < N) × (N ≤ 64) }
    requires stand { StandForSome planes.now }
    requires tested { planes.now.tested ≡ Flow flow.now }
    requires words { length into.old ≡ words_for planes.now.elements }
    ensures { FlowWords (length into.old) flow.now.first.items flow.now.last.items into.new }
{
    for page in 0..into.len() {
        into[page] = touched_word::<N>(planes, flow, page);
    }
}

/// The word of a page: a bit for each element, whether the flow test fails there.
#[inline(always)]
fn touched_word<const N: usize>(planes: &Planes, flow: &FlowPlanes, page: usize) -> u64
    requires lanes { (0 < N) × (N ≤ 64) }
    requires stand { StandForSome planes.now }
    requires tested { planes.now.tested ≡ Flow flow.now }
    requires within { page < words_for planes.now.elements }
    ensures { HasBits (min (length flow.now.first.items - 64 * page) 64) (λ k. stands_at flow.now.first.items
        flow.now.last.items (64 * page + k)) result }
{
    if planes.is_marked(page) {
        let from = 64 * page;
        let many = (flow.first.len() - from).min(64);
        flow_word::<N>(flow.first.as_slice(), flow.last.as_slice(), from, many)
    } else {
        0
    }
}

/// Where a run of touched pages ends that goes up to a page at least.
fn touched_up_to(planes: &Planes, page: usize) -> usize
    requires whole { ArePlanes planes.now }
    requires within { page ≤ words_for planes.now.elements }
    ensures order { page ≤ result }
    ensures within { result ≤ words_for planes.now.elements }
{
    let mut past = page;
    while past < planes.plain.len() && planes.is_marked(past) {
        past += 1;
    }
    past
}
