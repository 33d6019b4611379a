//! Planes of two disjoint sets of iterations, merged.

ghost use Rattle.std.specs.Prelude.{◌≡◌, ◌*◌, ◌<◌, ◌≤◌, length};
ghost use Rattle.shadow_marks.specs.Standing.{ArePlanes, AreFlowPlanes, EachPlane, test_of, words_for};
ghost use Rattle.lane_planes.specs.Merged.{IsMerge, MergedOperators, MergedLrpd, MergedFlow, MergedPages, NumbersFit};
ghost use Rattle.lane_planes.specs.Conflicts.{LrpdFit};

use crate::bits::{or_into, written_by_two_into};
use crate::indices::keep_into;
use crate::kept::Kept;
use crate::loading::{are_numbers, are_words};
use shadow_marks::{FlowPlanes, LrpdPlanes, OperatorPlanes, Planes, Tested};

/// Merges planes of other iterations into these, in vectors of N lanes. Both are for the same number of
/// elements and the same test.
pub fn merge<const N: usize>(into: &mut Planes, from: &Planes)
    requires lanes { (0 < N) × (N ≤ 64) }
    requires mine { ArePlanes into.old }
    requires theirs { ArePlanes from.now }
    requires elements { into.old.elements ≡ from.now.elements }
    requires test { test_of into.old.tested ≡ test_of from.now.tested }
    ensures { IsMerge into.old from.now into.new }
{
    have_numbers(&into.tested);
    have_numbers(&from.tested);
    merge_pages::<N>(into, from, 0, from.plain.len());
}

/// Merges the pages of 64 elements from one up to another, and no others.
pub(crate) fn merge_pages<const N: usize>(
    into: &mut Planes,
    from: &Planes,
    first: usize,
    past: usize,
)
    requires lanes { (0 < N) × (N ≤ 64) }
    requires mine { ArePlanes into.old }
    requires theirs { ArePlanes from.now }
    requires elements { into.old.elements ≡ from.now.elements }
    requires test { test_of into.old.tested ≡ test_of from.now.tested }
    requires start { 64 * first ≤ into.old.elements }
    requires order { first ≤ past }
    requires room { past ≤ words_for into.old.elements }
    ensures { MergedPages first past into.old from.now into.new }
{
    or_into::<N>(&mut into.plain, &from.plain, first, past);
    merge_operators::<N>(&mut into.operators, &from.operators, first, past);
    match &mut into.tested {
        Tested::Lrpd(mine) => {
            if let Tested::Lrpd(theirs) = &from.tested {
                merge_lrpd::<N>(mine, theirs, first, past);
            }
        }
        Tested::Flow(mine) => {
            if let Tested::Flow(theirs) = &from.tested {
                merge_flow::<N>(mine, theirs, first, past);
            }
        }
    }
}

/// Merges the planes of operators, which have as many words each.
fn merge_operators<const N: usize>(
    into: &mut OperatorPlanes,
    from: &OperatorPlanes,
    first: usize,
    past: usize,
)
    requires lanes { (0 < N) × (N ≤ 64) }
    requires mine { EachPlane (λ words. length words ≡ length from.now.add.items) into.old }
    requires theirs { EachPlane (λ words. length words ≡ length from.now.add.items) from.now }
    requires order { first ≤ past }
    requires room { past ≤ length from.now.add.items }
    ensures { MergedOperators first past into.old from.now into.new }
{
    or_into::<N>(&mut into.add, &from.add, first, past);
    or_into::<N>(&mut into.or, &from.or, first, past);
    or_into::<N>(&mut into.and, &from.and, first, past);
    or_into::<N>(&mut into.xor, &from.xor, first, past);
    or_into::<N>(&mut into.addh, &from.addh, first, past);
}

fn merge_lrpd<const N: usize>(into: &mut LrpdPlanes, from: &LrpdPlanes, first: usize, past: usize)
    requires lanes { (0 < N) × (N ≤ 64) }
    requires mine { LrpdFit into.old (length from.now.written.items) }
    requires theirs { LrpdFit from.now (length from.now.written.items) }
    requires order { first ≤ past }
    requires room { past ≤ length from.now.written.items }
    ensures { MergedLrpd first past into.old from.now into.new }
{
    written_by_two_into::<N>(
        &mut into.written_by_two,
        &from.written_by_two,
        &into.written,
        &from.written,
        first,
        past,
    );
    or_into::<N>(&mut into.written, &from.written, first, past);
    or_into::<N>(&mut into.read_only, &from.read_only, first, past);
    or_into::<N>(
        &mut into.read_and_written,
        &from.read_and_written,
        first,
        past,
    );
}

fn merge_flow<const N: usize>(into: &mut FlowPlanes, from: &FlowPlanes, first: usize, past: usize)
    requires lanes { (0 < N) × (N ≤ 64) }
    requires mine { AreFlowPlanes (length from.now.first.items) into.old }
    requires theirs { AreFlowPlanes (length from.now.first.items) from.now }
    requires start { 64 * first ≤ length from.now.first.items }
    requires order { first ≤ past }
    requires room { past ≤ words_for (length from.now.first.items) }
    ensures { MergedFlow first past into.old from.now into.new }
{
    keep_into::<N>(Kept::Lesser, &mut into.first, &from.first, first, past);
    keep_into::<N>(Kept::Greater, &mut into.last, &from.last, first, past);
}

/// Tells that the numbers and words of planes fit their types. Nothing is computed.
pub(crate) fn have_numbers(tested: &Tested)
    ensures { NumbersFit tested.now }
{
    match tested {
        Tested::Lrpd(planes) => {
            are_words(&planes.written);
            are_words(&planes.written_by_two);
            are_words(&planes.read_only);
            are_words(&planes.read_and_written);
        }
        Tested::Flow(planes) => {
            are_numbers(&planes.first);
            are_numbers(&planes.last);
        }
    }
}
