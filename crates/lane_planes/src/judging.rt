//! The plane of conflicts.

ghost use Rattle.std.specs.Prelude.{◌≡◌, ◌<◌, ◌≤◌, length};
ghost use Rattle.shadow_marks.specs.Standing.{ArePlanes, words_for};
ghost use Rattle.lane_planes.specs.Conflicts.{IsConflictPlane, FailingWords, TestedFit};

use crate::conflict::{clear_reductions, lrpd_into};
use crate::flow::flow_into;
use crate::merging::have_numbers;
use shadow_marks::{Planes, Tested};

/// Writes which elements conflict, a bit for each, in vectors of N lanes: where the test of the planes
/// fails and the element isn't reduction-only. Bits past the last element are zero.
pub fn conflicts<const N: usize>(planes: &Planes, into: &mut [u64])
    requires lanes { (0 < N) × (N ≤ 64) }
    requires whole { ArePlanes planes.now }
    requires words { length into.old ≡ words_for planes.now.elements }
    ensures { IsConflictPlane planes.now into.new }
{
    failing_into::<N>(&planes.tested, into);
    leave_conflicts::<N>(planes, into);
}

/// Leaves which elements conflict, of those where the test of the planes fails.
pub(crate) fn leave_conflicts<const N: usize>(planes: &Planes, into: &mut [u64])
    requires lanes { (0 < N) × (N ≤ 64) }
    requires whole { ArePlanes planes.now }
    requires words { length into.old ≡ words_for planes.now.elements }
    requires failing { FailingWords planes.now.tested (length into.old) into.old }
    ensures { IsConflictPlane planes.now into.new }
{
    have_numbers(&planes.tested);
    clear_reductions::<N>(planes, into);
}

/// Writes where the test fails, whether or not elements are reduction-only.
pub(crate) fn failing_into<const N: usize>(tested: &Tested, into: &mut [u64])
    requires lanes { (0 < N) × (N ≤ 64) }
    requires fit { TestedFit tested.now (length into.old) }
    ensures { FailingWords tested.now (length into.old) into.new }
{
    match tested {
        Tested::Lrpd(planes) => lrpd_into::<N>(planes, into),
        Tested::Flow(planes) => flow_into::<N>(into, &planes.first, &planes.last),
    }
}
