//! Marks of a loop's iterations.

ghost use Rattle.std.specs.{Prelude.{◌≡◌, ◌+◌, ◌≤◌, true, false, length, IfOk}, List.{All}};
ghost use Rattle.lane_stamps.specs.Sites.{HasRows, IsWithin, log_of, shown};
ghost use Rattle.shadow_marks.specs.{Ending.{KeepsShape}, Standing.{ArePlanes, StandFor, no_visits, test_of}};

use crate::by_site::mark_site;
use crate::comparing::are_unseen;
use lane_planes::conflict_plane;
use lane_stamps::{Lanes, Site};
use loop_core_model::Test;
use shadow_marks::Planes;
use std::alloc::{AllocError, Global};

/// What the iterations of a loop did, by their indexes, at each of n elements. All room is made once.
#[derive(Drop)]
pub struct LoopMarks {
    /// The marks of iterations that ended.
    pub(crate) planes: Planes,
}

impl LoopMarks {
    ghost use Rattle.lane_planes.specs.Merged.{StandForSome};
    ghost use Rattle.array_maps.specs.MapList.{AreWords};
    ghost use Rattle.loop_marks.specs.LaneMarks.{AreConflicts, LanesMarked};

    /// Marks of no iteration, for n elements and a test. It fails only for want of memory.
    pub fn try_new(alloc: Global, elements: u32, test: Test) -> Result<LoopMarks, AllocError>
        ensures elements { IfOk result (λ marks. marks.planes.elements ≡ elements) }
        ensures test { IfOk result (λ marks. test_of marks.planes.tested ≡ test) }
        ensures none { IfOk result (λ marks. StandFor marks.planes no_visits) }
    {
        Ok(LoopMarks {
            planes: Planes::try_new(alloc, elements, test)?,
        })
    }

    /// The elements that conflict by these marks, of at most 65,536, a bit each. It fails only for want of memory.
    pub fn conflicts(&self, alloc: Global) -> Result<Vec<u64>, AllocError>
        requires stand { StandForSome self.now.planes }
        requires few { self.now.planes.elements ≤ 65536 }
        ensures few { IfOk result (λ plane. length plane.items ≤ 1024) }
        ensures words { IfOk result (λ plane. AreWords plane.items) }
        ensures elements { IfOk result (λ plane. AreConflicts self.now.planes plane.items) }
    {
        conflict_plane(alloc, &self.planes)
    }

    /// Marks what the first lanes of a batch did: they are the iterations from an index on, up to which marks were
    /// made. `false` if they can't be marked site by site: the test isn't Flow, or a lane looks where it stored before
    /// it ever looked. Then the marks are as before.
    pub fn mark_lanes(
        &mut self,
        sites: &[Site],
        of_lanes: Lanes<'_>,
        lanes: u32,
        index: u32,
    ) -> bool
        requires whole { ArePlanes self.old.planes }
        requires room { lanes ≤ 512 }
        requires indexes { index + lanes ≤ 4294967295 }
        requires rows { All (HasRows (shown of_lanes)) sites.now }
        requires within { All (IsWithin self.old.planes.elements lanes (shown of_lanes)) sites.now }
        ensures shape { KeepsShape self.old.planes self.new.planes }
        ensures marked { result ≡ true → LanesMarked (log_of sites.now (shown of_lanes.entry)) index lanes
            self.old.planes self.new.planes }
        ensures kept { result ≡ false → self.new ≡ self.old }
    {
        if matches!(self.planes.test(), Test::Lrpd) || !are_unseen(sites, of_lanes, lanes) {
            return false;
        }
        // The last site goes first: what is left there most often covers what was loaded before.
        let mut at = sites.len();
        while at > 0 {
            at -= 1;
            let (site, others) = (&sites[at], &sites[at + 1..]);
            mark_site(&mut self.planes, site, others, of_lanes, lanes, index);
        }
        true
    }
}
