//! Iterations of a loop in order that are done together.

ghost use Rattle.std.specs.Prelude.{◌≡◌, ◌+◌, ◌<◌, ◌≤◌, ◌^◌, IfSome};
ghost use Rattle.bpf_verify.specs.Rows.{LeavesRowsAt};
ghost use Rattle.row_facts.specs.Lists.{AreListSites};
ghost use Rattle.loop_core_sequential.specs.{Lanes.{RanTogether}, LoopRuns.{IsLoopRun}, Rests.{RanOn}};

use crate::applying::FirstLanes;
use crate::batches::Batches;
use crate::loop_run::LoopRun;
use array_maps::Maps;
use bpf_step::law_of_plain_iterations;
use bpf_verify_sound::{law_of_accepted_programs, law_of_accepted_runs};
use loop_core_model::law_of_batches;
use row_facts::ListSites;
use row_list::RowList;

impl Batches {
    /// Does iterations from an index on together, no more than up to another, as many as are the loop in order so.
    /// Gives the index after them.
    pub(crate) fn run_batch(
        &mut self,
        run: &LoopRun<'_>,
        list: &RowList,
        sites: &ListSites,
        index: u32,
        to: u32,
        maps: &mut Maps,
    ) -> u32
        requires ready { IsLoopRun run.now }
        requires rows { LeavesRowsAt run.now.program.now run.now.call.now.callback list.now sites.now }
        requires below { index < to }
        requires within { to ≤ run.now.call.now.n }
        requires sizes { maps.old.sizes ≡ run.now.program.now.sizes }
        ensures within { result ≤ to }
        ensures alone { result ≡ index → 0 < self.new.alone }
        ensures went { RanOn run.now.program.now run.now.call.now index result maps.old maps.new }
    {
        let lanes = self.lanes.min(to - index);
        let count = self.go_together(run, list, sites, index, lanes, maps);
        self.pace(count, lanes);
        index + count
    }

    /// Does the first of so many iterations from an index on together, as many as are the loop in order so. Gives how
    /// many they are.
    fn go_together(
        &mut self,
        run: &LoopRun<'_>,
        list: &RowList,
        sites: &ListSites,
        index: u32,
        lanes: u32,
        maps: &mut Maps,
    ) -> u32
        requires ready { IsLoopRun run.now }
        requires rows { LeavesRowsAt run.now.program.now run.now.call.now.callback list.now sites.now }
        requires room { lanes ≤ 512 }
        requires within { index + lanes ≤ run.now.call.now.n }
        requires sizes { maps.old.sizes ≡ run.now.program.now.sizes }
        ensures few { result ≤ lanes }
        ensures went { RanOn run.now.program.now run.now.call.now index (index + result) maps.old maps.new }
    {
        law_of_batches();
        law_of_plain_iterations();
        law_of_accepted_runs();
        law_of_accepted_programs();
        // For the proof: the program is accepted, and the maps have as many words as their sizes add up to.
        let _unit = run.program.unit();
        let _sizes = maps.sizes();
        let _words = maps.words();
        let frame = run.call.frame();
        let Some(count) = self.ran_together(list, sites, index, lanes, frame, maps) else {
            return 0;
        };
        let first = FirstLanes {
            batch: &self.batch,
            lanes: count as usize,
        };
        maps.change(&first);
        count
    }

    /// Runs a list for so many iterations from an index on, each on the words of the maps, which stay as they are. Gives
    /// how many of them, from the first on, return 0 and load nothing that one before them, or they themselves, left.
    /// `None` if they can't be run so. The sites are those of the list.
    pub(crate) fn ran_together(
        &mut self,
        list: &RowList,
        sites: &ListSites,
        index: u32,
        lanes: u32,
        frame: &[u8],
        maps: &Maps,
    ) -> Option<u32>
        requires sites { AreListSites list.now.list.items sites.now }
        requires room { lanes ≤ 512 }
        requires indices { index + lanes ≤ 2 ^ 23 }
        ensures { IfSome result (RanTogether list.now index lanes frame.now maps.now.words self.new.batch) }
    {
        let returned = self
            .batch
            .run(list, sites, index, lanes as usize, frame, maps.words())?;
        let count = self.batch.limit(returned);
        Some(count as u32)
    }
}
