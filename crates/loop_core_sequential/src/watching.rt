//! Iterations of a loop in order that are watched: none reads an element that an earlier one wrote.

ghost use Rattle.std.specs.Prelude.{◌≡◌, ◌+◌, ◌<◌, ◌≤◌, length};
ghost use Rattle.array_maps.specs.MapList.{MapList};
ghost use Rattle.bpf_verify.specs.Rows.{AreRowsAt};
ghost use Rattle.loop_core_undo.specs.Undo.{log_elements};
ghost use Rattle.loop_core_sequential.specs.{LoopRuns.{IsLoopRun}, Noting.{GoesWatched}, WatchedRuns.{WatchedTo}};

use crate::applying::FirstLanes;
use crate::batches::Batches;
use crate::loop_run::LoopRun;
use crate::noting::{are_unread, note_writes};
use crate::progress::Progress;
use array_maps::Maps;
use bpf_step::law_of_plain_iterations;
use bpf_verify::CallbackRows;
use bpf_verify_sound::{law_of_accepted_programs, law_of_accepted_runs};
use loop_core_model::law_of_batches;
use loop_core_undo::{UndoLog, Watched, law_of_watching, law_of_words_before};

/// How watched iterations came out.
#[derive(Clone, Copy)]
pub(crate) enum Watch {
    /// Each returned 0.
    Completed,
    /// One returned 1, after which none runs: this is the loop's answer.
    Broke(u32),
    /// One saw or reduced an element that was written before. It is the last that ran.
    Dependent(Progress),
}

impl Batches {
    /// Does iterations from an index on together, no more than up to another, as many as are the loop in order so, if
    /// none reads what an earlier one wrote. Gives the index after them.
    pub(crate) fn run_batch_watched(
        &mut self,
        run: &LoopRun<'_>,
        rows: &CallbackRows,
        index: u32,
        to: u32,
        log: &mut UndoLog,
        maps: &mut Maps,
    ) -> u32
        requires ready { IsLoopRun run.now }
        requires rows { AreRowsAt run.now.program.now run.now.call.now.callback rows.now }
        requires below { index < to }
        requires within { to ≤ run.now.call.now.n }
        requires sizes { maps.old.sizes ≡ run.now.program.now.sizes }
        requires count { length maps.old.words ≡ log_elements log.old }
        ensures on { index ≤ result }
        ensures within { result ≤ to }
        ensures alone { result ≡ index → 0 < self.new.alone }
        ensures sizes { maps.new.sizes ≡ maps.old.sizes }
        ensures count { length maps.new.words ≡ log_elements log.new }
        ensures goes { (start : MapList) → GoesWatched run.now.program.now run.now.call.now index start maps.old log.old
            → GoesWatched run.now.program.now run.now.call.now result start maps.new log.new }
    {
        let lanes = self.lanes.min(to - index);
        let count = self.go_watched(run, rows, index, lanes, log, maps);
        self.pace(count, lanes);
        index + count
    }

    /// Does the first of so many iterations from an index on together, as many as are the loop in order so, if none
    /// reads what an earlier one wrote. Gives how many they are.
    fn go_watched(
        &mut self,
        run: &LoopRun<'_>,
        rows: &CallbackRows,
        index: u32,
        lanes: u32,
        log: &mut UndoLog,
        maps: &mut Maps,
    ) -> u32
        requires ready { IsLoopRun run.now }
        requires rows { AreRowsAt run.now.program.now run.now.call.now.callback rows.now }
        requires room { lanes ≤ 512 }
        requires within { index + lanes ≤ run.now.call.now.n }
        requires sizes { maps.old.sizes ≡ run.now.program.now.sizes }
        requires count { length maps.old.words ≡ log_elements log.old }
        ensures few { result ≤ lanes }
        ensures sizes { maps.new.sizes ≡ maps.old.sizes }
        ensures count { length maps.new.words ≡ log_elements log.new }
        ensures goes { (start : MapList) → GoesWatched run.now.program.now run.now.call.now index start maps.old log.old
            → GoesWatched run.now.program.now run.now.call.now (index + result) start maps.new log.new }
    {
        law_of_batches();
        law_of_words_before();
        law_of_plain_iterations();
        law_of_accepted_runs();
        law_of_accepted_programs();
        // For the proof: the program is accepted, and the maps have as many words as their sizes add up to.
        let _unit = run.program.unit();
        let _sizes = maps.sizes();
        let _words = maps.words();
        let frame = run.call.frame();
        let Some(count) = self.ran_together(&rows.list, &rows.sites, index, lanes, frame, maps)
        else {
            return 0;
        };
        let sites = self.batch.sites();
        let of_lanes = self.batch.lanes();
        if count == 0 || !are_unread(sites, of_lanes, count, log) {
            return 0;
        }
        note_writes(sites, of_lanes, count, log, maps);
        let first = FirstLanes {
            batch: &self.batch,
            lanes: count as usize,
        };
        maps.change(&first);
        count
    }
}

/// Runs the iterations of a loop call from an index up to another, one after another on the maps, watched.
pub(crate) fn one_by_one_watched(
    run: &mut LoopRun<'_>,
    from: u32,
    to: u32,
    log: &mut UndoLog,
    maps: &mut Maps,
) -> Watch
    requires ready { IsLoopRun run.old }
    requires in_order { from ≤ to }
    requires within { to ≤ run.old.call.now.n }
    requires sizes { maps.old.sizes ≡ run.old.program.now.sizes }
    requires count { length maps.old.words ≡ log_elements log.old }
    ensures same { run.new ≡ run.old }
    ensures sizes { maps.new.sizes ≡ maps.old.sizes }
    ensures count { length maps.new.words ≡ log_elements log.new }
    ensures ran { (start : MapList) → GoesWatched run.old.program.now run.old.call.now from start maps.old log.old
        → WatchedTo run.old.program.now run.old.call.now to start maps.new log.new result }
{
    for index in from..to {
        match one_watched(run, index, log, maps) {
            Watch::Completed => (),
            Watch::Broke(answer) => return Watch::Broke(answer),
            Watch::Dependent(progress) => return Watch::Dependent(progress),
        }
    }
    Watch::Completed
}

/// Runs the iteration of an index on the maps, watched.
fn one_watched(run: &mut LoopRun<'_>, index: u32, log: &mut UndoLog, maps: &mut Maps) -> Watch
    requires ready { IsLoopRun run.old }
    requires below { index < run.old.call.now.n }
    requires sizes { maps.old.sizes ≡ run.old.program.now.sizes }
    requires count { length maps.old.words ≡ log_elements log.old }
    ensures same { run.new ≡ run.old }
    ensures sizes { maps.new.sizes ≡ maps.old.sizes }
    ensures count { length maps.new.words ≡ log_elements log.new }
    ensures ran { (start : MapList) → GoesWatched run.old.program.now run.old.call.now index start maps.old log.old
        → WatchedTo run.old.program.now run.old.call.now (index + 1) start maps.new log.new result }
{
    law_of_watching();
    // For the proof: the program is accepted, the call has n iterations, and the maps have as many words as their sizes
    // add up to.
    let _unit = run.program.unit();
    let _n = run.call.n();
    let _sizes = maps.sizes();
    let mut watched = Watched::new(maps, log);
    let done = run.callback.run(index, &mut watched);
    if watched.has_dependence() {
        return Watch::Dependent(Progress {
            done: index + 1,
            broke: done.ret == 1,
        });
    }
    if done.ret == 1 {
        return Watch::Broke(index + 1);
    }
    Watch::Completed
}
