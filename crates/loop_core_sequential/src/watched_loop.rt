//! A loop in order that is watched.

ghost use Rattle.std.specs.Prelude.{◌≡◌, ◌≤◌, length};
ghost use Rattle.array_maps.specs.MapList.{MapList};
ghost use Rattle.bpf_verify.specs.Rows.{AreRowsAt};
ghost use Rattle.bpf_verify_sound.specs.Soundness.{OverApproximatesCall};
ghost use Rattle.loop_core_undo.specs.Undo.{log_elements, IsEmpty};
ghost use Rattle.loop_core_sequential.specs.{LoopRuns.{IsLoopRun}, Dependences.{CameOut}, Noting.{GoesWatched}};
ghost use Rattle.loop_core_sequential.specs.WatchedRuns.{WatchedToEnd, loop_by};

use crate::batches::Batches;
use crate::loop_run::LoopRun;
use crate::ordering::MIN_BATCHED_ITERATIONS;
use crate::progress::Progress;
use crate::watching::{Watch, one_by_one_watched};
use array_maps::Maps;
use bpf_step::LoopCall;
use bpf_verify::{CallbackRows, Verified};
use loop_core_undo::UndoLog;

/// How a loop came out that was watched.
#[derive(Clone, Copy)]
pub enum WatchedLoop {
    /// It passes by the flow test, and its call answers this.
    Passed(u32),
    /// It was stopped after an iteration that saw or reduced an element that was written.
    Dependent(Progress),
}

/// Runs the iterations of a loop call that main of this program made as `in_order` does, and watches them: where none
/// has an exposed read of an element that an earlier one wrote, the loop passes by the flow test, and its answer is
/// given. Else it is stopped after the first iteration that sees or reduces an element that an earlier one wrote, or
/// that it wrote itself before that: then the maps are as before, and the log has those after this iteration, from
/// which `resume_in_order` goes on. The maps are of the program's sizes, and the log is for as many elements.
pub fn in_order_watched(
    program: &Verified,
    call: &LoopCall,
    log: &mut UndoLog,
    maps: &mut Maps,
) -> WatchedLoop
    requires known { OverApproximatesCall program.now call.now }
    requires sizes { maps.old.sizes ≡ program.now.sizes }
    requires count { log_elements log.old ≡ length maps.old.words }
    ensures { CameOut program.now call.now maps.old maps.new log.new result }
{
    log.clear();
    match watch(program, call, log, maps) {
        WatchedLoop::Passed(answer) => WatchedLoop::Passed(answer),
        WatchedLoop::Dependent(progress) => {
            log.exchange(maps);
            WatchedLoop::Dependent(progress)
        }
    }
}

/// Runs the iterations, watched, up to the first that returns 1 or met something, or all.
fn watch(program: &Verified, call: &LoopCall, log: &mut UndoLog, maps: &mut Maps) -> WatchedLoop
    requires known { OverApproximatesCall program.now call.now }
    requires sizes { maps.old.sizes ≡ program.now.sizes }
    requires empty { IsEmpty (length maps.old.words) log.old }
    ensures { WatchedToEnd program.now call.now maps.old maps.new log.new result }
{
    let mut run = LoopRun::new(program, call);
    let n = call.n();
    if n < MIN_BATCHED_ITERATIONS {
        let watch = one_by_one_watched(&mut run, 0, n, log, maps);
        return ended(watch, n);
    }
    let Some(rows) = program.rows(call.callback()) else {
        let watch = one_by_one_watched(&mut run, 0, n, log, maps);
        return ended(watch, n);
    };
    // A loop that ends at its first iteration needs no room for batches, which takes longer to clear.
    match one_by_one_watched(&mut run, 0, 1, log, maps) {
        Watch::Completed => (),
        Watch::Broke(answer) => return WatchedLoop::Passed(answer),
        Watch::Dependent(progress) => return WatchedLoop::Dependent(progress),
    }
    watch_in_batches(&mut run, rows, 1, log, maps)
}

/// How the loop came out, by how all of its n iterations did.
fn ended(watch: Watch, n: u32) -> WatchedLoop
    ensures { result ≡ loop_by watch n }
{
    match watch {
        Watch::Completed => WatchedLoop::Passed(n),
        Watch::Broke(answer) => WatchedLoop::Passed(answer),
        Watch::Dependent(progress) => WatchedLoop::Dependent(progress),
    }
}

/// Runs the iterations from an index on, watched, in batches where they may go together, and else one by one.
#[inline(never)]
fn watch_in_batches(
    run: &mut LoopRun<'_>,
    rows: &CallbackRows,
    from: u32,
    log: &mut UndoLog,
    maps: &mut Maps,
) -> WatchedLoop
    requires ready { IsLoopRun run.old }
    requires rows { AreRowsAt run.old.program.now run.old.call.now.callback rows.now }
    requires within { from ≤ run.old.call.now.n }
    requires sizes { maps.old.sizes ≡ run.old.program.now.sizes }
    requires count { length maps.old.words ≡ log_elements log.old }
    ensures { (start : MapList) → GoesWatched run.old.program.now run.old.call.now from start maps.old log.old
        → WatchedToEnd run.old.program.now run.old.call.now start maps.new log.new result }
{
    let n = run.call.n();
    let mut batches = Batches::new(*rows.list.list.allocator());
    batches.make_room(&rows.list, &rows.sites);
    let mut index = from;
    while index < n {
        let next = batches.run_batch_watched(run, rows, index, n, log, maps);
        let resume = batches.resume(next, n);
        match one_by_one_watched(run, next, resume, log, maps) {
            Watch::Completed => index = resume,
            Watch::Broke(answer) => return WatchedLoop::Passed(answer),
            Watch::Dependent(progress) => return WatchedLoop::Dependent(progress),
        }
    }
    WatchedLoop::Passed(n)
}
