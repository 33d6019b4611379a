//! A loop in order.

ghost use Rattle.std.specs.Prelude.{◌≡◌, ◌≤◌};
ghost use Rattle.bpf_verify.specs.Rows.{LeavesRowsAt};
ghost use Rattle.bpf_verify_sound.specs.Soundness.{OverApproximatesCall};
ghost use Rattle.loop_core_sequential.specs.{Loops.{RanLoopInOrder}, LoopRuns.{IsLoopRun}, Rests.{RanTo, answer_of}};

use crate::batches::Batches;
use crate::loop_run::LoopRun;
use crate::one_by_one::one_by_one;
use array_maps::Maps;
use bpf_step::LoopCall;
use bpf_verify::Verified;
use row_facts::ListSites;
use row_list::RowList;

/// The fewest iterations of a loop that is tried in batches: set-up clears about 100 KB, which takes some 3 µs.
pub(crate) const MIN_BATCHED_ITERATIONS: u32 = 512;

/// Runs the iterations of a loop call that main of this program made, one after another on the maps, up
/// to the first that returns 1, or all. Gives the loop's answer: how many ran. The maps are of the
/// program's sizes. Iterations that may go together do.
pub fn in_order(program: &Verified, call: &LoopCall, maps: &mut Maps) -> u32
    requires known { OverApproximatesCall program.now call.now }
    requires sizes { maps.old.sizes ≡ program.now.sizes }
    ensures { RanLoopInOrder program.now call.now maps.old maps.new result }
{
    let n = call.n();
    answer(range_in_order(program, call, 0, n, maps), n)
}

/// Runs the iterations of a loop call that main of this program made from an index up to, and not with, another,
/// one after another on the maps, up to the first that returns 1, or all. Gives the loop's answer where one did: its
/// index and 1. The maps are of the program's sizes. Iterations that may go together do.
pub fn range_in_order(
    program: &Verified,
    call: &LoopCall,
    from: u32,
    to: u32,
    maps: &mut Maps,
) -> Option<u32>
    requires known { OverApproximatesCall program.now call.now }
    requires in_order { from ≤ to }
    requires within { to ≤ call.now.n }
    requires sizes { maps.old.sizes ≡ program.now.sizes }
    ensures { RanTo program.now call.now from to maps.old maps.new result }
{
    let mut run = LoopRun::new(program, call);
    if to - from < MIN_BATCHED_ITERATIONS {
        return one_by_one(&mut run, from, to, maps);
    }
    let Some(rows) = program.rows(call.callback()) else {
        return one_by_one(&mut run, from, to, maps);
    };
    // A loop that breaks at its first iteration needs no room for batches, which takes longer to clear.
    if let Some(answer) = one_by_one(&mut run, from, from + 1, maps) {
        return Some(answer);
    }
    match &rows.joined {
        Some(joined) => in_batches(&mut run, &joined.list, &joined.sites, from + 1, to, maps),
        None => in_batches(&mut run, &rows.list, &rows.sites, from + 1, to, maps),
    }
}

/// The loop's answer: that with which it broke off, or n.
pub(crate) fn answer(broke_off: Option<u32>, n: u32) -> u32
    ensures { result ≡ answer_of broke_off n }
{
    match broke_off {
        Some(answer) => answer,
        None => n,
    }
}

/// Runs the iterations from an index up to another, in batches of a list where they may go together, and else one by
/// one. Gives the loop's answer where one returned 1.
#[inline(never)]
fn in_batches(
    run: &mut LoopRun<'_>,
    list: &RowList,
    sites: &ListSites,
    from: u32,
    to: u32,
    maps: &mut Maps,
) -> Option<u32>
    requires ready { IsLoopRun run.old }
    requires rows { LeavesRowsAt run.old.program.now run.old.call.now.callback list.now sites.now }
    requires in_order { from ≤ to }
    requires within { to ≤ run.old.call.now.n }
    requires sizes { maps.old.sizes ≡ run.old.program.now.sizes }
    ensures same { run.new ≡ run.old }
    ensures ran { RanTo run.old.program.now run.old.call.now from to maps.old maps.new result }
{
    let mut batches = Batches::new(*list.list.allocator());
    batches.make_room(list, sites);
    let mut index = from;
    while index < to {
        let next = batches.run_batch(run, list, sites, index, to, maps);
        let resume = batches.resume(next, to);
        if let Some(answer) = one_by_one(run, next, resume, maps) {
            return Some(answer);
        }
        index = resume;
    }
    None
}
