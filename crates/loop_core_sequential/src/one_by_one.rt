//! Iterations of a loop in order, one after another.

ghost use Rattle.std.specs.Prelude.{◌≡◌, ◌≤◌};
ghost use Rattle.loop_core_sequential.specs.{LoopRuns.{IsLoopRun}, Rests.{RanTo}};

use crate::loop_run::LoopRun;
use array_maps::Maps;

/// Runs the iterations of a loop call from an index up to another, one after another on the maps. Gives the
/// loop's answer where one returned 1: then none runs after it.
pub(crate) fn one_by_one(run: &mut LoopRun<'_>, from: u32, to: u32, maps: &mut Maps) -> Option<u32>
    requires ready { IsLoopRun run.old }
    requires in_order { from ≤ to }
    requires within { to ≤ run.old.call.now.n }
    requires sizes { maps.old.sizes ≡ run.old.program.now.sizes }
    ensures same { run.new ≡ run.old }
    ensures ran { RanTo run.old.program.now run.old.call.now from to maps.old maps.new result }
{
    // For the proof: the program is accepted, the call has n iterations, and the maps have as many words as their sizes
    // add up to.
    let _unit = run.program.unit();
    let _n = run.call.n();
    let _sizes = maps.sizes();
    for index in from..to {
        if run.callback.run(index, maps).ret == 1 {
            return Some(index + 1);
        }
    }
    None
}
