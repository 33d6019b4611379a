//! Loops that add up, by several workers.

ghost use Rattle.std.specs.Prelude.{◌≡◌, ◌+◌, ◌<◌, ◌≤◌, All, length, IfOk, OnErr};
ghost use Rattle.loop_core_model.specs.declared.loop_test.Test.{Test};
ghost use Rattle.loop_core_sequential.specs.{Loops.{RanLoopInOrder}, Rests.{RanTo}};
ghost use Rattle.spec_run_loop.specs.{Rounds.{share_start}, Sums.{IsSumFor, IsSumOf, AreSumsOf}};
ghost use Rattle.loop_core_gather.specs.Gathered.{IsOutcome};
ghost use Rattle.loop_core_split.specs.declared.strategy.Strategy.TheVariants.{Sums};

use crate::cost_model::elements_of;
use crate::decision::LoopAnswer;
use crate::{PartialReduction, ReductionLoop, Round};
use array_maps::Maps;
use loop_core_block::most_instructions;
use loop_core_sequential::{in_order, range_in_order};
use loop_core_split::Strategy;
use std::alloc::{AllocError, Global};
use std::thread;
use std::thread::Threads;

/// How many instructions the calling thread does alone at first, by its iterations' most. They take about as long as to
/// start threads and wait for them.
const ALONE: u32 = 250_000;

/// How many more it does for each element.
const ALONE_ELEMENT: u32 = 32;

/// How many instructions a worker does in the first round.
const SHARE: u32 = 2_000_000;

/// How many more it does for each element: each share makes a word for it, and combines it with the maps.
const SHARE_ELEMENT: u32 = 128;

/// How many iterations it does alone at least, and how many a share has, where there are several: fewer go one by one,
/// not in batches.
const SHARE_ITERATIONS: u32 = 2_048;

/// Runs a loop call that adds up by 1 to 16 workers: on these maps, which are of the program's sizes, and change only
/// where it gives an answer. One worker runs it in order; several add up an even share of each round each, after some
/// iterations in order.
pub(crate) fn run_sums<R: Threads + Sync>(
    rt: &R,
    alloc: Global,
    of: &ReductionLoop,
    maps: &mut Maps,
    workers: u32,
) -> Result<LoopAnswer, AllocError>
    requires sizes { maps.old.sizes ≡ of.now.program.sizes }
    requires some { 0 < workers }
    requires few { workers ≤ 16 }
    ensures outcome { IfOk result (λ a. (test : Test) → IsOutcome test of.now.program of.now.call maps.old a.verdict
        a.answer maps.new) }
    ensures strategy { IfOk result (λ a. a.strategy ≡ Sums workers) }
    ensures kept { OnErr result (maps.new ≡ maps.old) }
{
    of.law_of_passing();
    // For the proof: the maps have as many words as their sizes add up to, each below 2^64.
    let _sizes = maps.sizes();
    let _words = maps.words();
    let strategy = Strategy::Sums { workers };
    if workers == 1 {
        let answer = in_order(of.program, of.call, maps);
        return Ok(LoopAnswer::passed(answer, strategy));
    }
    let mut sums = of.try_new_sums(alloc, workers)?;
    let elements = elements_of(maps);
    let alone = iterations_of(of, ALONE + ALONE_ELEMENT * elements);
    let share = iterations_of(of, SHARE + SHARE_ELEMENT * elements);
    let answer = in_rounds(rt, of, alone, share, sums.as_mut_slice(), maps);
    Ok(LoopAnswer::passed(answer, strategy))
}

/// How many iterations of a loop take this many instructions, by their most, to the next multiple of 2,048.
fn iterations_of(of: &ReductionLoop, instructions: u32) -> u32
    ensures { 0 < result }
{
    let most = most_instructions(of.program, of.call.callback()).max(1);
    next_multiple(instructions / most)
}

/// The next multiple of 2,048 above: batches of all shares begin at multiples of their size where the loop's length is
/// one.
fn next_multiple(iterations: u32) -> u32
    ensures { 0 < result }
{
    (iterations / SHARE_ITERATIONS + 1).saturating_mul(SHARE_ITERATIONS)
}

/// Runs the first iterations in order, and then the loop round by round, each round over even shares of its iterations,
/// which are of this size at first, up to the one in which an iteration breaks off. The maps are of the program's sizes.
fn in_rounds<R: Threads + Sync>(
    rt: &R,
    of: &ReductionLoop,
    alone: u32,
    share: u32,
    sums: &mut [PartialReduction],
    maps: &mut Maps,
) -> u32
    requires alone { 0 < alone }
    requires some { 0 < length sums.old }
    requires few { length sums.old ≤ 16 }
    requires fit { All (IsSumFor of.now) sums.old }
    requires sizes { maps.old.sizes ≡ of.now.program.sizes }
    ensures { RanLoopInOrder of.now.program of.now.call maps.old maps.new result }
{
    let n = of.call.n();
    let mut from = alone.min(n);
    if let Some(broke) = range_in_order(of.program, of.call, 0, from, maps) {
        return broke;
    }
    while from < n {
        let round = next_round(from, n, share, sums.len() as u32);
        if let Some(answer) = run_round(rt, of, &round, sums, maps) {
            return answer;
        }
        from = round.to;
    }
    n
}

/// The round after the first `done` of n iterations, by this many workers, 1 to 16: half as many iterations as precede it,
/// and a first share of this size for each worker. No more than that is wasted if an iteration breaks: with rounds twice
/// as long, a sum of 200 operations that breaks in its middle takes 1.08 times as long. The last round may have twice as
/// many.
fn next_round(done: u32, n: u32, share: u32, workers: u32) -> Round
    requires some { 0 < done }
    requires left { done < n }
    requires workers { 0 < workers }
    ensures from { result.from ≡ done }
    ensures on { done < result.to }
    ensures within { result.to ≤ n }
    ensures shares { result.shares ≤ workers }
{
    let left = n - done;
    let more = next_multiple(done / 2).saturating_add(share.saturating_mul(workers));
    let iterations = if left <= more.saturating_mul(2) {
        left
    } else {
        more
    };
    Round {
        from: done,
        to: done + iterations,
        shares: (iterations / SHARE_ITERATIONS).min(workers).max(1),
    }
}

/// Adds up the iterations of a round, and combines the maps with them, up to the first that breaks off. Gives the
/// loop's answer where one did. The maps are of the program's sizes.
fn run_round<R: Threads + Sync>(
    rt: &R,
    of: &ReductionLoop,
    round: &Round,
    sums: &mut [PartialReduction],
    maps: &mut Maps,
) -> Option<u32>
    requires within { round.now.to ≤ of.now.call.n }
    requires enough { round.now.shares ≤ length sums.old }
    requires few { length sums.old ≤ 16 }
    requires fit { All (IsSumFor of.now) sums.old }
    requires sizes { maps.old.sizes ≡ of.now.program.sizes }
    ensures ran { RanTo of.now.program of.now.call round.now.from round.now.to maps.old maps.new result }
    ensures fit { All (IsSumFor of.now) sums.new }
{
    let sums = &mut sums[..round.shares as usize];
    run_shares(rt, of, round, sums);
    of.add_up(sums, maps)
}

/// Adds up the iterations of each share of a round: of several each in a thread of its own where one can be started.
fn run_shares<R: Threads + Sync>(
    rt: &R,
    of: &ReductionLoop,
    round: &Round,
    sums: &mut [PartialReduction],
)
    requires within { round.now.to ≤ of.now.call.n }
    requires few { round.now.shares ≤ 16 }
    requires count { length sums.old ≡ round.now.shares }
    requires fit { All (IsSumFor of.now) sums.old }
    ensures sums { AreSumsOf of.now round.now.from round.now.to sums.new }
    ensures fit { All (IsSumFor of.now) sums.new }
{
    let one = |share: usize, sum: &mut PartialReduction|
        requires { (round.now.to ≤ of.now.call.n) × (round.now.shares ≤ 16) × (share < round.now.shares)
            × IsSumFor of.now sum.now }
        ensures { IsSumOf of.entry.now (share_start round.entry.now share) (share_start round.entry.now (share + 1))
            sum.exit.now }
    { of.run_share(sum, round, share as u32) };
    thread::for_each_mut(rt, sums, round.shares as usize, &one);
}
