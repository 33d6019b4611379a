//! What pays: by how many workers a loop is run, and over how many blocks.

ghost use Rattle.std.specs.Prelude.{◌≡◌, ◌<◌, ◌≤◌, length};
ghost use Rattle.loop_core_split.specs.Plans.{IsPlan};
ghost use Rattle.spec_run_loop.specs.Costs.{instructions, work_in_order, work_by_blocks, cost_of_elements};
ghost use Rattle.spec_run_loop.specs.Costs.{useful_workers, copies_cost_more, sum_workers, useful_blocks};

use crate::job::LoopJob;
use array_maps::Maps;
use loop_core_block::most_instructions;
use loop_core_model::MAX_WORKERS;
use loop_core_split::Plan;

/// How many instructions of iterations that go together take as long as one of an iteration that runs alone, as those of
/// blocks do: 10 to 30.
const ALONE: u64 = 12;

/// What an iteration by blocks costs besides its instructions, as many of them: its accesses are marked and kept apart.
const BOOKKEEPING: u64 = 30;

/// How many instructions are worth a thread: to start it and wait for it takes as long.
const SHARE: u64 = 2_000_000;

/// What an element costs each worker and each block, as many instructions: its marks and its copy are made in memory
/// that is new, merged and committed. So a loop of few iterations over many elements is bound by memory.
const ELEMENT: u64 = 400;

/// How many iterations an element a share of a loop that adds up has at least, where there are several.
const VISITS: u32 = 32;

/// A loop of fewer shares is run by the calling thread alone.
const LEAST_SHARES: u64 = 4;

/// For how many elements all blocks of a loop together keep marks and copies at most, though each worker has a block:
/// some 31 bytes for each element that a block touches.
const MOST_KEPT: u32 = 1_048_576;

/// The most instructions that an iteration of a loop takes.
fn instructions(job: &LoopJob) -> u64
    ensures is { result ≡ instructions job.now }
    ensures few { result ≤ 4096 }
{
    u64::from(most_instructions(job.program, job.call.callback()))
}

/// How many instructions a loop that runs in order is to do at most, by its iterations and the most instructions of
/// one.
#[tactic(auto, using(crate::proofs::CostLaws::most_work))]
fn work_in_order(job: &LoopJob) -> u64
    ensures is { result ≡ work_in_order job.now }
    ensures few { result ≤ 17592186040320 }
{
    u64::from(job.call.n()) * instructions(job)
}

/// How many of them take as long as the loop by blocks, with its bookkeeping.
pub(crate) fn work_by_blocks(job: &LoopJob) -> u64
    ensures { result ≡ work_by_blocks job.now }
{
    ALONE * (work_in_order(job) + u64::from(job.call.n()) * BOOKKEEPING)
}

/// What its elements cost each worker and each block of a loop, in instructions.
fn cost_of_elements(elements: u32) -> u64
    ensures { result ≡ cost_of_elements elements }
{
    ELEMENT * u64::from(elements)
}

/// How many elements maps have, at most 65,536.
pub(crate) fn elements_of(maps: &Maps) -> u32
    ensures count { result ≡ length maps.now.words }
    ensures few { result ≤ 65536 }
{
    maps.words().len() as u32
}

/// How many workers of a plan a loop of so much work keeps busy, where each keeps marks and a copy of this many
/// elements: no more than there are shares or blocks, and one where the shares are few.
pub(crate) fn useful_workers(work: u64, elements: u32, plan: &Plan) -> u32
    requires { IsPlan plan.now }
    ensures is { result ≡ useful_workers work elements plan.now }
    ensures some { 0 < result }
    ensures few { result ≤ 16 }
{
    let share = SHARE + cost_of_elements(elements);
    let shares = work / share;
    if shares < LEAST_SHARES {
        return 1;
    }
    let shared = shares.min(u64::from(MAX_WORKERS)) as u32;
    plan.workers.min(shared).min(plan.blocks)
}

/// Whether an iteration in order is cheaper than its share on the private copies of this many workers, 1 to 16, each of
/// which is taken to have a processor.
pub(crate) fn copies_cost_more(job: &LoopJob, workers: u32) -> bool
    requires few { workers ≤ 16 }
    ensures { result ≡ copies_cost_more job.now workers }
{
    let instructions = instructions(job);
    instructions * u64::from(workers) < ALONE * (instructions + BOOKKEEPING)
}

/// How many workers a loop keeps busy that adds up over this many elements, 1 to 16: each of them makes a word for each
/// element, which is combined with the maps, and has as many iterations as are worth it.
pub(crate) fn sum_workers(job: &LoopJob, elements: u32) -> u32
    ensures is { result ≡ sum_workers job.now elements }
    ensures some { 0 < result }
    ensures few { result ≤ 16 }
{
    let busy = useful_workers(work_in_order(job), 0, job.plan);
    (job.call.n() / VISITS / elements.max(1)).min(busy).max(1)
}

/// How many even blocks, of at most this many, a loop of so much work over this many elements is worth, that keeps so
/// many workers busy: those that pay what their elements cost, and of as many elements as may be kept; one for each of
/// the workers at least.
pub(crate) fn useful_blocks(work: u64, elements: u32, most: u32, workers: u32) -> u32
    requires workers { 0 < workers }
    requires some { 0 < most }
    ensures is { result ≡ useful_blocks work elements most workers }
    ensures some { 0 < result }
    ensures within { result ≤ most }
{
    let elements = elements.max(1);
    let kept = MOST_KEPT / elements;
    let worth = work / cost_of_elements(elements);
    let worth = worth.min(u64::from(kept)) as u32;
    worth.max(workers).min(most)
}
