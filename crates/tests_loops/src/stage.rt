//! A loop at its call: the program that made it, the maps there, and its blocks.

ghost use Rattle.std.specs.Prelude.{◌≡◌, ◌<◌, All, IfSome, IfOk};
ghost use Rattle.loop_core_model.specs.Intervals.{blocks_of};
ghost use Rattle.loop_core_gather.specs.Gathered.{HasOutcome};
ghost use Rattle.tests_loops.specs.Stages.{IsStage, IsRunOn};

use crate::rows::{first_loop, read_row};
use array_maps::Maps;
use bpf_step::LoopCall;
use bpf_verify::Verified;
use loop_core_block::{Block, run_block};
use loop_core_gather::{GatherError, Gathered, LoopOutcome, commit_or_rerun, gather};
use loop_core_model::Test;
use loop_core_split::{NoGate, Split};
use std::alloc::{AllocError, Global};

/// A loop of an accepted program at its call, and the split of its iterations.
#[derive(Drop)]
pub struct Stage {
    pub program: Verified,
    pub call: LoopCall,
    pub maps: Maps,
    pub split: Split,
}

/// The first loop of a row, in n even blocks; `None` if there is none, or if memory ran out.
pub fn stage_of(alloc: Global, row: &str, blocks: u32) -> Option<Stage>
    ensures stage { IfSome result IsStage }
{
    let row = read_row(alloc, row)?;
    let first = first_loop(alloc, &row)?;
    match Split::even(first.call.n(), blocks) {
        Ok(split) => Some(Stage {
            program: row.program,
            call: first.call,
            maps: first.maps,
            split,
        }),
        Err(_) => None,
    }
}

/// A block of the loop, which has this many.
pub fn run_on<'a>(
    alloc: Global,
    stage: &'a Stage,
    number: u32,
    test: Test,
) -> Result<Block<'a>, AllocError>
    requires stage { IsStage stage.now }
    requires within { number < blocks_of stage.now.split }
    ensures { IfOk result (IsRunOn test stage.now) }
{
    run_block(
        alloc,
        &stage.program,
        &stage.call,
        &stage.maps,
        &stage.split,
        number,
        &NoGate,
        test,
    )
}

/// All blocks of the loop, one after another.
pub fn all_blocks<'a>(
    alloc: Global,
    stage: &'a Stage,
    test: Test,
) -> Result<Vec<Block<'a>>, AllocError>
    requires { IsStage stage.now }
    ensures { IfOk result (λ blocks. All (IsRunOn test stage.now) blocks.items) }
{
    let mut blocks = Vec::new(alloc);
    for number in 0..stage.split.blocks() {
        blocks.push(run_on(alloc, stage, number, test)?)?;
    }
    Ok(blocks)
}

/// The blocks of the loop, gathered.
pub fn gathered<'a>(
    alloc: Global,
    stage: &'a Stage,
    blocks: Vec<Block<'a>>,
    test: Test,
) -> Result<Gathered<'a>, GatherError>
    requires stage { IsStage stage.now }
    requires ran { All (IsRunOn test stage.now) blocks.items }
    ensures { IfOk result (HasOutcome test stage.now.program stage.now.call stage.now.maps.words) }
{
    gather(
        alloc,
        &stage.program,
        &stage.call,
        &stage.maps,
        &stage.split,
        blocks,
        test,
    )
}

/// The loop's outcome: all blocks are run and gathered, then committed, or the loop is rerun in order.
pub fn outcome_of(alloc: Global, stage: &Stage, test: Test) -> Result<LoopOutcome, GatherError>
    requires { IsStage stage.now }
{
    let blocks = all_blocks(alloc, stage, test)?;
    let gathered = gathered(alloc, stage, blocks, test)?;
    Ok(commit_or_rerun(
        alloc,
        &stage.program,
        &stage.call,
        &stage.maps,
        &gathered,
        test,
    )?)
}
