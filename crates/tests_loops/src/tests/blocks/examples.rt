//! The example at the head of `loop_core`.

ghost use Rattle.tests_loops.specs.Stages.{IsStage};

use crate::stage::{Stage, all_blocks, gathered, stage_of};
use loop_core::{Gathered, LeftPage, Test, Verdict, in_order, store_pages};
use std::alloc::Global;
use std::process::Abort;
use std::test::Fail;

/// A loop of eight iterations that adds its index.
const ADDS: &str =
    "maps 1 | mov64 r1, 8 | LOOP | ldmapval r2, 0, 0 | atomic64 add [r2+0], r1 | END | %% | map 0: 5";

/// Asserts the outcome of the loop by its blocks: that it passes and leaves 33.
fn tells_33(rt: &impl Abort, gathered: &Gathered) {
    assert_eq!(rt; gathered.verdict(), Verdict::Parallel);
    assert_eq!(rt; gathered.answer(), 8);
    assert_eq!(rt; gathered.elements(), 1);
    assert_eq!(rt; gathered.element(0), 33);
}

/// Runs the loop in its blocks and gathers them. Gives what they leave.
fn left_by_blocks(rt: &impl Abort, alloc: Global, stage: &Stage) -> Result<Vec<LeftPage>, Fail>
    requires { IsStage stage.now }
{
    let blocks = all_blocks(alloc, stage, Test::Flow)?;
    let gathered = gathered(alloc, stage, blocks, Test::Flow)?;
    tells_33(rt, &gathered);
    Ok(gathered.left_pages(alloc)?)
}

/// Runs the loop in order, on a copy of its maps.
fn is_33_in_order(rt: &impl Abort, alloc: Global, stage: &Stage) -> Result<(), Fail>
    requires { IsStage stage.now }
{
    let mut maps = stage.maps.try_copy(alloc)?;
    let answer = in_order(&stage.program, &stage.call, &mut maps);
    assert_eq!(rt; answer, 8);
    assert_eq!(rt; maps.words(), [33].as_slice());
    Ok(())
}

#[test]
fn two_blocks_are_the_loop_in_order(rt: HostRuntime) -> Result<(), Fail> {
    let mut stage = stage_of(rt.alloc(), ADDS, 2).ok_or("a loop")?;
    is_33_in_order(&rt, rt.alloc(), &stage)?;
    let pages = left_by_blocks(&rt, rt.alloc(), &stage)?;
    store_pages(&mut stage.maps, &pages);
    assert_eq!(rt; stage.maps.words(), [33].as_slice());
    Ok(())
}
