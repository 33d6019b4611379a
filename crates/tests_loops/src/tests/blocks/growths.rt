//! Under `rt try --test --fail-alloc N` each allocation fails in turn: the borrowed maps are then unchanged, and a
//! second try succeeds.

ghost use Rattle.std.specs.Prelude.{IfSome};
ghost use Rattle.tests_loops.specs.Stages.{IsStage};

use crate::stage::{Stage, outcome_of, stage_of};
use loop_core_gather::GatherError;
use loop_core_model::{Test, Verdict};
use std::alloc::Global;
use std::process::Abort;
use std::test::Fail;

/// A row with a loop in n blocks, the words of its maps, and the loop's outcome.
#[derive(Clone, Copy)]
struct Case {
    row: &'static str,
    blocks: u32,
    words: &'static [u64],
    verdict: Verdict,
    answer: u32,
    left: &'static [u64],
}

/// Sixteen iterations write an element each; that of 5 breaks.
const BREAKS_AT_5: Case = Case {
    row: "maps 16 | mov64 r1, 16 | LOOP | AT | st64 [r3+0], 1 | mov64 r0, 0 | jne64 r1, 5, done | mov64 r0, 1 | done: | exit",
    blocks: 4,
    words: &[0; 16],
    verdict: Verdict::Parallel,
    answer: 6,
    left: &[1, 1, 1, 1, 1, 1, 0, 0, 0, 0, 0, 0, 0, 0, 0, 0],
};

/// Each iteration copies its element to the next.
const COPIES_ON: Case = Case {
    row: "maps 5 | mov64 r1, 4 | LOOP | AT | ldx64 r4, [r3+0] | stx64 [r3+8], r4 | END | %% | map 0: 9 0 0 0 0",
    blocks: 2,
    words: &[9, 0, 0, 0, 0],
    verdict: Verdict::Conflict { count: 3, least: 1 },
    answer: 4,
    left: &[9, 9, 9, 9, 9],
};

/// The loop of a case, by a second try if memory ran out at the first.
fn stage_at_last(alloc: Global, case: &Case) -> Option<Stage>
    ensures { IfSome result IsStage }
{
    match stage_of(alloc, case.row, case.blocks) {
        None => stage_of(alloc, case.row, case.blocks),
        made => made,
    }
}

/// Runs a loop's blocks, gathers them, and commits them or runs the loop in order, once more if memory ran out. Asserts
/// the outcome, and that the borrowed maps are unchanged.
fn has_outcome(rt: &impl Abort, alloc: Global, case: &Case, test: Test) -> Result<(), Fail> {
    let stage = stage_at_last(alloc, case).ok_or("a row has a loop")?;
    let mut outcome = outcome_of(alloc, &stage, test);
    if let Err(GatherError::Memory) = outcome {
        assert_eq!(rt; stage.maps.words(), case.words);
        outcome = outcome_of(alloc, &stage, test);
    }
    let outcome = outcome?;
    assert_eq!(rt; outcome.verdict, case.verdict);
    assert_eq!(rt; outcome.answer, case.answer);
    assert_eq!(rt; outcome.maps.words(), case.left);
    assert_eq!(rt; stage.maps.words(), case.words);
    Ok(())
}

#[test]
fn borrowed_maps_stay_after_a_pass(rt: HostRuntime) -> Result<(), Fail> {
    has_outcome(&rt, rt.alloc(), &BREAKS_AT_5, Test::Flow)
}

#[test]
fn borrowed_maps_stay_after_a_conflict(rt: HostRuntime) -> Result<(), Fail> {
    has_outcome(&rt, rt.alloc(), &COPIES_ON, Test::Lrpd)
}
