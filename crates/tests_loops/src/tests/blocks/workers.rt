//! Two workers of one loop, each in a thread of the test, that meet as they run.

ghost use Rattle.std.specs.Prelude.{◌≡◌, All, IfOk};
ghost use Rattle.loop_core_model.specs.{declared.loop_test.Test.TheVariants.{Flow}, Intervals.{blocks_of}};
ghost use Rattle.tests_loops.specs.Stages.{IsStage, IsRunOn};

use crate::meeting::{Holds, MeetingGate};
use crate::stage::{Stage, gathered, stage_of};
use loop_board::{Board, BoardSeat};
use loop_core_block::{Block, SpeculativeLoop};
use loop_core_model::{Test, Verdict};
use loop_core_split::Gate;
use spec_run_loop::work;
use std::alloc::{AllocError, Global};
use std::test::Fail;
use std::thread;
use std::thread::Threads;

/// The blocks that a worker runs at its seat.
fn one_worker<'a, G: Gate>(
    alloc: Global,
    stage: &'a Stage,
    board: &Board,
    seat: BoardSeat,
    gate: &G,
) -> Result<Vec<Block<'a>>, AllocError>
    requires stage { IsStage stage.now }
    requires seat { seat.board ≡ board.now }
    requires blocks { board.now.blocks ≡ blocks_of stage.now.split }
    ensures { IfOk result (λ blocks. All (IsRunOn Flow stage.now) blocks.items) }
{
    let of = SpeculativeLoop {
        alloc,
        program: &stage.program,
        call: &stage.call,
        start: &stage.maps,
        split: &stage.split,
        test: Test::Flow,
    };
    let mut seat = seat;
    work(&of, board, &mut seat, gate)
}

/// The blocks of all workers, together.
fn joined<'a>(
    alloc: Global,
    stage: &'a Stage,
    mut done: Vec<Result<Vec<Block<'a>>, AllocError>>,
) -> Result<Vec<Block<'a>>, AllocError>
    requires { All (λ r. IfOk r (λ its. All (IsRunOn Flow stage.now) its.items)) done.items }
    ensures { IfOk result (λ blocks. All (IsRunOn Flow stage.now) blocks.items) }
{
    let mut blocks = Vec::new(alloc);
    while let Some(worker) = done.pop() {
        let mut its = worker?;
        blocks.append(&mut its)?;
    }
    Ok(blocks)
}

/// The blocks that two workers run, each in a thread of its own.
fn two_workers<'a, R: Threads + Sync, G: Gate>(
    rt: &R,
    alloc: Global,
    stage: &'a Stage,
    gate: &G,
) -> Result<Vec<Block<'a>>, Fail>
    requires { IsStage stage.now }
    ensures { IfOk result (λ blocks. All (IsRunOn Flow stage.now) blocks.items) }
{
    let (board, seats) = Board::new(alloc, stage.split.blocks(), 2)?;
    let board = &board;
    let one = |seat: BoardSeat| -> Result<Vec<Block>, AllocError>
        requires { IsStage stage.now × (seat.board ≡ board.now) × (board.now.blocks ≡ blocks_of stage.now.split) }
        ensures { IfOk result (λ its. All (IsRunOn Flow stage.entry.now) its.items) }
    { one_worker(alloc, stage, board, seat, gate) };
    let done = thread::map_vec(rt, seats, &one)?;
    Ok(joined(alloc, stage, done)?)
}

/// Eight iterations that add their index.
const ADDS: &str =
    "maps 1 | mov64 r1, 8 | LOOP | ldmapval r2, 0, 0 | atomic64 add [r2+0], r1 | END | %% | map 0: 18446744073709551615";

/// The first block waits until the second has begun, and the first iteration of each until the other's is next.
const EACH_FOR_THE_OTHER: Holds = Holds {
    blocks: &[(0, 1)],
    turns: &[(0, 4), (4, 0)],
};

#[test]
fn two_workers_share_the_blocks_of_a_loop(rt: HostRuntime) -> Result<(), Fail> {
    let stage = stage_of(rt.alloc(), ADDS, 2).ok_or("a row has a loop")?;
    let gate = MeetingGate::new(EACH_FOR_THE_OTHER);
    let blocks = two_workers(&rt, rt.alloc(), &stage, &gate)?;
    let outcome = gathered(rt.alloc(), &stage, blocks, Test::Flow)?;
    assert_eq!(rt; outcome.verdict(), Verdict::Parallel);
    assert_eq!(rt; [outcome.answer(), outcome.elements()], [8, 1]);
    assert_eq!(rt; outcome.element(0), 27);
    assert!(rt; gate.has_met());
    Ok(())
}
