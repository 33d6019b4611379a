//! The workers of a loop.

ghost use Rattle.std.specs.Prelude.{◌≡◌, All, map, vec_len, IfOk};
ghost use Rattle.loop_core_model.specs.Intervals.{blocks_of};
ghost use Rattle.loop_board.specs.Seats.{BoardId, new_seat};
ghost use Rattle.loop_core_block.specs.{Loops.{LoopOf}, LoopBlocks.{RecordsRunOf}, Shown.{shown}};
ghost use Rattle.spec_run_workers.specs.Workers.{board_worker, IsWorkerAt, AreOfWorkers, AreFaultless};

use crate::working::work;
use crate::workspace::Workspace;
use loop_board::{Board, BoardSeat};
use loop_core_block::{Block, SpeculativeLoop};
use loop_core_split::Gate;
use std::alloc::{AllocError, Global};
use std::thread;
use std::thread::Threads;

/// A worker that is done: its seat, and the blocks that it ran.
#[derive(Drop)]
pub(crate) struct Worker<'a> {
    pub(crate) seat: BoardSeat,
    pub(crate) blocks: Vec<Block<'a>>,
}

/// One worker of a loop, from a new seat of the board on.
fn one_worker<'a, G: Gate>(
    of: &SpeculativeLoop<'_, 'a>,
    board: &Board,
    seat: BoardSeat,
    gate: &G,
) -> Result<Worker<'a>, AllocError>
    requires seat { seat ≡ new_seat board.now }
    requires blocks { board.now.blocks ≡ blocks_of of.now.bounds }
    ensures { IfOk result (λ w. IsWorkerAt of.now board.now (board_worker w)) }
{
    let mut seat = seat;
    let blocks = work(of, board, &mut seat, gate)?;
    Ok(Worker { seat, blocks })
}

/// All workers, each in a thread of its own where one can be started.
fn in_threads<'a, R: Threads + Sync, G: Gate>(
    rt: &R,
    of: &SpeculativeLoop<'_, 'a>,
    board: &Board,
    seats: Vec<BoardSeat>,
    gate: &G,
) -> Result<Vec<Result<Worker<'a>, AllocError>>, AllocError>
    requires seats { All (λ s. s ≡ new_seat board.now) seats.items }
    requires blocks { board.now.blocks ≡ blocks_of of.now.bounds }
    ensures len { IfOk result (λ done. vec_len done ≡ vec_len seats) }
    ensures each { IfOk result (λ done. All (λ r. IfOk r (λ w. IsWorkerAt of.now board.now (board_worker w)))
        done.items) }
{
    let one = |seat: BoardSeat| -> Result<Worker, AllocError>
        requires { (seat ≡ new_seat board.now) × (board.now.blocks ≡ blocks_of of.now.bounds) }
        ensures { IfOk result (λ w. IsWorkerAt of.entry.now board.entry.now (board_worker w)) }
    { one_worker(of, board, seat, gate) };
    thread::map_vec(rt, seats, &one)
}

/// The seats and the blocks of all workers, where each of them is done.
fn seats_and_blocks<'a>(
    alloc: Global,
    mut done: Vec<Result<Worker<'a>, AllocError>>,
) -> Result<(Vec<BoardSeat>, Vec<Block<'a>>), AllocError>
    ensures { IfOk result (λ parts. (of : LoopOf) (board : BoardId) →
        All (λ r. IfOk r (λ w. IsWorkerAt of board (board_worker w))) done.entry.items →
        AreOfWorkers of board (vec_len done.entry) parts.0.items (map shown parts.1.items)) }
{
    let mut seats = Vec::new(alloc);
    let mut blocks = Vec::new(alloc);
    while let Some(worker) = done.pop() {
        let Worker {
            seat,
            blocks: mut its,
        } = worker?;
        seats.push(seat)?;
        blocks.append(&mut its)?;
    }
    Ok((seats, blocks))
}

/// Runs the one block of a loop in the calling thread, in a workspace.
pub fn run_alone<'a, G: Gate>(
    of: &SpeculativeLoop<'_, 'a>,
    workspace: &mut Workspace,
    gate: &G,
) -> Result<Vec<Block<'a>>, AllocError>
    requires { blocks_of of.now.bounds ≡ 1 }
    ensures ran { IfOk result (λ blocks. All (λ b. RecordsRunOf of.now (shown b)) blocks.items) }
    ensures faultless { IfOk result (λ blocks. AreFaultless of.now (map shown blocks.items)) }
{
    let workspace = workspace.take(of.alloc, of.elements(), of.test)?;
    let block = of.run_block_in(workspace, 0, gate)?;
    let mut blocks = Vec::new(of.alloc);
    blocks.push(block)?;
    Ok(blocks)
}

/// Runs all workers of a board's new seats, each in a thread of its own where one can be started, and gives their
/// seats and their blocks.
pub fn run_workers<'a, R: Threads + Sync, G: Gate>(
    rt: &R,
    of: &SpeculativeLoop<'_, 'a>,
    board: &Board,
    seats: Vec<BoardSeat>,
    gate: &G,
) -> Result<(Vec<BoardSeat>, Vec<Block<'a>>), AllocError>
    requires seats { All (λ s. s ≡ new_seat board.now) seats.items }
    requires blocks { board.now.blocks ≡ blocks_of of.now.bounds }
    ensures { IfOk result (λ parts. AreOfWorkers of.now board.now (vec_len seats) parts.0.items
        (map shown parts.1.items)) }
{
    let done = in_threads(rt, of, board, seats, gate)?;
    seats_and_blocks(of.alloc, done)
}
