//! A worker's loop.

ghost use Rattle.std.specs.{Prelude.{◌≡◌, ◌<◌, All, map, IfOk, OnErr}, Option.{option_to_list}};
ghost use Rattle.loop_core_model.specs.Intervals.{blocks_of};
ghost use Rattle.loop_core_block.specs.{LoopBlocks.{RecordsRunOf}, Shown.{shown}};
ghost use Rattle.spec_run_workers.specs.Worked.{Worked, WorkerStopped, Took, NotRun};

use loop_board::{Board, BoardSeat};
use loop_core_block::{Block, SpeculativeLoop};
use loop_core_split::Gate;
use std::alloc::AllocError;

/// What a worker does with a block that it claimed: it looks, and unless the block starts past the least break
/// that it sees, runs the block and posts its break. `None` if it skips the block. If there is no memory to
/// run the block, it posts nothing.
fn take<'a, G: Gate>(
    of: &SpeculativeLoop<'_, 'a>,
    board: &Board,
    seat: &mut BoardSeat,
    number: u32,
    gate: &G,
) -> Result<Option<Block<'a>>, AllocError>
    requires board { seat.old.board ≡ board.now }
    requires within { number < blocks_of of.now.bounds }
    ensures took { IfOk result (λ taken. Took of.now.test of.now.program of.now.call of.now.start.words of.now.bounds
        number seat.old seat.new (map shown (option_to_list taken))) }
    ensures not_run { OnErr result (NotRun of.now.bounds number seat.old seat.new) }
{
    if board.look(seat) < of.split.start(number) {
        return Ok(None);
    }
    let block = of.run_block(number, gate)?;
    if let Some(index) = block.broke() {
        board.post(seat, index);
    }
    Ok(Some(block))
}

/// One whole worker of a loop. It claims a block, calls the gate's `begin`, and looks; unless the block starts past the
/// least break that it sees, it runs the block on the start maps and posts its break; and so on until no block is left.
/// It gives the blocks that it ran, in order, and waits for nobody.
///
/// If memory runs out while it runs a block or keeps it, it claims no more. The seat and the board keep what was
/// claimed, seen and posted; the posts are the breaks of the blocks that were run. The board has as many blocks as the
/// loop's split, and the seat is one of the board's.
pub fn work<'a, G: Gate>(
    of: &SpeculativeLoop<'_, 'a>,
    board: &Board,
    seat: &mut BoardSeat,
    gate: &G,
) -> Result<Vec<Block<'a>>, AllocError>
    requires board { seat.old.board ≡ board.now }
    requires blocks { board.now.blocks ≡ blocks_of of.now.bounds }
    ensures worked { IfOk result (λ blocks. Worked of.now.bounds seat.old seat.new (map shown blocks.items)) }
    ensures ran { IfOk result (λ blocks. All (λ b. RecordsRunOf of.now (shown b)) blocks.items) }
    ensures stopped { OnErr result (WorkerStopped of.now.test of.now.program of.now.call of.now.start.words
        of.now.bounds seat.old seat.new) }
{
    let mut blocks = Vec::new(of.alloc);
    while let Some(number) = board.claim(seat) {
        gate.begin(number);
        let taken = take(of, board, seat, number, gate)?;
        if let Some(block) = taken {
            blocks.push(block)?;
        }
    }
    Ok(blocks)
}
