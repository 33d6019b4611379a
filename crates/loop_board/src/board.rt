//! The board itself: claims, looks, posts, and the tally at the end.

ghost use Rattle.std.specs.Prelude.{◌≡◌, ◌<◌, ◌≤◌, ◌↔◌, [], replicate, vec_len, All, IsTrue, IsNone, IfSome, IfNone};
ghost use Rattle.std.specs.Prelude.{IfOk, IfErr, OnOk};
ghost use Rattle.loop_board.specs.{History.{IsIndexOrNone, Legal, least_post}, Seats.{histories}};
ghost use Rattle.loop_board.specs.Seats.{IsWithinLimits, new_seat, after_draw, after_none, after_look, after_post};

use crate::dealing::deal;
use crate::error::BoardError;
use crate::gathering::{close, join};
use crate::rule::{BoardTable, Claim, Look, Post};
use crate::seat::BoardSeat;
use crate::view::Extent;
use loop_core_model::{MAX_BLOCKS, MAX_WORKERS};
use std::alloc::Global;
use std::marker::Model;

/// What the least break is where no index was posted.
const NO_POST: u32 = u32::MAX;

/// What the seats of a board did, once all of them came back.
#[derive(Clone, Copy, Debug, PartialEq)]
pub struct Tally {
    /// How many blocks were drawn, 0 to 64: the numbers below it, each once. It is all blocks where a seat found none.
    pub claimed: u32,
    /// The least index posted, 0 to 8,388,607, or 4,294,967,295 where none was.
    pub least: u32,
}

/// The blocks of a loop for its workers to claim, and the loop's least break.
/// Contracts see which board it is, and how many blocks and workers it has.
#[derive(Drop)]
pub struct Board {
    table: BoardTable,
    extent: Extent,
}

impl Model for Board {
    ghost use Rattle.loop_board.specs.{Seats.{BoardId}, Rule.{board_id_of, IsBoards}};

    ghost Value = { BoardId };

    ghost view = { λ b. board_id_of b.table.shared.table_id b.extent };

    ghost invariant = { λ b. IsBoards b.table.shared.table_id b.table.shared.key b.extent };
}

/// Whether there are 1 to 64 blocks and 1 to 16 workers.
fn is_within_limits(blocks: u32, workers: u32) -> bool
    ensures { IsTrue result ↔ IsWithinLimits blocks workers }
{
    (1..=MAX_BLOCKS).contains(&blocks) && (1..=MAX_WORKERS).contains(&workers)
}

impl Board {
    /// A board of 1 to 64 blocks, and one seat for each of 1 to 16 workers.
    /// B1 (`Limits`) where a limit is broken; `Memory` where an allocation was refused.
    pub fn new(
        alloc: Global,
        blocks: u32,
        workers: u32,
    ) -> Result<(Board, Vec<BoardSeat>), BoardError>
        ensures board { IfOk result (λ r. (r.0.blocks ≡ blocks) × (r.0.workers ≡ workers)) }
        ensures seats { IfOk result (λ r. r.1.items ≡ replicate workers (new_seat r.0)) }
        ensures within { OnOk result (IsWithinLimits blocks workers) }
        ensures limits { (result ≡ Err BoardError.Limits) ↔ (¬ IsWithinLimits blocks workers) }
    {
        if !is_within_limits(blocks, workers) {
            return Err(BoardError::Limits);
        }
        let extent = Extent { blocks, workers };
        let Ok(mut seats) = Vec::with_capacity(alloc, workers as usize) else {
            return Err(BoardError::Memory);
        };
        let Ok((table, first)) = BoardTable::of_words(alloc, &[0, u64::from(NO_POST)], &extent)
        else {
            return Err(BoardError::Memory);
        };
        deal(&table.shared, first, workers, &mut seats);
        Ok((Board { table, extent }, seats))
    }

    /// Draws the next block for the worker of this seat, a number from 0 on below the board's blocks, or `None` where
    /// none is left. It is one `fetch_add`; after a `None` the same seat answers `None` without a step.
    /// The seat is one of this board.
    pub fn claim(&self, seat: &mut BoardSeat) -> Option<u32>
        requires { seat.old.board ≡ self.now }
        ensures below { IfSome result (λ k. k < self.now.blocks) }
        ensures above { IfSome result (λ k. All (λ d. d < k) seat.old.history.draws) }
        ensures drawn { IfSome result (λ k. seat.new ≡ after_draw seat.old k) }
        ensures none { IfNone result (seat.new ≡ after_none seat.old) }
        ensures stays_none { IsTrue seat.old.history.found_none → IsNone result }
    {
        if seat.drained {
            return None;
        }
        let found = self.table.shared.fetch_add::<Claim>(&mut seat.seat, 0, 1);
        if found < u64::from(self.extent.blocks) {
            Some(found as u32)
        } else {
            seat.drained = true;
            None
        }
    }

    /// The least index posted so far, 0 to 8,388,607, or 4,294,967,295 where no post was made. It is one load, and
    /// never above what this seat saw or posted before. The seat is one of this board.
    pub fn look(&self, seat: &mut BoardSeat) -> u32
        requires { seat.old.board ≡ self.now }
        ensures posts { All (λ p. result ≤ p) seat.old.history.posts }
        ensures looks { All (λ p. result ≤ p) seat.old.history.looks }
        ensures index { IsIndexOrNone result }
        ensures seen { seat.new ≡ after_look seat.old result }
    {
        self.table.shared.load::<Look>(&mut seat.seat, 1) as u32
    }

    /// Posts the index of an iteration that broke, at most 8,388,607. It is one `fetch_min`.
    /// The seat is one of this board.
    pub fn post(&self, seat: &mut BoardSeat, index: u32)
        requires board { seat.old.board ≡ self.now }
        requires index { index ≤ 8_388_607 }
        ensures { seat.new ≡ after_post seat.old index }
    {
        let words = &self.table.shared;
        words.fetch_min::<Post>(&mut seat.seat, 1, u64::from(index));
    }

    /// Ends the board, and returns what all its seats did. B2 (`Seats`) where there are fewer seats than workers; the
    /// board and the seats are dropped then. It takes no memory. The seats are of this board.
    pub fn gather(self, seats: Vec<BoardSeat>) -> Result<Tally, BoardError>
        requires { All (λ s. s.board ≡ self) seats.items }
        ensures legal { IfOk result (λ t. Legal self.blocks t.claimed (histories seats.items)) }
        ensures least { IfOk result (λ t. t.least ≡ least_post (histories seats.items)) }
        ensures index { IfOk result (λ t. IsIndexOrNone t.least) }
        ensures all_seats { OnOk result (vec_len seats ≡ self.workers) }
        ensures few_seats { IfErr result (λ e. (e ≡ BoardError.Seats) × (vec_len seats < self.workers)) }
    {
        let Board { table, extent } = self;
        if seats.len() < extent.workers as usize {
            return Err(BoardError::Seats);
        }
        let whole = join(&table.shared, seats);
        let (claimed, least) = close(table, extent.blocks, whole);
        Ok(Tally { claimed, least })
    }
}
