//! Boards in one thread and in several, their limits, and failed allocations.

ghost use Rattle.std.specs.Prelude.{◌≡◌, ◌≤◌, replicate, IfOk};
ghost use Rattle.loop_board.specs.Seats.{new_seat};

use crate::tests::asserts::assert_same;
use loop_board::{Board, BoardError, BoardSeat, Tally};
use std::alloc::Global;
use std::test::Fail;
use std::thread;

const NO_POST: u32 = 4_294_967_295;

/// What is gathered of this many claims and this least post.
fn tally(claimed: u32, least: u32) -> Tally {
    Tally { claimed, least }
}

#[test]
fn a_look_sees_what_another_seat_posted(rt: HostRuntime) -> Result<(), Fail> {
    let (board, mut seats) = Board::new(rt.alloc(), 4, 2)?;
    assert!(rt; seats.len() == 2);
    let before = board.look(&mut seats[0]);
    board.post(&mut seats[1], 3);
    let after = board.look(&mut seats[0]);
    assert_same(&rt, [before, after], [NO_POST, 3]);
    assert_same(&rt, board.gather(seats)?, tally(0, 3));
    Ok(())
}

#[test]
fn limits_are_refused(rt: HostRuntime) -> Result<(), Fail> {
    for (blocks, workers) in [(0, 1), (65, 1), (1, 0), (1, 17), (u32::MAX, u32::MAX)] {
        let made = Board::new(rt.alloc(), blocks, workers);
        assert!(rt;
            matches!(made, Err(BoardError::Limits)),
            "{blocks} blocks, {workers} workers"
        );
    }
    let (board, seats) = Board::new(rt.alloc(), 64, 16)?;
    assert!(rt; seats.len() == 16);
    assert_same(&rt, board.gather(seats)?, tally(0, NO_POST));
    Ok(())
}

/// A board of two blocks and two workers, by a second try if an allocation failed. `gather` allocates nothing.
fn board_of_two(alloc: Global) -> Result<(Board, Vec<BoardSeat>), BoardError>
    ensures { IfOk result (λ made. made.1.items ≡ replicate 2 (new_seat made.0)) }
{
    match Board::new(alloc, 2, 2) {
        Err(BoardError::Memory) => Board::new(alloc, 2, 2),
        made => made,
    }
}

#[test]
fn a_refused_allocation_changes_nothing(rt: HostRuntime) -> Result<(), Fail> {
    let (board, mut seats) = board_of_two(rt.alloc())?;
    assert!(rt; seats.len() == 2);
    let claim = board.claim(&mut seats[1]);
    board.post(&mut seats[1], 8_388_607);
    assert_same(&rt, claim, Some(0));
    assert_same(&rt, board.gather(seats)?, tally(1, 8_388_607));
    Ok(())
}

/// Claims until none is left, and posts the index.
fn drain_and_post(board: &Board, seat: &mut BoardSeat, index: u32)
    requires board { seat.old.board ≡ board.now }
    requires index { index ≤ 8_388_607 }
    ensures { seat.new.board ≡ seat.old.board }
{
    for _ in 0..=64 {
        if board.claim(seat).is_none() {
            break;
        }
    }
    board.post(seat, index);
}

/// An index to post, for each of four workers.
fn break_of(worker: usize) -> u32
    ensures { result ≤ 8_388_607 }
{
    match worker {
        0 => 40,
        1 => 10,
        2 => 8_388_607,
        _ => 20,
    }
}

#[test]
fn four_threads_share_64_blocks(rt: HostRuntime) -> Result<(), Fail> {
    let (board, mut seats) = Board::new(rt.alloc(), 64, 4)?;
    let shared = &board;
    thread::for_each_mut(
        &rt,
        &mut seats,
        4,
        &|number, seat| {
            drain_and_post(shared, seat, break_of(number));
        },
    );
    assert_same(&rt, board.gather(seats)?, tally(64, 10));
    Ok(())
}
