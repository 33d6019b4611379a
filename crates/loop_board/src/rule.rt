//! The rule of the table, its three kinds of step, and how seats are dealt out and taken in.

use crate::view::{Extent, SeatView};
use atomic_table::{Join, Play, Seat, Shared, Split, Table, TableRule};
use std::alloc::Global;

/// The draws of all seats are the numbers below the next block, and the least break is the least post.
pub(crate) struct BoardRule;

impl TableRule<(), SeatView, Extent> for BoardRule {
    ghost use Rattle.loop_board.specs.Rule.{BoardInvariant, opening_view};

    ghost holds = { BoardInvariant };

    ghost first = { λ e. opening_view e e.workers };
}

/// One `fetch_add` of 1 on the next block.
pub(crate) struct Claim;

impl Play<(), SeatView> for Claim {
    ghost use Rattle.loop_board.specs.Rule.{Claims, Turns};

    ghost then = { λ _. Turns Claims };
}

/// One load of the least break.
pub(crate) struct Look;

impl Play<(), SeatView> for Look {
    ghost use Rattle.loop_board.specs.Rule.{Looks, Turns};

    ghost then = { λ _. Turns Looks };
}

/// One `fetch_min` on the least break.
pub(crate) struct Post;

impl Play<(), SeatView> for Post {
    ghost use Rattle.std.specs.Prelude.{◌≡◌};
    ghost use Rattle.loop_board.specs.Rule.{with_post, Turns};

    ghost then = { λ step. Turns (λ v _ w. w ≡ with_post v step.first) };
}

/// One part of the right to know the whole, for the seat of one worker.
pub(crate) struct OnePart;

impl Split<SeatView> for OnePart {
    ghost use Rattle.loop_board.specs.Rule.{less_a_part, opening_view};

    ghost left = { less_a_part };

    ghost right = { λ v. opening_view v.extent 1 };
}

/// What two seats know, as one.
pub(crate) struct Whole;

impl Join<SeatView> for Whole {
    ghost use Rattle.loop_board.specs.Rule.{together, spent_view};

    ghost both = { together };

    ghost spent = { spent_view };
}

pub(crate) type BoardTable = Table<(), SeatView, Extent, BoardRule, Global>;

pub(crate) type BoardWords = Shared<(), SeatView, Extent, BoardRule>;

pub(crate) type TableSeat = Seat<(), SeatView>;
