//! The seat of one worker.

use crate::rule::TableSeat;
use std::marker::Model;

/// A worker's seat at a board. Contracts see the board that it belongs to, and its history there.
/// It may be handed to another thread, and is used by one at a time.
#[derive(Drop)]
pub struct BoardSeat {
    pub(crate) seat: TableSeat,
    // It found none, and makes no further step to claim.
    pub(crate) drained: bool,
}

impl Model for BoardSeat {
    ghost use Rattle.std.specs.Prelude.{◌≡◌, []};
    ghost use Rattle.loop_board.specs.Seats.{SeatRecord};

    ghost Value = { SeatRecord };

    ghost use Rattle.loop_board.specs.Rule.{seat_record, IsWorkers};

    ghost view = { λ s. seat_record s.seat.table_id s.seat.me.0 s.drained };

    ghost invariant = { λ s. (s.seat.me.1 ≡ []) × IsWorkers s.seat.me.0 s.drained };
}
