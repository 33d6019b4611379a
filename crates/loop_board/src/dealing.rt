//! How a board's first seat is cut into one seat a worker.

ghost use Rattle.std.specs.Prelude.{◌≡◌, ◌<◌, ◌≤◌, [], replicate, vec_len, vec_capacity};
ghost use Rattle.loop_board.specs.{Rule.{opening_view, board_id_of}, Seats.{new_seat}};

use crate::rule::{BoardWords, OnePart, TableSeat};
use crate::seat::BoardSeat;

/// One seat for each of the workers. The vector is empty and has room for them.
pub(crate) fn deal(words: &BoardWords, first: TableSeat, workers: u32, seats: &mut Vec<BoardSeat>)
    requires table { (first.table_id ≡ words.now.table_id) × (words.now.table_id.words ≡ 2) }
    requires first { first.me ≡ (opening_view words.now.key workers, []) }
    requires room { (seats.old.items ≡ []) × (workers ≤ vec_capacity seats.old) × (0 < workers) }
    ensures { seats.new.items ≡ replicate workers (new_seat (board_id_of words.now.table_id words.now.key)) }
{
    let mut whole = first;
    for _dealt in 1..workers {
        let seat = words.split_seat::<OnePart>(&mut whole);
        seats.push_reserved(BoardSeat {
            seat,
            drained: false,
        });
    }
    seats.push_reserved(BoardSeat {
        seat: whole,
        drained: false,
    });
}
