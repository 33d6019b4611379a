//! How the seats of a board become one again, which knows the whole, and what the two words tell it at the end.

ghost use Rattle.std.specs.Prelude.{◌≡◌, ◌<◌, ◌≤◌, [], All, vec_len};
ghost use Rattle.loop_board.specs.{Rule.{board_id_of}, Whole.{IsWhole, IsTally}};

use crate::rule::{BoardTable, BoardWords, TableSeat, Whole};
use crate::seat::BoardSeat;

/// One seat that knows what all of these know. There is one at least.
pub(crate) fn join(words: &BoardWords, mut seats: Vec<BoardSeat>) -> TableSeat
    requires table { words.now.table_id.words ≡ 2 }
    requires some { 0 < vec_len seats }
    requires board { All (λ s. s.board ≡ board_id_of words.now.table_id words.now.key) seats.items }
    ensures table { (result.table_id ≡ words.now.table_id) × (result.me.1 ≡ []) }
    ensures whole { IsWhole result.me.0 seats.items }
{
    let Some(first) = seats.pop() else {
        unreachable!()
    };
    let BoardSeat { seat, drained: _ } = first;
    let mut whole = seat;
    while let Some(next) = seats.pop() {
        let BoardSeat { seat, drained: _ } = next;
        words.join_seat::<Whole>(&mut whole, seat);
    }
    whole
}

/// The number of blocks drawn and the least index posted, once one seat has every part.
pub(crate) fn close(table: BoardTable, blocks: u32, whole: TableSeat) -> (u32, u32)
    requires table { (whole.table_id ≡ table.shared.table_id) × (table.shared.table_id.words ≡ 2)
        × (table.shared.table_id.slots ≡ 0) }
    requires whole { table.shared.key.workers ≤ whole.me.0.parts }
    requires blocks { blocks ≡ table.shared.key.blocks }
    requires some { 0 < table.shared.key.workers }
    ensures { IsTally table.shared.key whole.me.0 result.0 result.1 }
{
    let closed = table.close_with(whole);
    let next = closed.word(0);
    let least = closed.word(1);
    closed.free();
    (next.min(u64::from(blocks)) as u32, least as u32)
}
