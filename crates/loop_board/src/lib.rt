//! The board of one loop: which worker runs which block, and the least index at which an iteration broke.
//!
//! The workers share two words of one `atomic_table`. A claim is one `fetch_add` on the next block, a look one load
//! of the least break, and a post one `fetch_min` on it: no lock, no loop that tries again, and nobody waits.
//! Each worker has a seat, whose history (draws, posts, answers of looks) contracts see; it takes no memory.
//!
//! ```text
//! let (board, mut seats) = Board::new(alloc, 2, 1)?;      // two blocks, one worker
//! let seat = &mut seats[0];
//! let first = board.claim(seat);                          // Some(0)
//! board.post(seat, 5);                                    // an iteration of that block broke
//! let least = board.look(seat);                           // 5
//! let second = board.claim(seat);                         // Some(1)
//! let drained = board.claim(seat);                        // None
//! let tally = board.gather(seats)?;                       // 2 blocks were claimed, and the least break is 5
//! ```
#![tactic(auto)]

mod board;
mod dealing;
mod error;
mod gathering;
mod rule;
mod seat;
mod view;

ghost use Rattle.loop_board.specs.Draws.{LegalDraws};

pub use board::{Board, Tally};
pub use error::BoardError;
pub use seat::BoardSeat;

/// The law of draws: of legal histories, as those that `Board::gather` gives, each claimed block was
/// drawn by one seat, once, and by no other; and all blocks were claimed where a seat found none.
/// Nothing runs here: the contract is the law.
pub fn law_of_draws()
    ensures { LegalDraws }
{}
