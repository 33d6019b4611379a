//! Why a board was refused.

use thiserror::Error;

/// Why `Board::new` or `Board::gather` refused.
#[derive(Clone, Copy, Debug, PartialEq, Error)]
pub enum BoardError {
    /// B1: the blocks aren't 1 to 64, or the workers aren't 1 to 16.
    #[error("B1: a board has 1 to 64 blocks and 1 to 16 workers")]
    Limits,
    /// B2: fewer seats came back than the board has workers.
    #[error("B2: fewer seats than workers")]
    Seats,
    /// An allocation was refused: there was no memory.
    #[error("out of memory")]
    Memory,
}
