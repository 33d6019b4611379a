//! Why nothing was run.

use std::alloc::AllocError;
use thiserror::Error;

/// Why a loop or a program wasn't run. The maps are as before.
#[derive(Debug, Drop, Error)]
pub enum RunError {
    /// P1: the maps' sizes differ from the program's.
    #[error("P1: the maps' sizes differ from the program's")]
    Sizes,
    /// P2: the plan breaks a limit.
    #[error("P2: the plan isn't of 1 to 16 workers and 1 to 64 blocks of the loop's iterations")]
    Plan,
    /// There was no memory.
    #[error("out of memory")]
    Memory,
}

impl From<AllocError> for RunError {
    ghost use Rattle.std.specs.Prelude.{◌≡◌};
    ghost use Rattle.spec_run_loop.specs.declared.error.RunError.TheVariants.{Memory};

    ghost from_gives = { λ _ e. e ≡ Memory };

    fn from(_e: AllocError) -> RunError {
        RunError::Memory
    }
}
