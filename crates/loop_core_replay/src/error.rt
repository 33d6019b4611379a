//! Why a list of events isn't replayed.

use loop_core_model::ReplayFault;
use std::alloc::AllocError;
use thiserror::Error;

/// Why a list of events isn't replayed.
#[derive(Debug, Drop, PartialEq, Error)]
pub enum ReplayError {
    /// The list is no schedule.
    #[error("{0}")]
    Fault(ReplayFault),
    /// There was no memory.
    #[error("out of memory")]
    Memory,
}

impl From<AllocError> for ReplayError {
    ghost use Rattle.std.specs.Prelude.{◌≡◌};
    ghost use Rattle.loop_core_replay.specs.declared.error.ReplayError.TheVariants.{Memory};

    ghost from_gives = { λ _ e. e ≡ Memory };

    fn from(_e: AllocError) -> ReplayError {
        ReplayError::Memory
    }
}
