//! Why a program is refused.

ghost use Rattle.std.specs.Prelude.{◌≡◌};
ghost use Rattle.bpf_verify.specs.declared.error.VerifyError.TheVariants.{Memory};

use bpf_verify_model::Rule;
use std::alloc::{AllocError, AllocFailed};
use thiserror::Error;

/// Why `verify` refuses.
#[derive(Debug, Drop, PartialEq, Error)]
pub enum VerifyError {
    /// The first fault: the least slot that breaks a rule, and there the least number.
    #[error("refused {rule:?} at slot {slot}")]
    Refused { rule: Rule, slot: u32 },
    /// Memory ran out.
    #[error("out of memory")]
    Memory,
}

impl From<AllocError> for VerifyError {
    ghost from_gives = { λ _ e. e ≡ Memory };

    fn from(_e: AllocError) -> VerifyError {
        VerifyError::Memory
    }
}

impl<T: Drop> From<AllocFailed<T>> for VerifyError {
    ghost from_gives = { λ _ e. e ≡ Memory };

    fn from(_e: AllocFailed<T>) -> VerifyError {
        VerifyError::Memory
    }
}
