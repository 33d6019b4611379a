//! Why an input has no result.

ghost use Rattle.std.specs.Prelude.{◌≡◌};

use bpfspec_output::Refusal;
use std::alloc::AllocError;

/// Why an input has no result.
#[derive(Clone, Copy)]
pub enum AnswerError {
    /// It is refused.
    Refused(Refusal),
    /// There was no memory.
    Memory,
}

impl From<AllocError> for AnswerError {
    ghost use Rattle.bpfspec_serve.specs.declared.answer_error.AnswerError.TheVariants.{Memory};

    ghost from_gives = { λ _ e. e ≡ Memory };

    fn from(_e: AllocError) -> AnswerError {
        AnswerError::Memory
    }
}
