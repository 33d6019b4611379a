//! Why a text is refused.

ghost use Rattle.std.specs.Prelude.{◌≡◌};
ghost use Rattle.bpf_text_lex.specs.declared.text_error.TextError.TheVariants.{Memory, Refused};
ghost use Rattle.bpf_text_lex.specs.FaultNumbers.{text_fault_number};

use std::alloc::{AllocError, AllocFailed};
use thiserror::Error;

/// What is wrong with a line of a text.
#[derive(Clone, Copy, Debug, PartialEq)]
pub enum TextFault {
    /// The line isn't of the text's form; at line 0, a first line is missing.
    Form,
    /// A number or a distance is outside its field.
    Field,
    /// A register that isn't one of r0 to r10.
    Register,
    /// A label that no line defines.
    UnknownLabel,
    /// A label that an earlier line defines.
    RepeatedLabel,
    /// The text is above 1,048,576 bytes, at line 0; or the line passes 4,096 slots of instructions.
    TooLong,
    /// Maps that break the limits: 1 to 16 maps of at least 1 element and together at most 65,536; at
    /// line 0, a maps text without a map.
    Limits,
}

/// Why a text is refused.
#[derive(Debug, Drop, PartialEq, Error)]
pub enum TextError {
    /// The text isn't of its form: the least line over all its faults, and the least fault there.
    #[error("refused {fault:?} at line {line}")]
    Refused {
        /// The least fault at that line.
        fault: TextFault,
        /// The line, from 1; 0 means the whole text.
        line: u32,
    },
    /// There was no memory for the answer.
    #[error("out of memory")]
    Memory,
}

impl TextFault {
    /// Its number, 1 to 7, by which it is printed and the least of several is found.
    pub fn number(self) -> u8
        ensures { result ≡ text_fault_number self }
    {
        match self {
            TextFault::Form => 1,
            TextFault::Field => 2,
            TextFault::Register => 3,
            TextFault::UnknownLabel => 4,
            TextFault::RepeatedLabel => 5,
            TextFault::TooLong => 6,
            TextFault::Limits => 7,
        }
    }

    /// The refusal of a text with this fault at this line.
    pub fn at(self, line: u32) -> TextError
        ensures { result ≡ Refused self line }
    {
        TextError::Refused { fault: self, line }
    }
}

impl From<AllocError> for TextError {
    ghost from_gives = { λ _ e. e ≡ Memory };

    fn from(_e: AllocError) -> TextError {
        TextError::Memory
    }
}

impl<T: Drop> From<AllocFailed<T>> for TextError {
    ghost from_gives = { λ _ e. e ≡ Memory };

    fn from(_e: AllocFailed<T>) -> TextError {
        TextError::Memory
    }
}
