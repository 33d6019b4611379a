//! Why bytes are no program, or a program has no bytes.

ghost use Rattle.std.specs.Prelude.{◌≡◌};
ghost use Rattle.bpf_insn.specs.declared.codec_error.CodecError.TheVariants.{Memory};
ghost use Rattle.bpf_insn.specs.FaultNumbers.{codec_fault_number};

use std::alloc::{AllocError, AllocFailed};
use thiserror::Error;

/// What is wrong at a slot. Where several apply, the least number counts.
#[derive(Clone, Copy, Debug, PartialEq)]
pub enum CodecFault {
    /// Fewer than 8 bytes are left.
    Incomplete,
    /// No form has this opcode.
    UnknownOpcode,
    /// A register number, in either half of byte 1, is above 10.
    RegisterNumber,
    /// A field that has to be zero isn't.
    FieldNotZero,
    /// A call's source is above 2.
    CallSource,
    /// A two-slot load's kind is above 6.
    LoadKind,
    /// The immediate of a byte order or of an atomic isn't one of its own.
    Immediate,
    /// The offset of a division, a modulo or a move isn't one of its own.
    Offset,
    /// A two-slot load has no second slot, or one whose opcode, registers or offset aren't zero.
    SecondSlot,
}

impl CodecFault {
    /// Its number, 1 to 7, by which it is printed and the least of several is found. The three
    /// faults of a field's value share the number 4.
    pub fn number(self) -> u8
        ensures { result ≡ codec_fault_number self }
    {
        match self {
            CodecFault::Incomplete => 1,
            CodecFault::UnknownOpcode => 2,
            CodecFault::RegisterNumber => 3,
            CodecFault::FieldNotZero | CodecFault::CallSource | CodecFault::LoadKind => 4,
            CodecFault::Immediate => 5,
            CodecFault::Offset => 6,
            CodecFault::SecondSlot => 7,
        }
    }
}

/// Why `decode` or `encode` refuses.
#[derive(Debug, Drop, PartialEq, Error)]
pub enum CodecError {
    /// The first fault, at its slot of 8 bytes, counted from 0.
    #[error("refused {fault:?} at slot {slot}")]
    Refused { fault: CodecFault, slot: usize },
    /// Memory ran out.
    #[error("out of memory")]
    Memory,
}

impl From<AllocError> for CodecError {
    ghost from_gives = { λ _ e. e ≡ Memory };

    fn from(_e: AllocError) -> CodecError {
        CodecError::Memory
    }
}

impl<T: Drop> From<AllocFailed<T>> for CodecError {
    ghost from_gives = { λ _ e. e ≡ Memory };

    fn from(_e: AllocFailed<T>) -> CodecError {
        CodecError::Memory
    }
}
