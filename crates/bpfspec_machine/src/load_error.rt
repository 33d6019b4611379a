//! Why no machine is made.

ghost use Rattle.std.specs.Prelude.{◌≡◌};

use bpf_insn::{CodecError, CodecFault};
use bpf_text_lex::{TextError, TextFault};
use bpf_verify_model::Rule;
use std::alloc::AllocError;

/// Why no machine is made.
#[derive(Clone, Copy, Debug, PartialEq)]
pub enum LoadError {
    /// The text isn't of its form: the least line over all its faults, 0 for the text as a whole, and the least fault
    /// there (A1 to A7).
    Text { fault: TextFault, line: u32 },
    /// The bytes of the instructions spell no program: the first fault, at its slot (I1 to I7).
    Codec { fault: CodecFault, slot: usize },
    /// The program breaks a rule of the verifier: the least slot, and there the least number (V1 to V25).
    Rule { rule: Rule, slot: u32 },
    /// There was no memory.
    Memory,
}

impl From<TextError> for LoadError {
    ghost use Rattle.bpfspec_machine.specs.Loading.{text_load_error};

    ghost from_gives = { λ error given. given ≡ text_load_error error };

    fn from(error: TextError) -> LoadError {
        match error {
            TextError::Refused { fault, line } => LoadError::Text { fault, line },
            TextError::Memory => LoadError::Memory,
        }
    }
}

impl From<CodecError> for LoadError {
    ghost use Rattle.bpfspec_machine.specs.Loading.{codec_load_error};

    ghost from_gives = { λ error given. given ≡ codec_load_error error };

    fn from(error: CodecError) -> LoadError {
        match error {
            CodecError::Refused { fault, slot } => LoadError::Codec { fault, slot },
            CodecError::Memory => LoadError::Memory,
        }
    }
}

impl From<AllocError> for LoadError {
    ghost use Rattle.bpfspec_machine.specs.declared.load_error.LoadError.TheVariants.{Memory};

    ghost from_gives = { λ _ given. given ≡ Memory };

    fn from(_error: AllocError) -> LoadError {
        LoadError::Memory
    }
}
