//! Refusals, as C sees them.

ghost use Rattle.std.specs.Prelude.{◌≡◌};
ghost use Rattle.bpfspec_c.specs.Refusals.{error_status, told_after};

use crate::statuses::{MALFORMED, MEMORY, REFUSED};
use bpfspec_machine::LoadError;

/// Why a program isn't loaded.
#[repr(C)]
#[derive(Clone, Copy)]
pub struct Refusal {
    /// A letter: A of a text, I of the bytes of instructions, V of the verifier.
    pub kind: u32,
    /// The number after it.
    pub number: u32,
    /// The line of a text, from 1, or 0 for all of it; else the slot, from 0.
    pub place: u64,
}

/// The status of an error.
pub(crate) fn error_status(error: &LoadError) -> i32
    ensures { result ≡ error_status error.now }
{
    match *error {
        LoadError::Text { .. } | LoadError::Codec { .. } => MALFORMED,
        LoadError::Rule { .. } => REFUSED,
        LoadError::Memory => MEMORY,
    }
}

/// The refusal of an error; where there was no memory, what was reported before.
pub(crate) fn told_after(error: &LoadError, before: Refusal) -> Refusal
    ensures { result ≡ told_after error.now before }
{
    match *error {
        LoadError::Text { fault, line } => Refusal {
            kind: u32::from(b'A'),
            number: u32::from(fault.number()),
            place: u64::from(line),
        },
        LoadError::Codec { fault, slot } => Refusal {
            kind: u32::from(b'I'),
            number: u32::from(fault.number()),
            place: slot as u64,
        },
        LoadError::Rule { rule, slot } => Refusal {
            kind: u32::from(b'V'),
            number: rule.number(),
            place: u64::from(slot),
        },
        LoadError::Memory => before,
    }
}
