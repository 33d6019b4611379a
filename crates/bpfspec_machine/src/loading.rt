//! Loading programs.

ghost use Rattle.std.specs.Prelude.{◌≡◌, Ok};
ghost use Rattle.bpf_insn_types.specs.Outcome.{MatchesUnlessMemory};
ghost use Rattle.bpfspec_machine.specs.Loading.{load_refusal, readable, text_program, insns_program, hex_program};
ghost use Rattle.bpfspec_machine.specs.Loading.{loaded};

use crate::load_error::LoadError;
use crate::machine::Machine;
use bpf_insn::decode;
use bpf_insn_types::Unit;
use bpf_text::{parse_unit, read_hex};
use bpf_text_lex::TextFault;
use bpf_verify::{VerifyError, verify};
use std::alloc::Global;
use std::str;

/// Bytes as a text.
fn readable(bytes: &[u8]) -> Result<&str, LoadError>
    ensures { MatchesUnlessMemory load_refusal (λ text. text.now) result (readable bytes.now) }
{
    match str::from_utf8(bytes) {
        Ok(text) => Ok(text),
        Err(_) => Err(LoadError::Text {
            fault: TextFault::Form,
            line: 0,
        }),
    }
}

/// The machine of a unit, in a box.
#[tactic(auto, unfolding(crate::specs::Loading::and_then))]
fn load_unit(alloc: Global, unit: Unit) -> Result<Box<Machine>, LoadError>
    ensures { MatchesUnlessMemory load_refusal (λ machine. machine.value) result (loaded (Ok unit)) }
{
    let program = match verify(alloc, unit) {
        Ok(program) => program,
        Err(VerifyError::Refused { rule, slot }) => return Err(LoadError::Rule { rule, slot }),
        Err(VerifyError::Memory) => return Err(LoadError::Memory),
    };
    match Box::new(alloc, Machine::new(alloc, program)?) {
        Ok(machine) => Ok(machine),
        Err(_) => Err(LoadError::Memory),
    }
}

/// The machine of sizes and the bytes of instructions.
#[tactic(auto, using(crate::proofs::LoadLaws::load_laws))]
fn load_parts(alloc: Global, sizes: Vec<u32>, bytes: &[u8]) -> Result<Box<Machine>, LoadError>
    ensures { MatchesUnlessMemory load_refusal (λ machine. machine.value) result
        (loaded (insns_program sizes.items bytes.now)) }
{
    let insns = decode(alloc, bytes)?;
    load_unit(alloc, Unit { sizes, insns })
}

/// Loads an assembler text of at most 1,048,576 bytes.
#[tactic(auto, using(crate::proofs::LoadLaws::load_laws), unfolding(crate::specs::Loading::and_then))]
pub fn load_text(alloc: Global, text: &[u8]) -> Result<Box<Machine>, LoadError>
    ensures { MatchesUnlessMemory load_refusal (λ machine. machine.value) result (loaded (text_program text.now)) }
{
    load_unit(alloc, parse_unit(alloc, readable(text)?)?)
}

/// Loads a text in hex form of at most 1,048,576 bytes.
#[tactic(auto, using(crate::proofs::LoadLaws::load_laws), unfolding(crate::specs::Loading::and_then))]
pub fn load_hex(alloc: Global, text: &[u8]) -> Result<Box<Machine>, LoadError>
    ensures { MatchesUnlessMemory load_refusal (λ machine. machine.value) result (loaded (hex_program text.now)) }
{
    let parts = read_hex(alloc, readable(text)?)?;
    load_parts(alloc, parts.sizes, &parts.bytes)
}

/// Loads a program by the sizes of its maps and the bytes of its instructions, 8 a slot.
pub fn load_insns(alloc: Global, sizes: &[u32], bytes: &[u8]) -> Result<Box<Machine>, LoadError>
    ensures { MatchesUnlessMemory load_refusal (λ machine. machine.value) result
        (loaded (insns_program sizes.now bytes.now)) }
{
    load_parts(alloc, sizes.to_vec(alloc)?, bytes)
}
