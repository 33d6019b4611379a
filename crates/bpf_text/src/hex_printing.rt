//! The hex form of a unit, written.

ghost use Rattle.std.specs.{Prelude.{◌≡◌, ◌++◌, ◌≤◌, ◌<◌, length, codes, OnOk}, String.{string_bytes}};
ghost use Rattle.bpf_insn_types.specs.Outcome.{MatchesUnlessMemory};
ghost use Rattle.bpf_insn.specs.CodecRefusal.{codec_refusal};
ghost use Rattle.bpf_text.specs.PrintedUnits.{slot_lines, hex_form};

use bpf_insn::{CodecError, encode};
use bpf_insn_types::Unit;
use bpf_text_lex::print_head;
use std::alloc::{AllocError, Global};

/// Adds slots of 8 bytes to a text, one a line, as hex digits.
fn print_slots(alloc: Global, out: &mut String, bytes: &[u8]) -> Result<(), AllocError>
    ensures { OnOk result (string_bytes out.new ≡ string_bytes out.old ++ slot_lines bytes.now) }
{
    let mut rest = bytes;
    while rest.len() >= 8 {
        let digits = hex::encode(alloc, &rest[..8])?;
        writeln!(out, "{digits}")?;
        rest = &rest[8..];
    }
    Ok(())
}

/// The hex form of a unit: its sizes, then a line of 16 lower case digits for each slot. It is
/// refused as `encode` is: with the first instruction that has no bytes, at its slot. `Memory` may
/// come in place of either answer.
pub fn write_hex(alloc: Global, unit: &Unit) -> Result<String, CodecError>
    ensures { MatchesUnlessMemory codec_refusal string_bytes result (hex_form unit.now) }
{
    let bytes = encode(alloc, &unit.insns)?;
    let mut out = print_head(alloc, &unit.sizes)?;
    print_slots(alloc, &mut out, &bytes)?;
    Ok(out)
}
