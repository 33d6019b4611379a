//! A unit as assembler text, printed.

ghost use Rattle.std.specs.{Prelude.{◌≡◌, ◌++◌, OnOk}, List.{flat_map}, String.{string_bytes}};
ghost use Rattle.bpf_insn_types.specs.Outcome.{MatchesUnlessMemory};
ghost use Rattle.bpf_insn.specs.CodecRefusal.{codec_refusal};
ghost use Rattle.bpf_text_lex.specs.PrintedLines.{insn_line};
ghost use Rattle.bpf_text.specs.PrintedUnits.{assembler_form};

use bpf_insn::{CodecError, encode};
use bpf_insn_types::{Insn, Unit};
use bpf_text_lex::{print_head, print_insn};
use std::alloc::{AllocError, Global};

/// Adds the lines of instructions to a text.
fn print_insns(out: &mut String, insns: &[Insn]) -> Result<(), AllocError>
    ensures { OnOk result (string_bytes out.new ≡ string_bytes out.old ++ flat_map insn_line insns.now) }
{
    for insn in insns {
        print_insn(out, insn)?;
    }
    Ok(())
}

/// The canonical assembler text of a unit: no comments and no labels, one space after the mnemonic
/// and after each comma, each distance with its sign. It is refused as `encode` is: with the first
/// instruction that has no bytes, at its slot. `Memory` may come in place of either answer.
pub fn print_unit(alloc: Global, unit: &Unit) -> Result<String, CodecError>
    ensures { MatchesUnlessMemory codec_refusal string_bytes result (assembler_form unit.now) }
{
    let _bytes = encode(alloc, &unit.insns)?;
    let mut out = print_head(alloc, &unit.sizes)?;
    print_insns(&mut out, &unit.insns)?;
    Ok(out)
}
