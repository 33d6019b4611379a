//! The lines of a unit, printed.

ghost use Rattle.std.specs.{Prelude.{◌≡◌, ◌++◌, codes, OnOk, IfOk}, Int.{w16}, List.{flat_map}, String.{string_bytes}};
ghost use Rattle.bpf_text_lex.specs.{MnemonicWords.{mnemonic_word}, PrintedLines.{head_line, size_spelling}};
ghost use Rattle.bpf_text_lex.specs.PrintedLines.{distance_spelling, value_spelling, operands_spelling, insn_line};

use crate::mnemonic::Mnemonic;
use crate::mnemonic_words::{
    alu_word, atomic_word, callee_word, compare_word, endian_word, kind_word, movsx_word,
    order_word, size_word, width_word,
};
use crate::statement::{mnemonic_of, operands_of};
use crate::value::{Operands, Value};
use bpf_insn_types::Insn;
use std::alloc::{AllocError, Global};

/// Adds a mnemonic to a text.
fn print_mnemonic(out: &mut String, mnemonic: Mnemonic) -> Result<(), AllocError>
    ensures { OnOk result (string_bytes out.new ≡ string_bytes out.old ++ mnemonic_word mnemonic) }
{
    match mnemonic {
        Mnemonic::Alu(width, op) => write!(out, "{}{}", alu_word(op), width_word(width)),
        Mnemonic::Neg(width) => write!(out, "neg{}", width_word(width)),
        Mnemonic::Movsx(width, bits) => {
            write!(out, "mov{}s{}", width_word(width), movsx_word(bits))
        }
        Mnemonic::Endian(order, bits) => write!(out, "{}{}", order_word(order), endian_word(bits)),
        Mnemonic::Ja => out.push_str("ja"),
        Mnemonic::Ja32 => out.push_str("ja32"),
        Mnemonic::Jump(width, compare) => {
            write!(out, "{}{}", compare_word(compare), width_word(width))
        }
        Mnemonic::Call(callee) => out.push_str(callee_word(callee)),
        Mnemonic::Exit => out.push_str("exit"),
        Mnemonic::Load(size) => write!(out, "ldx{}", size_word(size)),
        Mnemonic::LoadSx(size) => write!(out, "ldxs{}", size_word(size)),
        Mnemonic::StoreImm(size) => write!(out, "st{}", size_word(size)),
        Mnemonic::Store(size) => write!(out, "stx{}", size_word(size)),
        Mnemonic::Atomic(width, op) => {
            write!(out, "atomic{} {}", width_word(width), atomic_word(op))
        }
        Mnemonic::LoadImm(kind) => out.push_str(kind_word(kind)),
    }
}

/// Adds a distance, which always has a sign, to a text.
#[tactic(auto, using(crate::proofs::DistanceLaws::signed))]
fn print_distance(out: &mut String, distance: i32) -> Result<(), AllocError>
    ensures { OnOk result (string_bytes out.new ≡ string_bytes out.old ++ distance_spelling distance) }
{
    write!(out, "{distance:+}")
}

/// Adds an operand to a text.
fn print_value(out: &mut String, value: Value) -> Result<(), AllocError>
    ensures { OnOk result (string_bytes out.new ≡ string_bytes out.old ++ value_spelling value) }
{
    match value {
        Value::Reg(reg) => write!(out, "r{}", reg.number()),
        Value::Imm(imm) => write!(out, "{imm}"),
        Value::Wide(number) => write!(out, "{number}"),
        Value::Distance(distance) => print_distance(out, i32::from(distance)),
        Value::FarDistance(distance) => print_distance(out, distance),
        Value::Address(base, offset) => {
            write!(out, "[r{}", base.number())?;
            print_distance(out, i32::from(offset))?;
            out.push_str("]")
        }
    }
}

/// Adds operands to a text: a space before the first, a comma and a space before the others.
fn print_operands(out: &mut String, operands: Operands) -> Result<(), AllocError>
    ensures { OnOk result (string_bytes out.new ≡ string_bytes out.old ++ operands_spelling operands) }
{
    match operands {
        Operands::Zero => Ok(()),
        Operands::One(first) => {
            out.push_str(" ")?;
            print_value(out, first)
        }
        Operands::Two(first, second) => {
            out.push_str(" ")?;
            print_value(out, first)?;
            out.push_str(", ")?;
            print_value(out, second)
        }
        Operands::Three(first, second, third) => {
            out.push_str(" ")?;
            print_value(out, first)?;
            out.push_str(", ")?;
            print_value(out, second)?;
            out.push_str(", ")?;
            print_value(out, third)
        }
    }
}

/// Adds the line of an instruction to a text.
pub fn print_insn(out: &mut String, insn: &Insn) -> Result<(), AllocError>
    ensures { OnOk result (string_bytes out.new ≡ string_bytes out.old ++ insn_line insn.now) }
{
    print_mnemonic(out, mnemonic_of(insn))?;
    print_operands(out, operands_of(insn))?;
    out.push_str("\n")
}

/// Adds sizes to a text, each after a space.
fn print_sizes(out: &mut String, sizes: &[u32]) -> Result<(), AllocError>
    ensures { OnOk result (string_bytes out.new ≡ string_bytes out.old ++ flat_map size_spelling sizes.now) }
{
    for size in sizes {
        write!(out, " {size}")?;
    }
    Ok(())
}

/// The first line of a unit.
pub fn print_head(alloc: Global, sizes: &[u32]) -> Result<String, AllocError>
    ensures { IfOk result (λ text. string_bytes text ≡ head_line sizes.now) }
{
    let mut out = String::from_str(alloc, "maps")?;
    print_sizes(&mut out, sizes)?;
    out.push_str("\n")?;
    Ok(out)
}
