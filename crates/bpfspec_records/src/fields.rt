//! The fields of records, and the object of JSON that a record is.

ghost use Rattle.std.specs.{Prelude.{◌≡◌, ◌++◌, OnOk}, String.{string_bytes}};
ghost use Rattle.bpf_text_lex.specs.PrintedLines.{insn_spelling};
ghost use Rattle.bpfspec_records.specs.Fields.{flag, number, object_end, object_start, optional, signed, wide};
ghost use Rattle.bpfspec_records.specs.Fields.{word};

use bpf_insn_types::Insn;
use bpf_text_lex::print_insn;
use std::alloc::{AllocError, Global};

/// Begins a record of this kind.
#[tactic(auto, unfolding(crate::specs::Fields::object_start))]
pub(crate) fn begin(out: &mut String, kind: &str) -> Result<(), AllocError>
    ensures { OnOk result (string_bytes out.new ≡ string_bytes out.old ++ object_start kind.now) }
{
    write!(out, "{{\"record\":\"{kind}\"")
}

/// Ends a record.
#[tactic(auto, unfolding(crate::specs::Fields::object_end))]
pub(crate) fn end(out: &mut String) -> Result<(), AllocError>
    ensures { OnOk result (string_bytes out.new ≡ string_bytes out.old ++ object_end) }
{
    out.push_str("}\n")
}

/// Adds a number.
#[tactic(auto, unfolding(crate::specs::Fields::number))]
pub(crate) fn add_number(out: &mut String, name: &str, n: u64) -> Result<(), AllocError>
    ensures { OnOk result (string_bytes out.new ≡ string_bytes out.old ++ number name.now n) }
{
    write!(out, ",\"{name}\":{n}")
}

/// Adds a number that may be negative.
#[tactic(auto, unfolding(crate::specs::Fields::signed))]
pub(crate) fn add_signed(out: &mut String, name: &str, n: i64) -> Result<(), AllocError>
    ensures { OnOk result (string_bytes out.new ≡ string_bytes out.old ++ signed name.now n) }
{
    write!(out, ",\"{name}\":{n}")
}

/// Adds a number, if there is one; else the field doesn't apply.
#[tactic(auto, unfolding(crate::specs::Fields::optional))]
pub(crate) fn add_optional(out: &mut String, name: &str, n: Option<u64>) -> Result<(), AllocError>
    ensures { OnOk result (string_bytes out.new ≡ string_bytes out.old ++ optional name.now n) }
{
    match n {
        None => write!(out, ",\"{name}\":null"),
        Some(n) => add_number(out, name, n),
    }
}

/// Adds a word of 64 bits, in decimal digits as a string: some readers of JSON round large numbers.
#[tactic(auto, unfolding(crate::specs::Fields::wide))]
pub(crate) fn add_wide(out: &mut String, name: &str, n: u64) -> Result<(), AllocError>
    ensures { OnOk result (string_bytes out.new ≡ string_bytes out.old ++ wide name.now n) }
{
    write!(out, ",\"{name}\":\"{n}\"")
}

/// Adds a fixed word.
#[tactic(auto, unfolding(crate::specs::Fields::word))]
pub(crate) fn add_word(out: &mut String, name: &str, text: &str) -> Result<(), AllocError>
    ensures { OnOk result (string_bytes out.new ≡ string_bytes out.old ++ word name.now text.now) }
{
    write!(out, ",\"{name}\":\"{text}\"")
}

/// Adds whether something holds.
#[tactic(auto, unfolding(crate::specs::Fields::flag))]
pub(crate) fn add_flag(out: &mut String, name: &str, holds: bool) -> Result<(), AllocError>
    ensures { OnOk result (string_bytes out.new ≡ string_bytes out.old ++ flag name.now holds) }
{
    write!(out, ",\"{name}\":{holds}")
}

/// Adds an instruction as text.
pub(crate) fn add_insn(
    out: &mut String,
    alloc: Global,
    name: &str,
    insn: &Insn,
) -> Result<(), AllocError>
    ensures { OnOk result (string_bytes out.new ≡ string_bytes out.old ++ word name.now (insn_spelling insn.now)) }
{
    let mut line = String::new(alloc);
    print_insn(&mut line, insn)?;
    match line.as_str().strip_suffix('\n') {
        Some(text) => add_word(out, name, text),
        None => add_word(out, name, line.as_str()),
    }
}
