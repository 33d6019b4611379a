//! A line that isn't a label.

ghost use Rattle.std.specs.Prelude.{◌≡◌, Some, None, IfSome, IfNone, ◌≤◌};
ghost use Rattle.bpf_text_operands.specs.{LabelTable.{label_slots}, Statements.{mnemonic_slots, slots_at}};
ghost use Rattle.bpf_text_operands.specs.Statements.{first_word, after_word, statement_at, insn_of_line};

use crate::building::insn_of_mnemonic;
use crate::kind::kinds_of;
use crate::labels::Labels;
use crate::operands::{all_fit, operands_at};
use crate::tables::{atomic_at, atomic_width, mnemonic_at};
use bpf_insn_types::Insn;
use bpf_text_lex::{Mnemonic, TextFault, blank_at, trim_start};

/// A text up to its first blank, and what comes after its blanks there.
fn split_word(text: &[u8]) -> (&[u8], &[u8])
    ensures word { result.0.now ≡ first_word text.now }
    ensures rest { result.1.now ≡ after_word text.now }
{
    match blank_at(text) {
        Some(at) => {
            let (word, rest) = text.split_at(at);
            (word, trim_start(rest))
        }
        None => (text, &[]),
    }
}

/// The mnemonic of a line, and the text of its operands.
fn statement_at(line: &[u8]) -> Option<(Mnemonic, &[u8])>
    ensures some { IfSome result (λ x. statement_at line.now ≡ Some (x.0, x.1.now)) }
    ensures none { IfNone result (statement_at line.now ≡ None) }
{
    let (word, rest) = split_word(line);
    if let Some(width) = atomic_width(word) {
        let (word, rest) = split_word(rest);
        return Some((Mnemonic::Atomic(width, atomic_at(word)?), rest));
    }
    Some((mnemonic_at(word)?, rest))
}

/// The instruction that a line is, where its slot is this, or the least of its faults: `Form`,
/// `Field` for a number or a distance outside its field, `Register`, or `UnknownLabel`. The line has
/// no comment and no blanks round it.
#[tactic(auto, unfolding(crate::specs::Statements::insn_of_line))]
pub fn read_insn(line: &[u8], labels: &Labels<'_>, slot: u32) -> Result<Insn, TextFault>
    ensures { result ≡ insn_of_line (label_slots labels.now) slot line.now }
{
    let Some((mnemonic, text)) = statement_at(line) else {
        return Err(TextFault::Form);
    };
    match operands_at(kinds_of(mnemonic), text, labels, slot) {
        Ok(operands) => match insn_of_mnemonic(mnemonic, &operands) {
            Some(insn) => Ok(insn),
            None => Err(TextFault::Form),
        },
        Err(fault) => Err(fault),
    }
}

/// How many slots the instructions of a mnemonic take.
fn mnemonic_slots(mnemonic: Mnemonic) -> u32
    ensures { result ≡ mnemonic_slots mnemonic }
{
    match mnemonic {
        Mnemonic::LoadImm(_) => 2,
        _ => 1,
    }
}

/// How many slots a line takes: those of its instruction if it has its form and its registers exist,
/// whatever its numbers and labels are, and else none.
#[tactic(auto, unfolding(crate::specs::Statements::slots_at))]
pub fn line_slots(line: &[u8]) -> u32
    ensures slots { result ≡ slots_at line.now }
    ensures bound { result ≤ 2 }
{
    match statement_at(line) {
        Some((mnemonic, text)) if all_fit(kinds_of(mnemonic), text) => mnemonic_slots(mnemonic),
        _ => 0,
    }
}
