//! A unit's assembler text, read.

ghost use Rattle.std.specs.Prelude.{◌≡◌};
ghost use Rattle.bpf_text_lex.specs.Refusals.{text_refusal};
ghost use Rattle.bpf_insn_types.specs.Outcome.{MatchesUnlessMemory};
ghost use Rattle.bpf_text.specs.AssemblerText.{assembler_text};

use crate::label::read_labels;
use crate::program::read_insns;
use bpf_insn_types::Unit;
use bpf_text_lex::{Lines, TextError, TextFault, read_head};
use std::alloc::Global;

/// The unit of an assembler text: at most 1,048,576 bytes, a first line `maps` and the sizes of 1 to
/// 16 maps of at least 1 element and together at most 65,536, then lines of instructions and labels
/// `name:`, of at most 4,096 slots. `;` begins a comment, and empty lines are skipped.
///
/// The refusal is the least line over all faults of the text, and there the least fault: `TooLong` at
/// line 0, `Form` at line 0 where there is no first line, `Form`, `Field` for a number or a distance
/// outside its field, `Register`, `UnknownLabel`, `RepeatedLabel`, `TooLong` at the instruction that
/// passes 4,096 slots, `Limits` for sizes that break the limits. Labels are those of the whole text,
/// also after a faulty line. `Memory` may come in place of any answer.
#[tactic(auto, unfolding(crate::specs::AssemblerText::unit_of), using(crate::proofs::ReadingLaws::by_table))]
pub fn parse_unit(alloc: Global, text: &str) -> Result<Unit, TextError>
    ensures { MatchesUnlessMemory text_refusal (λ u. u) result (assembler_text text.now) }
{
    let mut lines = Lines::of(text)?;
    let Some(head) = lines.next() else {
        return Err(TextFault::Form.at(0));
    };
    let sizes = read_head(alloc, head.content, head.number)?;
    let labels = read_labels(alloc, lines.again())?;
    let insns = read_insns(alloc, lines, &labels)?;
    Ok(Unit { sizes, insns })
}
