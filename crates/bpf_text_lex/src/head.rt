//! The first line of a unit: `maps` and the number of elements of each map.

ghost use Rattle.bpf_insn_types.specs.Outcome.{MatchesUnlessMemory};
ghost use Rattle.bpf_text_lex.specs.{Words.{words_of}, Refusals.{at_line, text_refusal}, Head.{head_of}};

use crate::fields::read_fields_after;
use crate::text_error::{TextError, TextFault};
use bpf_insn_types::elements_of;
use std::alloc::Global;

/// The sizes of maps that a unit's first line, whose number this is, gives, or its fault.
pub fn read_head(alloc: Global, content: &[u8], line: u32) -> Result<Vec<u32>, TextError>
    ensures { MatchesUnlessMemory text_refusal (λ v. v.items) result (at_line line (head_of (words_of content.now))) }
{
    let sizes = read_fields_after(alloc, b"maps", content, line)?;
    if elements_of(&sizes).is_none() {
        return Err(TextFault::Limits.at(line));
    }
    Ok(sizes)
}
