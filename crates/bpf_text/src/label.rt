//! Label lines.

ghost use Rattle.std.specs.Prelude.{◌≡◌, ◌≤◌, ◌+◌, ℕ, List, IfSome, IfNone, IfOk, OnOk, length, true, false};
ghost use Rattle.std.specs.Option.{option_or};
ghost use Rattle.bpf_text_operands.specs.LabelTable.{label_named};
ghost use Rattle.bpf_text.specs.AssemblerText.{name_of, is_label, line_slots, line_label, labels_from};

use bpf_text_lex::{Lines, is_name};
use bpf_text_operands::{Label, Labels, line_slots};
use std::alloc::{AllocError, Global};

/// The name of a label line, or None where the line is none.
pub(crate) fn label_name(line: &[u8]) -> Option<&[u8]>
    ensures some { IfSome result (λ name. (is_label line.now ≡ true) × (name.now ≡ name_of line.now)) }
    ensures none { IfNone result (is_label line.now ≡ false) }
{
    if line.is_empty() || line[line.len() - 1] != b':' {
        return None;
    }
    let name = &line[..line.len() - 1];
    if !is_name(name) {
        return None;
    }
    Some(name)
}

/// Adds the label of a line to the labels before it, if the line is one, and gives the slot after
/// the line.
fn define_line<'a>(
    labels: &mut Labels<'a>,
    content: &'a [u8],
    number: u32,
    slot: u32,
) -> Result<u32, AllocError>
    requires { slot ≤ 2097152 }
    ensures slot { IfOk result (λ next. next ≡ slot + line_slots content.now) }
    ensures bound { IfOk result (λ next. next ≤ slot + 2) }
    ensures labels { OnOk result ((name : List ℕ) → label_named labels.new name
        ≡ option_or (label_named labels.old name) (line_label slot number content.now name)) }
{
    let Some(name) = label_name(content) else {
        return Ok(slot + line_slots(content));
    };
    labels.define(name, Label { line: number, slot })?;
    Ok(slot)
}

/// The labels of lines, the first of which is at slot 0.
pub(crate) fn read_labels<'a>(alloc: Global, lines: Lines<'a>) -> Result<Labels<'a>, AllocError>
    requires { length lines ≤ 1048576 }
    ensures { IfOk result (λ labels. (name : List ℕ) → label_named labels name ≡ labels_from 0 lines.entry name) }
{
    let mut lines = lines;
    let mut labels = Labels::new(alloc);
    let mut slot = 0;
    while let Some(line) = lines.next() {
        slot = define_line(&mut labels, line.content, line.number, slot)?;
    }
    Ok(labels)
}
