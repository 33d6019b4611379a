//! The laws of ranges, of the definitions alone. Nothing runs here.

ghost use Rattle.value_range.specs.{SpanLaw.{SpanLaw}, RefineLaw.{RefineLaw}, AluLaw.{AluLaw}};

use bpf_insn_types::results_fit;

/// What makes a range makes one, and it contains what it is made of.
pub fn span_law()
    ensures { SpanLaw }
{}

/// A condition leaves ranges, and in them each pair of words that meets it.
pub fn refine_law()
    ensures { RefineLaw }
{}

/// An operation leaves a range, and in it its result of each pair of words.
pub fn alu_law()
    ensures { AluLaw }
{
    results_fit();
}
