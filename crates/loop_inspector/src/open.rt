//! Elements at which iterations may conflict.

ghost use Rattle.std.specs.Prelude.{◌≡◌, ℕ, ◌*◌, ◌≤◌, true, false, length, IfOk, OnOk};
ghost use Rattle.row_facts.specs.Meetings.{leaves};
ghost use Rattle.loop_inspector.specs.Reach.{IsIn};
ghost use Rattle.loop_inspector.specs.Open.{AreKept, IsApartAt, IsInSome, IsPlaneOf, OpenAt, OpenUpto, SetsSpan};

use crate::reach::{Span, is_alone, span_of};
use loop_marks::set_run;
use row_facts::{Site, are_lines_clear, leaves, reads, reduce_alike};
use std::alloc::{AllocError, Global};

/// The common elements of two spans.
fn shared(one: Span, other: Span) -> Span
    ensures { (e : ℕ) → IsIn one e → IsIn other e → IsIn result e }
{
    Span {
        first: one.first.max(other.first),
        last: one.last.min(other.last),
    }
}

/// Whether a span is empty, or within one of these.
fn is_covered(spans: &[Span], span: Span) -> bool
    ensures { result ≡ true → (e : ℕ) → IsIn span e → IsInSome spans.now e }
{
    for other in spans {
        if other.first <= span.first && span.last <= other.last {
            return true;
        }
    }
    span.last < span.first
}

/// Adds a span, if it isn't covered.
fn add_span(spans: &mut Vec<Span>, span: Span) -> Result<(), AllocError>
    ensures kept { OnOk result (AreKept spans.old.items spans.new.items) }
    ensures added { OnOk result ((e : ℕ) → IsIn span e → IsInSome spans.new.items e) }
{
    if is_covered(spans.as_slice(), span) {
        return Ok(());
    }
    Ok(spans.push(span)?)
}

/// Whether lanes, of indexes below n, may read at one site what earlier ones leave at another, but where all reduce by
/// one operator.
fn may_conflict(sites: &[Site], at: &Site, by: &Site, n: u32) -> bool
    ensures { result ≡ false → (e : ℕ) → leaves by.now.op ≡ true → IsApartAt sites.now at.now by.now n e }
{
    leaves(&by.op)
        && !are_lines_clear(at.byte.line, by.byte.line, 1, n)
        && !(reduce_alike(&by.op, &at.op) && is_alone(sites, by, n))
}

/// Adds the elements at which lanes may so read what others leave at any site.
fn add_spans(spans: &mut Vec<Span>, sites: &[Site], at: &Site, n: u32) -> Result<(), AllocError>
    ensures kept { OnOk result (AreKept spans.old.items spans.new.items) }
    ensures open { OnOk result (OpenAt sites.now at.now n (length sites.now) spans.new.items) }
{
    for by in sites {
        if may_conflict(sites, at, by, n) {
            add_span(spans, shared(span_of(at), span_of(by)))?;
        }
    }
    Ok(())
}

/// The elements at which lanes of these sites, of indexes below n, may conflict by the flow test. It fails where memory
/// runs out.
pub(crate) fn open_spans(alloc: Global, sites: &[Site], n: u32) -> Result<Vec<Span>, AllocError>
    ensures { IfOk result (λ spans. OpenUpto sites.now n (length sites.now) spans.items) }
{
    let mut spans = Vec::new(alloc);
    for at in sites {
        if reads(&at.op) {
            add_spans(&mut spans, sites, at, n)?;
        }
    }
    Ok(spans)
}

/// Sets the bits of the elements of a span, of so many elements.
fn set_span(plane: &mut [u64], span: Span, elements: u32)
    requires { elements ≤ 64 * length plane.old }
    ensures { SetsSpan span elements plane.old plane.new }
{
    let end = (u64::from(elements)).min(span.last.saturating_add(1));
    if span.first < end {
        set_run(plane, span.first as usize, (end - span.first) as u32);
    }
}

/// A bit for each element, of so many, that is set for those of spans. It fails where memory runs out.
pub(crate) fn plane_of(alloc: Global, spans: &[Span], elements: u32) -> Result<Vec<u64>, AllocError>
    ensures plane { IfOk result (λ plane. IsPlaneOf spans.now elements plane.items) }
{
    let mut plane = vec![in alloc; 0u64; (elements as usize + 63) / 64]?;
    for span in spans {
        set_span(plane.as_mut_slice(), *span, elements);
    }
    Ok(plane)
}
