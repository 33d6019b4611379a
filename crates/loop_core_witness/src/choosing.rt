//! Which iterations and elements are shown.

ghost use Rattle.std.specs.Prelude.{◌≡◌, ◌≤◌, IfOk};
ghost use Rattle.loop_core_witness.specs.Choosing.{span_around, ends_of, are_apart, spans_of};
ghost use Rattle.loop_core_witness.specs.Choosing.{less_than, shown_elements};

use crate::focus::Focus;
use std::alloc::{AllocError, Global};

/// The most rows, and the most columns.
const MOST: u32 = 64;

/// Iterations that follow on one another.
#[derive(Clone, Copy, Debug)]
pub struct Span {
    /// The index of the first.
    pub from: u32,
    /// The index after that of the last.
    pub past: u32,
}

/// `most` of `count` iterations, or all, with an index in their middle where that can be.
fn span_around(index: u32, count: u32, most: u32) -> Span
    ensures is { result ≡ span_around index count most }
    ensures rising { result.from ≤ result.past }
    ensures within { result.past ≤ count }
{
    let from = index
        .saturating_sub(most / 2)
        .min(count.saturating_sub(most));
    Span {
        from,
        past: from + most.min(count - from),
    }
}

/// The lesser iteration of a focus and the greater one; 0 where there is none.
fn ends_of(focus: Option<Focus>) -> (u32, u32)
    ensures { (result.0, result.1) ≡ ends_of focus }
{
    match focus {
        Some(at) => (at.first.min(at.second), at.first.max(at.second)),
        None => (0, 0),
    }
}

/// Whether two of `count` iterations are too far apart for one span.
fn are_apart(low: u32, high: u32, count: u32) -> bool
    ensures { result ≡ are_apart low high count }
{
    high.saturating_sub(low) >= MOST && high < count
}

/// The spans of `count` iterations that are shown: around each iteration of a focus, if these are too far apart for one
/// span; or with both in the middle of the first, and the second empty.
pub(crate) fn spans_of(count: u32, focus: Option<Focus>) -> (Span, Span)
    ensures are { (result.0, result.1) ≡ spans_of count focus }
    ensures rising { result.0.from ≤ result.0.past }
    ensures within { result.0.past ≤ count }
    ensures upper_rising { result.1.from ≤ result.1.past }
    ensures upper_within { result.1.past ≤ count }
{
    let (low, high) = ends_of(focus);
    if are_apart(low, high, count) {
        return (
            span_around(low, count, MOST / 2),
            span_around(high, count, MOST / 2),
        );
    }
    let both = span_around(low + high.saturating_sub(low) / 2, count, MOST);
    (
        both,
        Span {
            from: both.past,
            past: both.past,
        },
    )
}

/// How many of some elements are less than that of a focus.
fn less_than(focus: Option<Focus>, elements: &[u32]) -> usize
    ensures { result ≡ less_than focus elements.now }
{
    match focus {
        Some(at) => {
            let middle = at.element;
            elements.iter().filter(|element| **element < middle).count()
        }
        None => 0,
    }
}

/// Of elements, which rise, those around that of a focus, at most 64.
pub(crate) fn shown_elements(
    alloc: Global,
    elements: &[u32],
    focus: Option<Focus>,
) -> Result<Vec<u32>, AllocError>
    ensures { IfOk result (λ shown. shown.items ≡ shown_elements focus elements.now) }
{
    let most = MOST as usize;
    let from = less_than(focus, elements)
        .saturating_sub(most / 2)
        .min(elements.len().saturating_sub(most));
    let past = from + most.min(elements.len() - from);
    elements[from..past].to_vec(alloc)
}
