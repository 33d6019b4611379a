//! The elements that lanes may access at a site.

ghost use Rattle.std.specs.Prelude.{◌≡◌, true};
ghost use Rattle.loop_inspector.specs.Reach.{AreAlone, AreApart, AreSitesApart, IsSpanOf};

use row_facts::{Site, are_lines_clear, reduce_alike};

/// How many bytes an element has.
const ELEMENT: u64 = 8;

/// Elements that follow each other: from a first one up to the last.
#[derive(Clone, Copy)]
pub(crate) struct Span {
    pub first: u64,
    pub last: u64,
}

/// The elements that lanes may access at a site, by the range of its bytes.
pub(crate) fn span_of(site: &Site) -> Span
    ensures { IsSpanOf site.now result }
{
    Span {
        first: site.byte.range.lo() / ELEMENT,
        last: site.byte.range.hi() / ELEMENT,
    }
}

/// Whether two spans have no common element.
pub(crate) fn are_apart(one: Span, other: Span) -> bool
    ensures { result ≡ true → AreApart one other }
{
    one.last < other.first || other.last < one.first
}

/// Whether lanes, of indexes below n, access no common element at two sites.
fn are_sites_apart(at: &Site, by: &Site, n: u32) -> bool
    ensures { result ≡ true → AreSitesApart at.now by.now n }
{
    are_apart(span_of(at), span_of(by))
        || (are_lines_clear(at.byte.line, by.byte.line, 0, n)
            && are_lines_clear(by.byte.line, at.byte.line, 0, n))
}

/// Whether each of these sites reduces by the same operator as another, or is apart from it.
pub(crate) fn is_alone(sites: &[Site], by: &Site, n: u32) -> bool
    ensures { result ≡ true → AreAlone sites.now by.now n }
{
    for at in sites {
        if !reduce_alike(&by.op, &at.op) && !are_sites_apart(at, by, n) {
            return false;
        }
    }
    true
}
