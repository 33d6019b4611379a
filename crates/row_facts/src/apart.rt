//! Bytes of two accesses that are never the same.

ghost use Rattle.std.specs.Prelude.{◌≡◌, ℕ, ◌+◌, ◌<◌, ◌≤◌, true};
ghost use Rattle.value_range.specs.Spans.{Contains};
ghost use Rattle.row_facts.specs.Apart.{AreRangesApart, AreLinesApart, AreBytesApart};

use crate::fact::Fact;
use crate::lines::{Line, common_bits, low};
use value_range::Range;

/// Whether all bytes of one access come before those of another: from each number of a range on as many as its size.
fn ends_before(first: Range, size: u64, second: Range) -> bool
    ensures { result ≡ true → (x y : ℕ) → Contains first x → Contains second y → x + size ≤ y }
{
    let end = first.hi();
    let begin = second.lo();
    end < begin && begin - end >= size
}

/// Whether the bytes of two accesses, by their ranges, are never the same.
fn are_ranges_apart(first: Range, first_size: u64, second: Range, second_size: u64) -> bool
    ensures { result ≡ true → AreRangesApart first first_size second second_size }
{
    ends_before(first, first_size, second) || ends_before(second, second_size, first)
}

/// Whether they are never the same, by their lines, where the first access is so many indexes after the second.
pub(crate) fn are_lines_apart(
    first: Line,
    first_size: u64,
    second: Line,
    second_size: u64,
    distance: u64,
) -> bool
    ensures { result ≡ true → AreLinesApart first first_size second second_size distance }
{
    let bits = common_bits(first.scale, second.scale)
        .min(first.bits)
        .min(second.bits);
    let ahead = first
        .scale
        .wrapping_mul(distance)
        .wrapping_add(first.offset)
        .wrapping_sub(second.offset);
    low(ahead, bits) >= second_size && low(ahead.wrapping_neg(), bits) >= first_size
}

/// Whether they are never the same, where the first access is from some indexes on, and up to others, after the second.
pub(crate) fn are_apart(
    first: Fact,
    first_size: u64,
    second: Fact,
    second_size: u64,
    from: u64,
    upto: u64,
) -> bool
    ensures { result ≡ true → (distance : ℕ) → from ≤ distance → distance < upto →
        AreBytesApart first first_size second second_size distance }
{
    if are_ranges_apart(first.range, first_size, second.range, second_size) {
        return true;
    }
    for distance in from..upto {
        if !are_lines_apart(first.line, first_size, second.line, second_size, distance) {
            return false;
        }
    }
    true
}
