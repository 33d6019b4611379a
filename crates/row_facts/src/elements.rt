//! Lines whose numbers are never in one element.

ghost use Rattle.std.specs.Prelude.{◌≡◌, ◌+◌, ◌*◌, ◌≤◌, true};
ghost use Rattle.row_facts.specs.Elements.{AreLinesClear};

use crate::{Line, common_bits, low};

/// How many bytes an element has.
const ELEMENT: u64 = 8;

/// How many bits the number of a byte has.
const BYTE_BITS: u32 = 32;

/// Whether numbers that begin at a start, and rise so many times by a step, stay an element away from 0 and from a
/// modulus.
fn stays_clear(start: u64, step: u64, count: u64, modulus: u64) -> bool
    ensures { result ≡ true → (8 ≤ start) × (start + step * count + 8 ≤ modulus) }
{
    match step.checked_mul(count) {
        None => false,
        Some(rise) => {
            start >= ELEMENT
                && modulus >= ELEMENT
                && start <= modulus - ELEMENT
                && rise <= modulus - ELEMENT - start
        }
    }
}

/// Whether no element has numbers of both lines, of indexes below n, where the first is at least so many indexes after
/// the second: it rises, and stays ahead.
pub fn are_lines_clear(first: Line, second: Line, from: u32, n: u32) -> bool
    ensures { result ≡ true → AreLinesClear first second from n }
{
    let bits = common_bits(first.scale, second.scale)
        .min(first.bits)
        .min(second.bits)
        .min(BYTE_BITS);
    let ahead = first
        .scale
        .wrapping_mul(from as u64)
        .wrapping_add(first.offset)
        .wrapping_sub(second.offset);
    let count = (n as u64).saturating_sub(from as u64 + 1);
    stays_clear(low(ahead, bits), low(first.scale, bits), count, 1 << bits)
}
