//! Lines modulo a power of two, and what operations make of the numbers on them.

ghost use Rattle.std.specs.Prelude.{◌≡◌, ℕ, ◌+◌, ◌-◌, ◌*◌, ◌/◌, ◌%◌, ◌^◌, ◌<◌, ◌≤◌, true};
ghost use Rattle.bpf_step_model.specs.AreaWords.{byte_named};
ghost use Rattle.row_facts.specs.Facts.{IsOnLine, IsOfMultiples};

use row_list::Place;

/// A number of each lane, modulo 2^bits: `scale * index + offset`, by the index of the lane's iteration. A scale of 0
/// says that it is the same in all lanes, and bits of 0 say nothing.
#[derive(Clone, Copy)]
pub struct Line {
    pub bits: u32,
    pub scale: u64,
    pub offset: u64,
}

/// The line of any numbers.
pub(crate) fn anything() -> Line
    ensures { (index x : ℕ) → IsOnLine result index x }
{
    Line {
        bits: 0,
        scale: 0,
        offset: 0,
    }
}

/// The line of the bytes that addresses name at a place, each by the address in place of an index.
#[tactic(auto, using(crate::proofs::OperatorLaws::twice))]
pub(crate) fn line_at(place: &Place) -> Line
    ensures { (address : ℕ) → IsOnLine result address (byte_named address place.now.offset) }
{
    Line {
        bits: 32,
        scale: 1,
        offset: (place.offset as i64).cast_unsigned(),
    }
}

/// A number modulo 2^bits, all of it at 64 bits and more.
pub fn low(number: u64, bits: u32) -> u64
    ensures { bits ≤ 64 → result ≡ number % 2 ^ bits }
{
    if bits < 64 {
        number & ((1 << bits) - 1)
    } else {
        number
    }
}

/// How many low bits two numbers have in common, at most 64.
pub fn common_bits(first: u64, second: u64) -> u32
    ensures few { result ≤ 64 }
    ensures same { first % 2 ^ result ≡ second % 2 ^ result }
{
    first.wrapping_sub(second).trailing_zeros()
}

/// Numbers that have the same low bits as those on a line.
#[tactic(auto, using(crate::proofs::Congruence::coarse))]
pub(crate) fn cut(line: Line, bits: u32) -> Line
    ensures { (index x n : ℕ) → IsOnLine line index x → n % 2 ^ bits ≡ x % 2 ^ bits → IsOnLine result index n }
{
    Line {
        bits: line.bits.min(bits),
        scale: line.scale,
        offset: line.offset,
    }
}

/// Sums of two words on lines.
pub(crate) fn sum(first: Line, second: Line) -> Line
    ensures { (index x y : ℕ) → IsOnLine first index x → IsOnLine second index y →
        IsOnLine result index ((x + y) % 2 ^ 64) }
{
    Line {
        bits: first.bits.min(second.bits).min(64),
        scale: first.scale.wrapping_add(second.scale),
        offset: first.offset.wrapping_add(second.offset),
    }
}

/// Products of words on a line with a number.
pub(crate) fn product(line: Line, factor: u64) -> Line
    ensures { (index x : ℕ) → IsOnLine line index x → IsOnLine result index ((x * factor) % 2 ^ 64) }
{
    Line {
        bits: (line.bits.min(64) + factor.trailing_zeros()).min(64),
        scale: line.scale.wrapping_mul(factor),
        offset: line.offset.wrapping_mul(factor),
    }
}

/// Whether a line says that the numbers on it are multiples of 2^bits.
pub(crate) fn is_of_multiples(line: Line, bits: u32) -> bool
    requires { bits ≤ 64 }
    ensures { result ≡ true → IsOfMultiples line bits }
{
    if line.bits < bits {
        return false;
    }
    low(line.scale, bits) == 0 && low(line.offset, bits) == 0
}

/// Words on a line shifted to the right, where the line says that no bit is lost that it knows.
pub(crate) fn quotient(line: Line, shift: u32) -> Line
    requires { shift < 64 }
    ensures { (index x : ℕ) → IsOnLine line index x → IsOnLine result index (x / 2 ^ shift) }
{
    if !is_of_multiples(line, shift) {
        return anything();
    }
    Line {
        bits: line.bits - shift,
        scale: line.scale >> shift,
        offset: line.offset >> shift,
    }
}

/// Numbers that are on either of two lines.
pub(crate) fn joined(first: Line, second: Line) -> Line
    ensures first { (index x : ℕ) → IsOnLine first index x → IsOnLine result index x }
    ensures second { (index x : ℕ) → IsOnLine second index x → IsOnLine result index x }
{
    let scale = common_bits(first.scale, second.scale);
    let offset = common_bits(first.offset, second.offset);
    Line {
        bits: first.bits.min(second.bits).min(scale).min(offset),
        scale: first.scale,
        offset: first.offset,
    }
}
