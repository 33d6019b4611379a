//! The halves of a word.

ghost use Rattle.std.specs.Prelude.{◌≡◌, ◌<◌, ◌^◌};
ghost use Rattle.array_maps.specs.Halves.{half_of, with_half, part_of};

use crate::access::{Half, Part};

/// One more than the greatest half.
const MODULUS: u64 = 0x1_0000_0000;

/// A half of a word, zero-extended.
#[tactic(auto, unfolding(crate::specs::Halves::half_of))]
pub fn half_of(half: Half, word: u64) -> u64
    ensures value { result ≡ half_of half word }
    ensures bound { result < 2 ^ 32 }
{
    match half {
        Half::Low => word % MODULUS,
        Half::High => word / MODULUS,
    }
}

/// A word with a half replaced by the lower half of a number.
#[tactic(auto, unfolding(crate::specs::Halves::with_half))]
pub fn with_half(half: Half, word: u64, number: u64) -> u64
    ensures { result ≡ with_half half word number }
{
    match half {
        Half::Low => number % MODULUS + MODULUS * (word / MODULUS),
        Half::High => word % MODULUS + MODULUS * (number % MODULUS),
    }
}

/// A part of a word, zero-extended.
pub fn part_of(part: Part, word: u64) -> u64
    ensures { result ≡ part_of part word }
{
    match part {
        Part::Whole => word,
        Part::Half(half) => half_of(half, word),
    }
}
