//! Halves that are replaced, by one line.

ghost use Rattle.std.specs.Prelude.{◌≡◌};
ghost use Rattle.array_maps.specs.{Halves.{half_of, with_half}, declared.access.Half.TheVariants.{Low}};
ghost use Rattle.lane_stamps.specs.Sites.{half_named};

/// The lower half of a word.
const LOW: u64 = 0xffff_ffff;

/// A word with the half replaced that a number names.
#[inline(always)]
pub(crate) fn replaced(place: u32, word: u64, value: u64) -> u64
    ensures whole { result ≡ with_half (half_named place) word value }
    ensures lower { result ≡ with_half (half_named place) word (half_of Low value) }
{
    let shift = 32 * (place % 2);
    let mask = LOW << shift;
    (word & !mask) | ((value << shift) & mask)
}
