//! One bit of a plane.

ghost use Rattle.std.specs.Prelude.{◌≡◌, ◌/◌, ◌%◌, ◌^◌, ◌<◌, length};
ghost use Rattle.loop_core_model.specs.Planes.{bit_of};
ghost use Rattle.shadow_marks.specs.Bits.{OrsBit};

/// Whether an element's bit is set in a plane.
#[inline]
pub fn is_set(words: &[u64], e: u32) -> bool
    requires { e / 64 < length words.now }
    ensures { result ≡ bit_of words.now e }
{
    words[e as usize / 64] & mask(e) != 0
}

/// Ors a bit into an element's. A bit that is set already isn't written again.
#[inline]
pub(crate) fn or_bit(words: &mut [u64], e: u32, bit: bool)
    requires { e / 64 < length words.old }
    ensures { OrsBit words.old words.new e bit }
{
    if bit && !is_set(words, e) {
        words[e as usize / 64] |= mask(e);
    }
}

/// An element's bit in its word.
#[inline]
fn mask(e: u32) -> u64
    ensures { result ≡ 2 ^ (e % 64) }
{
    1 << (e % 64)
}
