//! Numbers of a slice are words.

ghost use Rattle.array_maps.specs.MapList.{AreWords};

/// Tells that each number is below 2^64. Nothing is computed.
pub fn are_words(numbers: &[u64])
    ensures { AreWords numbers.now }
{
    for number in numbers {
        let _word = *number;
    }
}
