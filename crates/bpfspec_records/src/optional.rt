//! Numbers that may be absent.

ghost use Rattle.std.specs.Prelude.{◌≡◌};

/// The same number in 64 bits.
pub(crate) fn widened(number: Option<u32>) -> Option<u64>
    ensures { result ≡ number }
{
    match number {
        None => None,
        Some(number) => Some(u64::from(number)),
    }
}
