//! Rounding to multiples of a power of two.

ghost use Rattle.std.specs.Prelude.{◌≡◌, ◌<◌, ◌≤◌, ◌^◌};
ghost use Rattle.value_range.specs.Spans.{rounded_up, rounded_down};

/// The greatest multiple of 2^zeros that is not above a number.
#[tactic(auto, unfolding(crate::specs::Spans::rounded_down))]
pub fn round_down(number: u64, zeros: u32) -> u64
    requires { zeros ≤ 64 }
    ensures { result ≡ rounded_down zeros number }
{
    if zeros == 64 {
        0
    } else {
        number >> zeros << zeros
    }
}

/// The least multiple of 2^zeros that is not below a number.
#[tactic(auto, unfolding(crate::specs::Spans::rounded_up, crate::specs::Spans::rounded_down))]
pub(crate) fn round_up(number: u64, zeros: u32) -> u64
    requires bits { zeros ≤ 64 }
    requires word { rounded_up zeros number < 2 ^ 64 }
    ensures { result ≡ rounded_up zeros number }
{
    let below = round_down(number, zeros);
    if below == number || zeros == 64 {
        below
    } else {
        below + (1 << zeros)
    }
}
