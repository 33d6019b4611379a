//! What accesses leave of a word.

ghost use Rattle.std.specs.Prelude.{◌≡◌};
ghost use Rattle.array_maps.specs.{Halves.{halves_added}, Accesses.{combined, changed, exchanged}};

use crate::access::{Half, Op, Part, Rmw};
use crate::halves::{half_of, with_half};

/// A word with an operand applied to it.
pub fn combine(op: Op, word: u64, operand: u64) -> u64
    ensures { result ≡ combined op word operand }
{
    match op {
        Op::Add => word.wrapping_add(operand),
        Op::Or => word | operand,
        Op::And => word & operand,
        Op::Xor => word ^ operand,
        Op::AddH => add_halves(word, operand),
    }
}

/// What a change that returns what was there leaves of a word, at a part of it. Compare-and-exchange
/// alone looks at `compare`; at a half the lower halves of `value` and `compare` count.
pub fn exchange(part: Part, rmw: Rmw, word: u64, value: u64, compare: u64) -> u64
    ensures { result ≡ exchanged part rmw word value compare }
{
    match part {
        Part::Whole => change(rmw, word, value, compare),
        Part::Half(half) => {
            let old = half_of(half, word);
            with_half(
                half,
                word,
                change(
                    rmw,
                    old,
                    half_of(Half::Low, value),
                    half_of(Half::Low, compare),
                ),
            )
        }
    }
}

/// Two words with both halves added apart, each modulo 2^32.
#[tactic(auto, unfolding(crate::specs::Halves::halves_added, crate::specs::Halves::with_half))]
fn add_halves(word: u64, operand: u64) -> u64
    ensures { result ≡ halves_added word operand }
{
    let low = half_of(Half::Low, word) + half_of(Half::Low, operand);
    let high = half_of(Half::High, word) + half_of(Half::High, operand);
    with_half(Half::High, low, high)
}

/// What a change that returns what was there leaves of a number.
fn change(rmw: Rmw, old: u64, value: u64, compare: u64) -> u64
    ensures { result ≡ changed rmw old value compare }
{
    match rmw {
        Rmw::Op(op) => combine(op, old, value),
        Rmw::Xchg => value,
        Rmw::CmpXchg => { if old == compare { value } else { old } }
    }
}
