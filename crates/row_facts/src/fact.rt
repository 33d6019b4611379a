//! What is known of a value in every lane, and what makes it.

ghost use Rattle.std.specs.Prelude.{◌≡◌, ℕ, ◌<◌, ◌^◌, IfSome};
ghost use Rattle.value_range.specs.Spans.{Contains};
ghost use Rattle.row_facts.specs.Facts.{IsOnLine, IsSure, IsFact};

use crate::lines::{Line, anything, joined};
use bpf_insn_types::Width;
use value_range::{Range, exact, join, top};

/// What is known of a value in every lane: its range and its line. Where `or_zero` is set, it may be 0 as well.
#[derive(Clone, Copy)]
pub struct Fact {
    pub range: Range,
    pub line: Line,
    pub or_zero: bool,
}

/// A number that is alone in its range.
pub(crate) fn number_of(range: Range) -> Option<u64>
    ensures { IfSome result (λ n. (x : ℕ) → Contains range x → x ≡ n) }
{
    let least = range.lo();
    if range.hi() == least {
        Some(least)
    } else {
        None
    }
}

/// Values of a range and on a line. The range may say more than the line, by a number alone or by its trailing zeros.
pub(crate) fn within(range: Range, line: Line) -> Fact
    ensures { (index x : ℕ) → Contains range x → IsOnLine line index x → IsSure result index x }
{
    let line = match number_of(range) {
        Some(offset) => Line {
            bits: 64,
            scale: 0,
            offset,
        },
        None => {
            if line.bits < range.zeros() {
                Line {
                    bits: range.zeros(),
                    scale: 0,
                    offset: 0,
                }
            } else {
                line
            }
        }
    };
    Fact {
        range,
        line,
        or_zero: false,
    }
}

/// A number, the same in all lanes.
pub(crate) fn number(n: u64) -> Fact
    ensures { (index : ℕ) → IsSure result index n }
{
    within(exact(n), anything())
}

/// Any word.
pub(crate) fn unknown() -> Fact
    ensures { (index x : ℕ) → x < 2 ^ 64 → IsSure result index x }
{
    within(top(Width::W64), anything())
}

/// A fact that doesn't allow 0 apart from its range and line: the fact itself, or that of any word.
pub(crate) fn sure(fact: Fact) -> Fact
    ensures { (index x : ℕ) → x < 2 ^ 64 → IsFact fact index x → IsSure result index x }
{
    if fact.or_zero { unknown() } else { fact }
}

/// What is known of a value that has one of two facts.
pub(crate) fn either(first: Fact, second: Fact) -> Fact
    ensures first { (index x : ℕ) → IsFact first index x → IsFact result index x }
    ensures second { (index x : ℕ) → IsFact second index x → IsFact result index x }
{
    Fact {
        range: join(first.range, second.range),
        line: joined(first.line, second.line),
        or_zero: first.or_zero || second.or_zero,
    }
}
