//! A range and what makes one.

ghost use Rattle.std.specs.Prelude.{◌≡◌, ℕ, ◌≤◌};
ghost use Rattle.value_range.specs.Spans.{Span, IsSpan, Contains, exact, top, norm, join, rounded_up};

use crate::bounds::{round_down, round_up};
use bpf_insn_types::Width;
use std::marker::Model;

/// The words from a least to a greatest that are multiples of a power of two.
#[derive(Clone, Copy, Debug, PartialEq)]
pub struct Range {
    lo: u64,
    hi: u64,
    zeros: u32,
}

impl Model for Range {
    ghost use Rattle.value_range.specs.Spans.{Span, IsSpan};

    ghost Value = { Span };

    ghost view = { λ r. record { lo = r.lo; hi = r.hi; zeros = r.zeros } };

    ghost invariant = { λ r. IsSpan (record { lo = r.lo; hi = r.hi; zeros = r.zeros }) };

    ghost inverse = { λ s. record { lo = s.lo; hi = s.hi; zeros = s.zeros } };
}

impl Range {
    /// The least word.
    pub fn lo(self) -> u64
        ensures number { result ≡ self.lo }
        ensures span { IsSpan self }
    {
        self.lo
    }

    /// The greatest word.
    pub fn hi(self) -> u64
        ensures number { result ≡ self.hi }
        ensures span { IsSpan self }
    {
        self.hi
    }

    /// How many trailing zero bits every word has, 0 to 64.
    pub fn zeros(self) -> u32
        ensures number { result ≡ self.zeros }
        ensures span { IsSpan self }
    {
        self.zeros
    }
}

/// The range of one word alone.
pub fn exact(number: u64) -> Range
    ensures { result ≡ exact number }
{
    Range {
        lo: number,
        hi: number,
        zeros: number.trailing_zeros(),
    }
}

/// The range of every number of the width.
pub fn top(width: Width) -> Range
    ensures { result ≡ top width }
{
    let greatest = match width {
        Width::W32 => 0xffff_ffff,
        Width::W64 => 0xffff_ffff_ffff_ffff,
    };
    Range {
        lo: 0,
        hi: greatest,
        zeros: 0,
    }
}

/// The multiples of 2^zeros from lo to hi, of which there has to be one; one alone is exact.
pub fn norm(lo: u64, hi: u64, zeros: u32) -> Range
    requires bits { zeros ≤ 64 }
    requires some { rounded_up zeros lo ≤ hi }
    ensures { result ≡ norm lo hi zeros }
{
    let least = round_up(lo, zeros);
    let greatest = round_down(hi, zeros);
    if least == greatest {
        exact(least)
    } else {
        Range {
            lo: least,
            hi: greatest,
            zeros,
        }
    }
}

/// The words of both, and what lies between: the least lo, the greatest hi and the lesser zeros.
pub fn join(a: Range, b: Range) -> Range
    ensures equal { result ≡ join a b }
    ensures first { (x : ℕ) → Contains a x → Contains result x }
    ensures second { (y : ℕ) → Contains b y → Contains result y }
{
    Range {
        lo: a.lo.min(b.lo),
        hi: a.hi.max(b.hi),
        zeros: a.zeros.min(b.zeros),
    }
}
