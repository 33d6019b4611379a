//! The eleven registers.

ghost use Rattle.std.specs.Prelude.{◌≡◌, ◌≤◌, ℕ, IfSome, IfNone, ◌<◌};

use std::marker::Model;

/// A register's number, 0 to 10 (RFC 9669, section 3.1).
#[derive(Clone, Copy)]
pub struct Reg {
    number: u8,
}

impl Model for Reg {
    ghost Value = { ℕ };

    ghost view = { λ r. r.number };

    ghost invariant = { λ r. r.number ≤ 10 };

    ghost inverse = { λ n. record { number = n } };
}

impl Reg {
    /// The register of this number, or None above 10.
    pub fn new(number: u8) -> Option<Reg>
        ensures some { IfSome result (λ r. (r ≡ number) × (number ≤ 10)) }
        ensures none { IfNone result (10 < number) }
    {
        if number <= 10 {
            Some(Reg { number })
        } else {
            None
        }
    }

    /// Its number, 0 to 10.
    pub fn number(self) -> u8
        ensures number { result ≡ self }
        ensures bound { result ≤ 10 }
    {
        self.number
    }
}
