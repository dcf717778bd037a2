// Where a slot's range is put.
ghost use Rattle.std.specs.Prelude.{◌≡◌, ◌+◌, ◌-◌, ◌/◌, ◌^◌};

use bank::range_word;
use std::marker::Model;

// The 2^exponent bytes from base on, of a size and at a place that a slot's range may have:
// clauses see base and exponent.
#[derive(Clone, Copy)]
pub struct Placement {
    pub(crate) base: u64,
    pub(crate) exponent: u64,
}

impl Model for Placement {
    ghost use Rattle.std.specs.Prelude.{◌≡◌, ℕ, ◌+◌, ◌%◌, ◌^◌, ◌≤◌};

    ghost Value = { ℕ × ℕ };

    ghost view = { λ p. (p.base, p.exponent) };

    ghost invariant = { λ p. (12 ≤ p.exponent) × (p.exponent ≤ 30) × (p.base % 2 ^ p.exponent ≡ 0) × (p.base + 2 ^ p.exponent ≤ 2 ^ 34) };

    ghost inverse = { λ v. record { base = v.0; exponent = v.1 } };
}

impl Placement {
    // The word of its entry.
    pub(crate) fn word(self) -> u32
        ensures { result ≡ self.0 / 4 + 2 ^ (self.1 - 3) - 1 }
    {
        range_word(self.base, self.exponent).unwrap_or(0)
    }

    // Its first byte, and the one after its last.
    pub(crate) fn range(self) -> (u64, u64)
        ensures { result ≡ (self.0, self.0 + 2 ^ self.1) }
    {
        (self.base, self.base + 2_u64.pow(self.exponent as u32))
    }
}
