// Numbers below a limit: an entry's, and a register's of four bytes.
ghost use Rattle.bank.specs.Content.{count};
ghost use Rattle.std.specs.Prelude.{◌≡◌, ◌+◌, ◌*◌, [], ◌∷◌, MatchOption};

use crate::entry::COUNT;
use std::marker::Model;

// A number below N.
#[derive(Clone, Copy)]
pub(crate) struct Below<const N: usize> {
    pub(crate) n: usize,
}

impl<const N: usize> Model for Below<N> {
    ghost use Rattle.std.specs.Prelude.{ℕ, ◌<◌};

    ghost Value = { ℕ };

    ghost view = { λ a. a.n };

    ghost invariant = { λ a. a.n < N };

    ghost inverse = { λ n. record { n = n } };
}

// The index of an entry.
pub(crate) type Index = Below<COUNT>;

// Which register of four bytes.
pub(crate) type Row = Below<4>;

impl Index {
    // The number above, but for the highest.
    pub(crate) fn above(self) -> Option<Self>
        ensures { MatchOption result (self + 1 ≡ count) (λ above. above ≡ self + 1) }
    {
        if self.n + 1 == COUNT {
            None
        } else {
            Some(Below { n: self.n + 1 })
        }
    }

    // The number below, but for 0.
    pub(crate) fn below(self) -> Option<Self>
        ensures { MatchOption result (self ≡ 0) (λ below. below + 1 ≡ self) }
    {
        if self.n == 0 {
            None
        } else {
            Some(Below { n: self.n - 1 })
        }
    }
}

impl Row {
    // The four entries of a register of four bytes.
    pub(crate) fn entries(self) -> [Index; 4]
        ensures { result ≡ (4 * self) ∷ (4 * self + 1) ∷ (4 * self + 2) ∷ (4 * self + 3) ∷ [] }
    {
        let first = 4 * self.n;
        [
            Index { n: first },
            Index { n: first + 1 },
            Index { n: first + 2 },
            Index { n: first + 3 },
        ]
    }
}
