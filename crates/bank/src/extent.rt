// A range as a bank keeps it beside its entry, so that a verdict need not decode it.
ghost use Rattle.bank.specs.Verdicts.{covers as covered, meets as met};
ghost use Rattle.std.specs.Prelude.{◌≡◌, ◌<◌, IfSome};

use std::marker::Model;

// The first byte of a range and the byte after its last, or 0 and 0 where there is no range: clauses
// see a range that may be there. Not an `Option` in code: its tag, asked of each entry, makes a
// verdict of 201 instructions, where this one has 151.
#[derive(Clone, Copy)]
pub struct Extent {
    first: u64,
    past: u64,
}

impl Model for Extent {
    ghost use Rattle.std.specs.Prelude.{◌≡◌, ℕ, true, cond, ◌&&◌, ◌||◌, Some, None, Option, ◌==◌, nat_lt};
    ghost use Rattle.std.specs.Coded.{coded_option, coded×, coded_ℕ};

    ghost Value = { Option (ℕ × ℕ) };

    ghost view = { λ e. cond (e.past == 0) None (Some (e.first, e.past)) };

    ghost invariant = { λ e. (nat_lt e.first e.past || (e.first == 0 && e.past == 0)) ≡ true };

    ghost inverse = { λ o. elim o [ None ↦ record { first = 0; past = 0 } | Some r ↦ record { first = r.0; past = r.1 } ] };
}

// No range.
pub(crate) const NONE: Extent = Extent { first: 0, past: 0 };

impl Extent {
    // What is kept of a range.
    pub(crate) fn of(range: Option<(u64, u64)>) -> Self
        requires { IfSome range (λ s. s.0 < s.1) }
        ensures { result ≡ range }
    {
        match range {
            None => NONE,
            Some((first, past)) => Extent { first, past },
        }
    }

    // Whether it holds some byte of a span. The first test alone passes by an entry that has no
    // range; the last is asked only where the others say yes.
    pub(crate) fn meets(self, span: (u64, u64)) -> bool
        ensures { result ≡ met self span }
    {
        span.0 < self.past && self.first < span.1 && span.0 < span.1
    }

    // Whether there is a range, and it holds every byte of a span.
    pub(crate) fn covers(self, span: (u64, u64)) -> bool
        ensures { result ≡ covered self span }
    {
        self.past != 0 && self.first <= span.0 && span.1 <= self.past
    }
}
