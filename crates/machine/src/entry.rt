// The numbers of entries, by which slots are named.
ghost use Rattle.std.specs.Prelude.{◌≡◌, ◌<◌, true, false, MatchResult};
ghost use Rattle.monitor.specs.Roll.{is_slot};
ghost use Rattle.refusals.specs.declared.Refusal.TheVariants.{NoSlot};

use refusals::Refusal;
use std::marker::Model;

// The number of an entry: clauses see the number. Not the bank's own index, which stays within it:
// what goes between them is the number of a register.
#[derive(Clone, Copy)]
pub struct Entry {
    pub(crate) number: u64,
}

impl Model for Entry {
    ghost use Rattle.std.specs.Prelude.{ℕ, ◌<◌};

    ghost Value = { ℕ };

    ghost view = { λ e. e.number };

    ghost invariant = { λ e. e.number < 16 };

    ghost inverse = { λ n. record { number = n } };
}

impl Entry {
    // The entry of a slot that there is.
    pub(crate) fn of_slot(slot: u64) -> Result<Self, Refusal>
        ensures { MatchResult result (λ e. (is_slot slot ≡ true) × (e ≡ slot)) (λ e. (is_slot slot ≡ false) × (e ≡ NoSlot)) }
    {
        match slot {
            2..=14 => Ok(Entry { number: slot }),
            _ => Err(Refusal::NoSlot),
        }
    }

    // That it is below 16: what its type says to those who do not read the number.
    pub(crate) fn within(self)
        ensures { self < 16 }
    {
        let _ = self.number;
    }

    // The operating system's entry, which no slot has.
    pub(crate) fn system() -> Self
        ensures { result ≡ 15 }
    {
        Entry { number: 15 }
    }
}
