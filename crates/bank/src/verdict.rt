// What an access is, and what is said of it.
ghost use Rattle.bank.specs.Verdicts.{fault_cause, needed_bit};
ghost use Rattle.std.specs.Prelude.{◌≡◌};

use refusals::Refusal;

#[derive(Clone, Copy, Debug, PartialEq, Eq)]
pub enum Kind {
    Fetch = 0,
    Load = 1,
    Store = 2,
}

// Allowed, or a fault with its cause; both name the deciding entry, if one decides. Not a Result:
// a fault is an answer to the question that was asked, which `?` would hand on as a refusal of it.
// A cause is a number, since that is what the hart is given.
#[derive(Clone, Copy, Debug, PartialEq, Eq)]
pub enum Verdict {
    Allowed(Option<usize>),
    Fault(Option<usize>, u8),
}

// The kind of a number: 0 fetch, 1 load, 2 store.
impl TryFrom<u64> for Kind {
    type Error = Refusal;

    ghost use Rattle.bank.specs.Verdicts.{kind_asked};
    ghost use Rattle.std.specs.Prelude.{◌≡◌};

    ghost try_from_gives = { λ n r. r ≡ kind_asked n };

    fn try_from(number: u64) -> Result<Self, Refusal> {
        match number {
            0 => Ok(Kind::Fetch),
            1 => Ok(Kind::Load),
            2 => Ok(Kind::Store),
            _ => Err(Refusal::Kind),
        }
    }
}

impl Kind {
    // The bit of the configuration byte that the access needs: X, R or W.
    pub(crate) fn needed(self) -> u8
        ensures { result ≡ needed_bit self }
    {
        match self {
            Kind::Fetch => 4,
            Kind::Load => 1,
            Kind::Store => 2,
        }
    }

    // The cause of a fault.
    pub fn cause(self) -> u8
        ensures { result ≡ fault_cause self }
    {
        match self {
            Kind::Fetch => 1,
            Kind::Load => 5,
            Kind::Store => 7,
        }
    }
}
