// The privilege of an access.
ghost use Rattle.bank.specs.Privilege.{privilege_number};
ghost use Rattle.std.specs.Prelude.{◌≡◌, ◌==◌};

use refusals::Refusal;

#[derive(Clone, Copy, Debug, PartialEq, Eq)]
pub enum Privilege {
    User = 0,
    Supervisor = 1,
    Machine = 3,
}

// The privilege of a number.
impl TryFrom<u64> for Privilege {
    type Error = Refusal;

    ghost use Rattle.bank.specs.Privilege.{privilege_of};
    ghost use Rattle.std.specs.Prelude.{◌≡◌};

    ghost try_from_gives = { λ n r. r ≡ privilege_of n };

    fn try_from(number: u64) -> Result<Self, Refusal> {
        match number {
            0 => Ok(Privilege::User),
            1 => Ok(Privilege::Supervisor),
            3 => Ok(Privilege::Machine),
            _ => Err(Refusal::Privilege),
        }
    }
}

impl From<Privilege> for u64 {
    ghost use Rattle.bank.specs.Privilege.{privilege_number};
    ghost use Rattle.std.specs.Prelude.{◌≡◌};

    ghost from_gives = { λ p n. n ≡ privilege_number p };

    fn from(privilege: Privilege) -> u64 {
        privilege as u64
    }
}

impl Privilege {
    pub(crate) fn is_machine(self) -> bool
        ensures { result ≡ (privilege_number self == 3) }
    {
        self == Privilege::Machine
    }
}
