// What a call is answered: a value, or what it is denied with.
ghost use Rattle.monitor.specs.declared.answer.Denial.TheVariants.{Refused};
ghost use Rattle.std.specs.Prelude.{◌≡◌};

use refusals::Refusal;

#[derive(Clone, Copy, Debug, PartialEq, Eq)]
pub enum Layer {
    Protection,
    Memory,
}

// A fault with its layer and cause, which is the number that the hart is given, or a refusal.
#[derive(Clone, Copy, Debug, PartialEq, Eq)]
pub enum Denial {
    Fault(Layer, u8),
    Refused(Refusal),
}

impl From<Refusal> for Denial {
    ghost from_gives = { λ refusal denial. denial ≡ Refused refusal };

    fn from(refusal: Refusal) -> Self {
        Denial::Refused(refusal)
    }
}

pub type Answer = Result<u64, Denial>;
