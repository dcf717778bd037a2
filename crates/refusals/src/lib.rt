// The refusals of the whole product. Every call puts its questions in a fixed order; the
// first that is answered "no" refuses the call, and its number is the refusal's.
#![tactic(auto)]

ghost use Rattle.refusals.specs.Numbers.{refusal_number};
ghost use Rattle.std.specs.Prelude.{◌≡◌};

use std::fmt;

#[derive(Clone, Copy, Debug, PartialEq, Eq)]
pub enum Refusal {
    // protection registers and verdicts
    Privilege = 21,
    NotMachine = 22,
    NoRegister = 23,
    Kind = 24,
    Size = 25,
    Span = 26,
    // machine and slots
    NotStarted = 27,
    NoSlot = 28,
    OsNotRunning = 29,
    SlotTaken = 30,
    Exponent = 31,
    Alignment = 32,
    BeyondMemory = 33,
    Overlap = 34,
    SlotFree = 35,
    Finished = 36,
    NoEnclave = 37,
    // tapes
    PartialRecord = 38,
    Operation = 39,
    Fields = 40,
    NoPlace = 41,
    // memories
    MemoryLength = 42,
}

impl Refusal {
    pub fn number(self) -> u8
        ensures { result ≡ refusal_number self }
    {
        self as u8
    }
}

// A refusal is told by its number.
impl fmt::Display for Refusal {
    ghost use Rattle.refusals.specs.Numbers.{refusal_number};
    ghost use Rattle.std.specs.Prelude.{Some};
    ghost use Rattle.std.specs.Fmt.{decimal, styled_decimal};

    ghost output = { λ r. Some (decimal (refusal_number r)) };

    ghost styled_output = { λ r s. Some (styled_decimal s (refusal_number r)) };

    fn fmt<W: fmt::Write>(&self, f: &mut fmt::Formatter<W>) -> fmt::Result {
        self.number().fmt(f)
    }
}
