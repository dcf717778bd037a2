// Why a tape has no text, or a text no tape.
ghost use Rattle.std.specs.Prelude.{◌≡◌, Some};
ghost use Rattle.words.specs.Fault.{fault_text};
ghost use Rattle.words.specs.declared.fault.Fault.TheVariants.{Memory, Tape};

use refusals::Refusal;
use std::alloc::AllocError;
use std::fmt;
use tape::TapeRefusal;

#[derive(Clone, Copy, Debug, PartialEq, Eq)]
pub enum Fault {
    // a line that writes no item, by its number from 1
    Line(usize),
    // a line whose item no tape holds
    Item(usize, Refusal),
    // a tape that is refused
    Tape(TapeRefusal),
    // more than 65,536 bytes of tape
    LongTape,
    // more than 1,048,576 bytes of text
    LongText,
    // no memory is left
    Memory,
}

impl From<AllocError> for Fault {
    ghost from_gives = { λ _ r. r ≡ Memory };

    fn from(_error: AllocError) -> Fault {
        Fault::Memory
    }
}

impl From<TapeRefusal> for Fault {
    ghost from_gives = { λ e r. r ≡ Tape e };

    fn from(refusal: TapeRefusal) -> Fault {
        Fault::Tape(refusal)
    }
}

impl fmt::Display for Fault {
    ghost output = { λ x. Some (fault_text x) };

    fn fmt<W: fmt::Write>(&self, f: &mut fmt::Formatter<W>) -> fmt::Result {
        match *self {
            Fault::Line(number) => write!(f, "line {number}: this is no item"),
            Fault::Item(number, refusal) => {
                write!(
                    f,
                    "line {number}: no tape holds this item, refusal {refusal}"
                )
            }
            Fault::Tape(TapeRefusal { refusal, index }) => {
                write!(f, "record {index}: refusal {refusal}")
            }
            Fault::LongTape => write!(f, "the tape is too long"),
            Fault::LongText => write!(f, "the text is too long"),
            Fault::Memory => write!(f, "no memory is left"),
        }
    }
}
