// How an answer reads in a sentence. A struct, since a Result is not this crate's to print.
ghost use Rattle.std.specs.Prelude.{None};

use monitor::{Answer, Denial, Layer};
use std::fmt;

#[derive(Clone, Copy)]
pub(crate) struct Outcome(pub Answer);

impl fmt::Display for Outcome {
    ghost output = { λ _. None };

    fn fmt<W: fmt::Write>(&self, f: &mut fmt::Formatter<W>) -> fmt::Result {
        match self.0 {
            Ok(value) => write!(f, "is carried out and answers {value}"),
            Err(Denial::Fault(Layer::Protection, cause)) => {
                write!(f, "faults in protection with cause {cause}")
            }
            Err(Denial::Fault(Layer::Memory, cause)) => {
                write!(f, "faults at the memory's end with cause {cause}")
            }
            Err(Denial::Refused(refusal)) => write!(f, "is refused with {refusal}"),
        }
    }
}
