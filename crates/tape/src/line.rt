// A line of a report: what a call was answered.
ghost use Rattle.std.specs.Prelude.{◌≡◌, IfOk, Some, string_bytes};
ghost use Rattle.tape.specs.Line.{code_text, line_text, value_of};

use monitor::{Answer, Denial, Layer};
use std::alloc::{AllocError, Global};
use std::fmt;

// An answer as its code. A struct, since a Result is not this crate's to print.
#[derive(Clone, Copy)]
pub(crate) struct Code(Answer);

impl fmt::Display for Code {
    ghost output = { λ c. Some (code_text c.0) };

    fn fmt<W: fmt::Write>(&self, f: &mut fmt::Formatter<W>) -> fmt::Result {
        match self.0 {
            Ok(_) => write!(f, "ok"),
            Err(Denial::Fault(Layer::Protection, cause)) => write!(f, "p{cause}"),
            Err(Denial::Fault(Layer::Memory, cause)) => write!(f, "m{cause}"),
            Err(Denial::Refused(refusal)) => write!(f, "r{refusal}"),
        }
    }
}

// The value that is answered, or zero.
fn value(answer: Answer) -> u64
    ensures { result ≡ value_of answer }
{
    answer.unwrap_or(0)
}

// The index, the code and sixteen digits of value, with single spaces between them.
pub(crate) fn line(heap: Global, index: usize, answer: Answer) -> Result<String, AllocError>
    ensures { IfOk result (λ t. string_bytes t ≡ line_text index answer) }
{
    let code = Code(answer);
    let value = value(answer);
    format!(in heap; "{index} {code} {value:016x}\n")
}
