// What is printed of an answer.
ghost use Rattle.calculator.specs.Text.{answer_text, decider_text};
ghost use Rattle.std.specs.Prelude.{Some};

use crate::answer::Answer;
use bank::Verdict;
use std::fmt;

// A number of which no more than nine hexadecimal digits are printed, its lowest, is below this.
const NINE: u64 = 1 << 36;

// The entry that decides on an access, if one does. A struct, since an Option is not this crate's to
// print.
#[derive(Clone, Copy)]
struct Decider(Option<usize>);

impl fmt::Display for Decider {
    ghost output = { λ d. Some (decider_text d.0) };

    fn fmt<W: fmt::Write>(&self, f: &mut fmt::Formatter<W>) -> fmt::Result {
        match self.0 {
            Some(index) => write!(f, "{index}"),
            None => write!(f, "none"),
        }
    }
}

impl fmt::Display for Answer {
    ghost output = { λ a. Some (answer_text a) };

    #[tactic(auto, using(crate::proofs::Ranges::word_padded, crate::proofs::Ranges::range_padded))]
    fn fmt<W: fmt::Write>(&self, f: &mut fmt::Formatter<W>) -> fmt::Result {
        match *self {
            Answer::Word(Ok(word)) => write!(f, "ok {word:08x}"),
            Answer::Verdict(Ok(Verdict::Allowed(entry))) => write!(f, "allow {}", Decider(entry)),
            Answer::Verdict(Ok(Verdict::Fault(entry, cause))) => {
                write!(f, "fault {cause} {}", Decider(entry))
            }
            Answer::Word(Err(refusal)) | Answer::Verdict(Err(refusal)) => {
                write!(f, "r{refusal}")
            }
            Answer::Range(Some((first, past))) => {
                let (first, past) = (first % NINE, past % NINE);
                write!(f, "{first:09x} {past:09x}")
            }
            Answer::Range(None) => write!(f, "none"),
            Answer::Done => write!(f, "ok"),
        }
    }
}
