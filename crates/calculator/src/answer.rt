// What a command is answered.
use bank::Verdict;
use refusals::Refusal;

#[derive(Clone, Copy, Debug, PartialEq, Eq)]
pub enum Answer {
    Word(Result<u32, Refusal>),
    Verdict(Result<Verdict, Refusal>),
    // the bytes of a range, or none
    Range(Option<(u64, u64)>),
    Done,
}
