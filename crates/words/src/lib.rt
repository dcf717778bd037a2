// The text form of tapes: a line of words and numbers for each item.
#![tactic(auto)]

mod fault;
mod fields;
mod laws;
mod line;
mod numbers;
mod operation;
mod parse;
mod tapes;
mod texts;

pub use fault::Fault;
pub use tapes::{TEXT_LIMIT, tape_of};
pub use texts::{TAPE_LIMIT, text_of};
