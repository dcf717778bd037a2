// The parts of a text that people write: its lines, the words of a line, and the digits of a number.
#![tactic(auto)]

mod cut;
mod digits;
mod lines;
mod words;

pub use digits::digit;
pub use lines::{Lines, silent};
pub use words::{Words, is};
