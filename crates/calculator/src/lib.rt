// A calculator of memory protection: a script of commands for a bank, and its answers.
#![tactic(auto)]

mod answer;
mod command;
mod laws;
mod numbers;
mod parse;
mod reply;
mod run;
mod script;
mod text;
mod verb;

pub use answer::Answer;
pub use command::Command;
pub use numbers::number;
pub use script::{LIMIT, answers};
