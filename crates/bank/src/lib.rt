// Sixteen entries of physical memory protection: registers, locks, ranges and verdicts.
#![tactic(auto)]

mod bank;
mod changes;
mod entries;
mod entry;
mod examples;
mod extent;
mod index;
mod laws;
mod mode;
mod privilege;
mod ranges;
mod registers;
mod verdict;
mod verdicts;

pub use bank::Bank;
pub use examples::two_ranges;
pub use privilege::Privilege;
pub use ranges::range_word;
pub use verdict::{Kind, Verdict};
