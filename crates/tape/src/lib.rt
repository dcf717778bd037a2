// The tape: calls as packed records of 16 bytes, read and written whole, and run on a machine.
#![tactic(auto)]

mod accepted;
mod calls;
mod item;
mod laws;
mod line;
mod operation;
mod reader;
mod record;
mod refusal;
mod reports;
mod sizes;
mod writer;

pub use item::Item;
pub use operation::Operation;
pub use reader::read;
pub use record::RECORD;
pub use refusal::TapeRefusal;
pub use reports::{LIMIT, report};
pub use sizes::{size, width};
pub use writer::write;
