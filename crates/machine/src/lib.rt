// A machine: a bank of protection registers and a memory, joined under an enclave monitor.
#![tactic(auto)]

mod access;
mod bytes;
mod calls;
mod entry;
mod hart;
mod laws;
mod machine;
mod placement;
mod questions;
mod registers;
mod run;
mod shipped_box;
mod slots;

pub use machine::Machine;
pub use shipped_box::shipped;
