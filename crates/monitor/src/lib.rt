// The words in which a machine and its monitor are spoken of: calls, answers, slots. What each
// call does, and the theorem that an enclave is closed off, stand in specs/ and proofs/.
#![tactic(auto)]

mod answer;
mod call;
mod slot;

pub use answer::{Answer, Denial, Layer};
pub use call::Call;
pub use slot::{Event, Party, Slot};
