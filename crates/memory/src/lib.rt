// Memories: one meaning, several layouts.
#![tactic(auto)]

mod buffer;
mod buffered;
mod byte;
mod laws;
mod pair;
mod slice;
mod traits;
mod word;

pub use buffered::BufferMemory;
pub use byte::ByteMemory;
pub use pair::PairMemory;
pub use slice::{SliceMemory, put_lent};
pub use traits::Memory;
pub use word::WordMemory;
