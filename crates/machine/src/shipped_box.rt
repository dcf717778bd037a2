// The box as it ships: a machine over a pair of word memories.
ghost use Rattle.memory.specs.Bytes.{front, rest};
ghost use Rattle.memory.specs.Meaning.{joined_beyond, joined_bytes};
ghost use Rattle.memory.specs.Words.{spread};
ghost use Rattle.monitor.specs.Content.{new_content};
ghost use Rattle.std.specs.Prelude.{◌≡◌, ◌++◌};

use crate::machine::Machine;
use memory::{PairMemory, WordMemory};

// A new machine over two buffers of words: even places in the first, odd places in the second.
pub fn shipped(even: Vec<u32>, odd: Vec<u32>) -> Machine<PairMemory<WordMemory, WordMemory>>
    ensures made { result.content ≡ new_content (joined_bytes (front (spread even.items)) (front (spread odd.items))) }
    ensures beyond { result.beyond
        ≡ joined_beyond (front (spread even.items)) (front (spread odd.items)) ++ (rest (spread even.items) ++ rest (spread odd.items)) }
{
    Machine::new(PairMemory::new(WordMemory::new(even), WordMemory::new(odd)))
}
