// The word memory: a buffer of 32-bit words, four bytes each, least significant first.
ghost use Rattle.memory.specs.Words.{spread};
ghost use Rattle.std.specs.Prelude.{[], vec_items};

use crate::buffer::Buffer;
use crate::buffered::BufferMemory;

pub type WordMemory = BufferMemory<Vec<u32>>;

#[tactic(auto, using(crate::proofs::Spread::spreads))]
impl Buffer for Vec<u32> {
    ghost all = { λ b. spread (vec_items b) };

    ghost loan = { λ _. [] };

    fn count(&self) -> u64 {
        (self.len() as u64).saturating_mul(4)
    }

    fn byte(&self, place: u64) -> u8 {
        self[(place / 4) as usize].to_le_bytes()[(place % 4) as usize]
    }

    fn set_byte(&mut self, place: u64, byte: u8) {
        let word = &mut self[(place / 4) as usize];
        let mut bytes = word.to_le_bytes();
        bytes[(place % 4) as usize] = byte;
        *word = u32::from_le_bytes(bytes);
    }
}
