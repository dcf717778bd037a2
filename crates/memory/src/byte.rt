// The byte memory: a buffer of bytes.
ghost use Rattle.std.specs.Prelude.{[], vec_items};

use crate::buffer::Buffer;
use crate::buffered::BufferMemory;

pub type ByteMemory = BufferMemory<Vec<u8>>;

impl Buffer for Vec<u8> {
    ghost all = { vec_items };

    ghost loan = { λ _. [] };

    fn count(&self) -> u64 {
        self.len() as u64
    }

    fn byte(&self, place: u64) -> u8 {
        self[place as usize]
    }

    fn set_byte(&mut self, place: u64, byte: u8) {
        self[place as usize] = byte;
    }
}
