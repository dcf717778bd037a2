// A memory over a lent buffer of bytes: the lender finds the memory's bytes in it afterwards.
ghost use Rattle.memory.specs.Bytes.{AllBytes, front, rest};
ghost use Rattle.std.specs.Prelude.{◌≡◌, ◌∷◌, [], length, is_some, nat_lt, slice_set};

use crate::buffer::Buffer;
use crate::buffered::BufferMemory;
use crate::traits::Memory;

pub type SliceMemory<'a> = BufferMemory<&'a mut [u8]>;

// Beside Vec<u8>'s: one for both needs one more trait, which lends a slice, and is no plainer.
impl<'a> Buffer for &'a mut [u8] {
    ghost all = { λ b. b.now };

    ghost loan = { λ b. b.ghost_name ∷ [] };

    fn count(&self) -> u64 {
        count(self)
    }

    fn byte(&self, place: u64) -> u8 {
        self[place as usize]
    }

    fn set_byte(&mut self, place: u64, byte: u8) {
        self[place as usize] = byte;
    }
}

// The type of a slice says that its bytes are small; that of a &mut to it does not.
fn count(bytes: &[u8]) -> u64
    ensures value { result ≡ length bytes.now }
    ensures small { AllBytes bytes.now }
{
    bytes.len() as u64
}

// Puts a byte into a lent buffer by way of a memory: what the lender learns of it.
pub fn put_lent(buffer: &mut [u8], place: u64, byte: u8) -> Option<()>
    ensures answer { is_some result ≡ nat_lt place (length (front buffer.old)) }
    ensures after { front buffer.new ≡ slice_set (front buffer.old) place byte }
    ensures beyond { rest buffer.new ≡ rest buffer.old }
{
    let mut memory = SliceMemory::new(buffer);
    memory.write(place, byte)
}
