// A memory over a buffer: the first 2^34 of its bytes.
ghost use Rattle.memory.specs.Laws.{BytesInPlace, ReadsBack, WordsInPlace};
ghost use Rattle.memory.specs.Meaning.{buffer_beyond, buffer_bytes};
ghost use Rattle.std.specs.Prelude.{◌≡◌};

use crate::buffer::Buffer;
use crate::laws;
use crate::traits::{LIMIT, Memory};

// No Model: with one, a lender would not learn what is in a buffer when its memory is gone.
#[derive(Drop)]
pub struct BufferMemory<B> {
    buffer: B,
}

impl<B: Buffer> BufferMemory<B> {
    pub fn new(buffer: B) -> Self
        ensures holds { result.buffer ≡ buffer }
        ensures places { BytesInPlace }
        ensures words { WordsInPlace }
        ensures back { ReadsBack }
    {
        laws::bytes_in_place();
        laws::words_in_place();
        laws::reads_back();
        BufferMemory { buffer }
    }

    // Gives the buffer back: the memory's bytes, and then what lay past its end.
    pub fn into_inner(self) -> B
        ensures { result ≡ self.buffer }
    {
        let BufferMemory { buffer } = self;
        buffer
    }
}

#[tactic(auto, using(crate::proofs::Front::fronts))]
impl<B: Buffer> Memory for BufferMemory<B> {
    ghost bytes = { buffer_bytes B.all };

    ghost beyond = { buffer_beyond B.all B.loan };

    fn len(&self) -> u64 {
        self.buffer.count().min(LIMIT)
    }

    fn read(&self, place: u64) -> Option<u8> {
        if place >= self.len() {
            return None;
        }
        Some(self.buffer.byte(place))
    }

    fn write(&mut self, place: u64, byte: u8) -> Option<()> {
        if place >= self.len() {
            return None;
        }
        self.buffer.set_byte(place, byte);
        Some(())
    }
}
