// What lies under a memory: a buffer, as one byte after another.
ghost use Rattle.memory.specs.Bytes.{AllBytes};
ghost use Rattle.std.specs.Prelude.{◌≡◌, ℕ, ◌-◌, ◌^◌, ◌<◌, List, length, min, slice_index, slice_set};

pub(crate) trait Buffer {
    // All of its bytes.
    ghost all: { Self → List ℕ };

    // Under which loan it is, if it is lent.
    ghost loan: { Self → List ℕ };

    // How many bytes there are, or the largest u64 if there are more.
    fn count(&self) -> u64
        ensures value { result ≡ min (length (all self.now)) (2 ^ 64 - 1) }
        ensures small { AllBytes (all self.now) };

    // The byte at a place.
    fn byte(&self, place: u64) -> u8
        requires { place < length (all self.now) }
        ensures { result ≡ slice_index (all self.now) place };

    // Puts a byte at a place.
    fn set_byte(&mut self, place: u64, byte: u8)
        requires { place < length (all self.old) }
        ensures after { all self.new ≡ slice_set (all self.old) place byte }
        ensures loan { loan self.new ≡ loan self.old };
}
