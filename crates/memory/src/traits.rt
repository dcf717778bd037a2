// What a memory means to the code above it: a list of bytes.
ghost use Rattle.memory.specs.Bytes.{AllBytes};
ghost use Rattle.std.specs.Prelude.{◌≡◌, ℕ, ◌^◌, ◌≤◌, List, length, is_some, nat_lt, slice_set};
ghost use Rattle.std.specs.List.{slice_get};

// No memory has more bytes than this.
pub(crate) const LIMIT: u64 = 1 << 34;

pub trait Memory {
    // Its bytes, from place 0 on.
    ghost bytes: { Self → List ℕ };

    // What its buffers hold besides: past its end, and under which loan. No call changes it.
    ghost beyond: { Self → List ℕ };

    // How many bytes there are.
    fn len(&self) -> u64
        ensures value { result ≡ length (bytes self.now) }
        ensures bounded { result ≤ 2 ^ 34 }
        ensures small { AllBytes (bytes self.now) };

    // The byte at a place, or none past the end.
    fn read(&self, place: u64) -> Option<u8>
        ensures { result ≡ slice_get (bytes self.now) place };

    // Puts a byte at a place; past the end it does nothing, and says so.
    fn write(&mut self, place: u64, byte: u8) -> Option<()>
        ensures answer { is_some result ≡ nat_lt place (length (bytes self.old)) }
        ensures after { bytes self.new ≡ slice_set (bytes self.old) place byte }
        ensures beyond { beyond self.new ≡ beyond self.old };
}
