// A slot over the upper half of a byte memory, created and destroyed again and again.
ghost use Rattle.std.specs.Prelude.{◌<◌};

use crate::checksum::Checksum;
use crate::draws::{LOAD, STORE};
use machine::Machine;
use memory::ByteMemory;
use std::alloc::{AllocError, Global};

const SLOT: u64 = 2;

// What is stored at both ends of the range, for the destroy to clear.
const MARK: u64 = 0x0123_4567_89AB_CDEF;

// A round is a create and a destroy of 2^exponent bytes, with a store at both ends of the range
// before and a load there after.
pub(crate) fn run(heap: Global, exponent: u64, rounds: u64) -> Result<u64, AllocError>
    requires { exponent < 64 }
{
    let base = 1u64 << exponent;
    let past = 2u64 << exponent;
    let last = past.saturating_sub(8);
    let mut machine = Machine::new(ByteMemory::new(vec![in heap; 0; past as usize]?));
    let mut sum = Checksum::new();
    for _ in 0..rounds {
        sum.answer(machine.access(STORE, base, 8, MARK));
        sum.answer(machine.access(STORE, last, 8, MARK));
        sum.answer(machine.create(SLOT, base, exponent));
        sum.answer(machine.destroy(SLOT));
        sum.answer(machine.access(LOAD, base, 8, 0));
        sum.answer(machine.access(LOAD, last, 8, 0));
    }
    Ok(sum.value())
}
