// Accesses by the operating system, through a machine whose slots are all live, over each layout
// of memory.
use crate::checksum::Checksum;
use crate::draws::Draws;
use crate::slots;
use machine::Machine;
use memory::{ByteMemory, Memory, SliceMemory, WordMemory};
use std::alloc::{AllocError, Global};

// Bytes of every memory, whatever its layout.
const BYTES: usize = 131_072;

pub(crate) fn bytes(heap: Global, rounds: u64) -> Result<u64, AllocError> {
    let mut machine = Machine::new(ByteMemory::new(vec![in heap; 0; BYTES]?));
    Ok(run(&mut machine, rounds))
}

pub(crate) fn words(heap: Global, rounds: u64) -> Result<u64, AllocError> {
    let mut machine = Machine::new(WordMemory::new(vec![in heap; 0; BYTES / 4]?));
    Ok(run(&mut machine, rounds))
}

// Over a pair of word memories, as the box ships.
pub(crate) fn pair(heap: Global, rounds: u64) -> Result<u64, AllocError> {
    let even = vec![in heap; 0; BYTES / 8]?;
    let odd = vec![in heap; 0; BYTES / 8]?;
    Ok(run(&mut machine::shipped(even, odd), rounds))
}

pub(crate) fn lent(heap: Global, rounds: u64) -> Result<u64, AllocError> {
    let mut buffer = vec![in heap; 0; BYTES]?;
    let mut machine = Machine::new(SliceMemory::new(buffer.as_mut_slice()));
    Ok(run(&mut machine, rounds))
}

// A round is one access.
fn run<M: Memory>(machine: &mut Machine<M>, rounds: u64) -> u64 {
    let mut sum = Checksum::new();
    for slot in 0..slots::SLOTS {
        let created = machine.create(slots::entry(slot), slots::base(slot), slots::EXPONENT);
        sum.answer(created);
    }
    let mut draws = Draws::new();
    for _ in 0..rounds {
        let access = draws.draw();
        let answer = machine.access(access.kind, access.address, access.size(), access.value);
        sum.answer(answer);
    }
    sum.value()
}
