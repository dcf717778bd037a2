// Memories of several lengths in all three layouts: what is written is read back, and past the
// end there is no byte.
use crate::checks::check;
use memory::{ByteMemory, Memory, PairMemory, WordMemory};
use std::alloc::Global;
use std::test::Fail;

// A byte for each place.
fn byte_of(place: u64) -> u8 {
    (place % 251) as u8
}

// The memory has the length, keeps a byte at every place, and none past the end.
fn holds<M: Memory>(memory: &mut M, length: u64) -> Result<(), Fail> {
    check(memory.len() == length)?;
    for place in 0..4_200 {
        check(memory.write(place, byte_of(place)).is_some() == (place < length))?;
    }
    for place in 0..4_200 {
        let expected = (place < length).then(|| byte_of(place));
        check(memory.read(place) == expected)?;
    }
    check(memory.read(u64::MAX).is_none())?;
    check(memory.write(u64::MAX, 1).is_none())?;
    check(memory.len() == length)
}

#[test]
fn bytes(rt: HostRuntime) -> Result<(), Fail> {
    for length in [0, 1, 2, 3, 5, 4_096] {
        let mut memory = ByteMemory::new(vec![in rt.alloc(); 0; length]?);
        holds(&mut memory, length as u64)?;
    }
    Ok(())
}

#[test]
fn words(rt: HostRuntime) -> Result<(), Fail> {
    for length in [0, 1, 2, 3, 5, 1_024] {
        let mut memory = WordMemory::new(vec![in rt.alloc(); 0; length]?);
        holds(&mut memory, 4 * length as u64)?;
    }
    Ok(())
}

// The two halves of a pair are of these lengths, and it is twice the shorter.
#[test]
fn pairs(rt: HostRuntime) -> Result<(), Fail> {
    for (first, second, length) in [
        (0, 5, 0),
        (1, 1, 2),
        (2, 1, 2),
        (3, 5, 6),
        (5, 3, 6),
        (2_048, 2_049, 4_096),
    ] {
        let even = ByteMemory::new(vec![in rt.alloc(); 0; first]?);
        let odd = ByteMemory::new(vec![in rt.alloc(); 0; second]?);
        let mut memory = PairMemory::new(even, odd);
        holds(&mut memory, length)?;
    }
    Ok(())
}

// The words behind a memory: least significant byte first.
#[test]
fn words_inside(rt: HostRuntime) -> Result<(), Fail> {
    let mut memory = WordMemory::new(vec![in rt.alloc(); 0; 2]?);
    for (place, byte) in [(0, 0x11), (1, 0x22), (2, 0x33), (3, 0x44), (7, 0x80)] {
        check(memory.write(place, byte).is_some())?;
    }
    let words = memory.into_inner();
    check(words.len() == 2)?;
    check(words[0] == 0x4433_2211)?;
    check(words[1] == 0x8000_0000)
}
