// The same bytes in three layouts: the same places hold them.
use memory::{ByteMemory, Memory, PairMemory, WordMemory};

// Bytes that are kept, from place 0 on.
const KEPT: [u8; 6] = [0x11, 0x22, 0x33, 0x44, 0x55, 0x66];

pub(crate) fn show(rt: &HostRuntime) -> anyhow::Result<()> {
    let heap = rt.alloc();
    let mut bytes = ByteMemory::new(vec![in heap; 0; 8]?);
    let mut words = WordMemory::new(vec![in heap; 0; 2]?);
    let first = WordMemory::new(vec![in heap; 0; 1]?);
    let second = ByteMemory::new(vec![in heap; 0; 4]?);
    let mut pair = PairMemory::new(first, second);
    keep(&mut bytes);
    keep(&mut words);
    keep(&mut pair);
    println!(rt; "Some bytes are kept in a byte memory, a word memory and a pair of both.")?;
    for place in 0..bytes.len() {
        let byte = at(&bytes, place);
        let word = at(&words, place);
        let both = at(&pair, place);
        println!(rt; "Place {place} holds {byte:#04x}, {word:#04x} and {both:#04x}.")?;
    }
    Ok(())
}

fn keep<M: Memory>(memory: &mut M) {
    for (place, byte) in KEPT.iter().enumerate() {
        let _ = memory.write(place as u64, *byte);
    }
}

fn at<M: Memory>(memory: &M, place: u64) -> u8 {
    memory.read(place).unwrap_or(0)
}
