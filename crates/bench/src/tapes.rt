// A tape of accesses, run again and again, each time on a new machine.
use crate::checksum::Checksum;
use crate::draws::{Draw, Draws, LOAD};
use machine::Machine;
use memory::{ByteMemory, Memory};
use std::alloc::{AllocError, Global};
use tape::{Item, Operation, RECORD};

// The bytes of the memory that a tape runs on.
const MEMORY: usize = 65_536;

// A round is a run of the whole tape. The lengths of all texts count, and the bytes of the last.
pub(crate) fn run(heap: Global, records: u16, rounds: u64) -> Result<u64, AllocError> {
    let bytes = access_tape(heap, records)?;
    let mut sum = Checksum::new();
    let mut text = String::new(heap);
    for _ in 0..rounds {
        let mut machine = Machine::new(ByteMemory::new(vec![in heap; 0; MEMORY]?));
        text = tape::report(heap, &mut machine, bytes.as_slice())?;
        sum.add(text.len() as u64);
    }
    for byte in text.as_bytes() {
        sum.add(u64::from(*byte));
    }
    Ok(sum.value())
}

fn access_tape(heap: Global, records: u16) -> Result<Vec<u8>, AllocError> {
    let mut draws = Draws::new();
    let mut items = Vec::new(heap);
    for _ in 0..records {
        items.push(item(draws.draw()))?;
    }
    let mut bytes = vec![in heap; 0; RECORD * records as usize]?;
    let _ = tape::write(items.as_slice(), bytes.as_mut_slice());
    Ok(bytes)
}

// The item of an access; its address is cut to the memory's length.
fn item(access: Draw) -> Item {
    let (operation, value) = if access.kind == LOAD {
        (Operation::Load, 0)
    } else {
        (Operation::Store, access.value)
    };
    Item {
        operation: operation.number(),
        slot: 0,
        width: access.width,
        address: access.address & 0xFFFF,
        value,
    }
}
