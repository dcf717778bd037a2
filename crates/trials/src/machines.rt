// Machines: every refusal of every call, the edges of ranges and of the memory, and the same
// calls over all three layouts.
use crate::checks::check;
use machine::Machine;
use memory::{ByteMemory, Memory, PairMemory, WordMemory};
use monitor::{Answer, Call, Denial, Layer};
use refusals::Refusal::{
    self, Alignment, BeyondMemory, Exponent, Finished, Kind, MemoryLength, NoEnclave, NoSlot,
    NotMachine, NotStarted, OsNotRunning, Overlap, Size, SlotFree, SlotTaken, Span,
};
use std::test::Fail;

fn create(slot: u64, base: u64, exponent: u64) -> Call {
    Call::Create {
        slot,
        base,
        exponent,
    }
}

fn load(address: u64, size: u64) -> Call {
    Call::Access {
        kind: 1,
        address,
        size,
        value: 0,
    }
}

fn store(address: u64, size: u64, value: u64) -> Call {
    Call::Access {
        kind: 2,
        address,
        size,
        value,
    }
}

fn fault(layer: Layer, cause: u8) -> Answer {
    Err(Denial::Fault(layer, cause))
}

fn refused(refusal: Refusal) -> Answer {
    Err(Denial::Refused(refusal))
}

// One call, and the answer that it must get.
fn expect<M: Memory>(machine: &mut Machine<M>, call: Call, answer: Answer) -> Result<(), Fail> {
    check(machine.call(call) == answer)
}

// Creates over a new memory of 65,536 bytes.
fn creates<M: Memory>(machine: &mut Machine<M>) -> Result<(), Fail> {
    expect(machine, create(1, 0x4000, 12), refused(NoSlot))?;
    expect(machine, create(15, 0x4000, 12), refused(NoSlot))?;
    expect(machine, create(2, 0x4000, 12), Ok(0))?;
    expect(machine, create(2, 0x4000, 12), refused(SlotTaken))?;
    expect(machine, create(3, 0x4800, 11), refused(Exponent))?;
    expect(machine, create(3, 0, 31), refused(Exponent))?;
    expect(machine, create(3, 0x4800, 12), refused(Alignment))?;
    expect(machine, create(3, 0x10000, 12), refused(BeyondMemory))?;
    expect(machine, create(3, 0x4000, 13), refused(Overlap))?;
    expect(machine, create(3, 0x1000, 12), refused(Overlap))?;
    expect(machine, create(3, 0xF000, 12), Ok(0))
}

// Turns of the two slots that were created.
fn turns<M: Memory>(machine: &mut Machine<M>) -> Result<(), Fail> {
    expect(machine, Call::Enter { slot: 16 }, refused(NoSlot))?;
    expect(machine, Call::Enter { slot: 4 }, refused(SlotFree))?;
    expect(machine, Call::Destroy { slot: 0 }, refused(NoSlot))?;
    expect(machine, Call::Destroy { slot: 4 }, refused(SlotFree))?;
    expect(machine, Call::Pause, refused(NoEnclave))?;
    expect(machine, Call::Finish { word: 1 }, refused(NoEnclave))?;
    expect(
        machine,
        Call::Register {
            number: 0x3A0,
            word: 0,
        },
        refused(NotMachine),
    )?;
    expect(machine, Call::Enter { slot: 2 }, Ok(0))?;
    expect(machine, create(4, 0x8000, 12), refused(OsNotRunning))?;
    expect(machine, Call::Enter { slot: 3 }, refused(OsNotRunning))?;
    expect(machine, Call::Destroy { slot: 3 }, refused(OsNotRunning))?;
    expect(machine, Call::Finish { word: u64::MAX }, Ok(u64::MAX))?;
    expect(machine, Call::Enter { slot: 2 }, refused(Finished))?;
    expect(machine, Call::Enter { slot: 3 }, Ok(0))?;
    expect(machine, Call::Pause, Ok(0))?;
    expect(machine, Call::Enter { slot: 3 }, Ok(0))?;
    expect(machine, Call::Pause, Ok(0))
}

// Accesses of the operating system.
fn outside<M: Memory>(machine: &mut Machine<M>) -> Result<(), Fail> {
    expect(machine, load(0x3FFC, 4), Ok(0))?;
    expect(machine, load(0x3FFE, 4), fault(Layer::Protection, 5))?;
    expect(machine, load(0x5000, 4), Ok(0))?;
    expect(machine, load(0x0FFF, 1), fault(Layer::Protection, 5))?;
    expect(machine, load(0x1000, 8), Ok(0))?;
    expect(machine, store(0x1000, 1, 1), fault(Layer::Protection, 7))?;
    expect(
        machine,
        Call::Access {
            kind: 3,
            address: 0,
            size: 3,
            value: 0,
        },
        refused(Kind),
    )?;
    expect(
        machine,
        Call::Access {
            kind: 0,
            address: 0x4000,
            size: 4,
            value: 0,
        },
        fault(Layer::Protection, 1),
    )?;
    expect(machine, load(0x8000, 3), refused(Size))?;
    expect(machine, load(0x3_FFFF_FFFD, 4), refused(Span))?;
    expect(machine, load(0x3_FFFF_FFF8, 8), fault(Layer::Memory, 5))?;
    expect(machine, store(0x8000, 4, 0x9_8765_4321), Ok(0))?;
    expect(machine, load(0x8000, 8), Ok(0x8765_4321))?;
    expect(machine, load(0x8001, 2), Ok(0x6543))
}

// Accesses of the enclave of slot 3, over the last page.
fn inside<M: Memory>(machine: &mut Machine<M>) -> Result<(), Fail> {
    expect(machine, Call::Enter { slot: 3 }, Ok(0))?;
    expect(machine, store(0xFFF8, 8, u64::MAX), Ok(0))?;
    expect(machine, load(0xFFFC, 8), fault(Layer::Protection, 5))?;
    expect(machine, load(0xEFFC, 8), fault(Layer::Protection, 5))?;
    expect(machine, store(0x8000, 1, 1), fault(Layer::Protection, 7))?;
    expect(machine, load(0x1FFC, 4), Ok(0))?;
    expect(machine, load(0x1FFE, 4), fault(Layer::Protection, 5))?;
    expect(machine, load(0xFFFE, 2), Ok(0xFFFF))?;
    expect(machine, Call::Pause, Ok(0))?;
    expect(machine, load(0xFFF8, 8), fault(Layer::Protection, 5))?;
    expect(machine, Call::Destroy { slot: 3 }, Ok(0))?;
    expect(machine, load(0xFFF8, 8), Ok(0))
}

fn walk<M: Memory>(machine: &mut Machine<M>) -> Result<(), Fail> {
    creates(machine)?;
    turns(machine)?;
    outside(machine)?;
    inside(machine)
}

#[test]
fn over_bytes(rt: HostRuntime) -> Result<(), Fail> {
    let memory = ByteMemory::new(vec![in rt.alloc(); 0; 65_536]?);
    let mut machine = Machine::new(memory);
    walk(&mut machine)
}

#[test]
fn over_words(rt: HostRuntime) -> Result<(), Fail> {
    let memory = WordMemory::new(vec![in rt.alloc(); 0; 16_384]?);
    let mut machine = Machine::new(memory);
    walk(&mut machine)
}

#[test]
fn over_a_pair(rt: HostRuntime) -> Result<(), Fail> {
    let first = WordMemory::new(vec![in rt.alloc(); 0; 8_192]?);
    let second = WordMemory::new(vec![in rt.alloc(); 0; 8_192]?);
    let mut machine = Machine::new(PairMemory::new(first, second));
    walk(&mut machine)
}

// The end of the memory, to the operating system of a new machine.
#[test]
fn ends(rt: HostRuntime) -> Result<(), Fail> {
    let memory = ByteMemory::new(vec![in rt.alloc(); 0; 65_536]?);
    let mut machine = Machine::new(memory);
    expect(&mut machine, load(0xFFFC, 8), fault(Layer::Memory, 5))?;
    expect(&mut machine, store(0xFFFC, 8, 1), fault(Layer::Memory, 7))?;
    expect(&mut machine, load(0xFFF8, 8), Ok(0))
}

// Lengths that start a machine, and lengths that do not.
#[test]
fn lengths(rt: HostRuntime) -> Result<(), Fail> {
    for (length, starts) in [
        (0, false),
        (4_096, false),
        (16_384, true),
        (16_385, false),
        (20_480, true),
    ] {
        let memory = ByteMemory::new(vec![in rt.alloc(); 0; length]?);
        check(Machine::starts(&memory).is_ok() == starts)?;
        let mut machine = Machine::new(memory);
        if starts {
            expect(&mut machine, create(2, 0x2000, 12), Ok(0))?;
        } else {
            expect(&mut machine, create(2, 0x2000, 12), refused(NotStarted))?;
            expect(&mut machine, load(0, 3), refused(NotStarted))?;
            expect(
                &mut machine,
                Call::Register { number: 0, word: 0 },
                refused(NotStarted),
            )?;
        }
    }
    Ok(())
}

// Lengths that do not start a machine are refused; half a page more than a length that does is
// one.
#[test]
fn lengths_refused(rt: HostRuntime) -> Result<(), Fail> {
    for length in [0, 4_096, 12_288, 16_385, 18_432] {
        let memory = ByteMemory::new(vec![in rt.alloc(); 0; length]?);
        check(Machine::starts(&memory) == Err(MemoryLength))?;
    }
    Ok(())
}

// The numbers of the refusals above.
#[test]
fn numbers() -> Result<(), Fail> {
    for (refusal, number) in [
        (NotMachine, 22),
        (Kind, 24),
        (Size, 25),
        (Span, 26),
        (NotStarted, 27),
        (NoSlot, 28),
        (OsNotRunning, 29),
        (SlotTaken, 30),
        (Exponent, 31),
        (Alignment, 32),
        (BeyondMemory, 33),
        (Overlap, 34),
        (SlotFree, 35),
        (Finished, 36),
        (NoEnclave, 37),
        (MemoryLength, 42),
    ] {
        check(refusal.number() == number)?;
    }
    Ok(())
}
