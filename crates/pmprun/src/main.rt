// Runs a tape from standard input on a new machine over 65,536 zeros, and prints a line for each
// record.
#![tactic(auto)]

use machine::Machine;
use memory::ByteMemory;
use std::io::Read;
use tape::LIMIT;

// The bytes of the machine's memory.
const MEMORY: usize = 65_536;

fn run(rt: &HostRuntime) -> anyhow::Result<()> {
    let mut bytes = Vec::new(rt.alloc());
    // one byte more than the longest tape tells a longer one
    rt.stdin().take(LIMIT as u64 + 1).read_to_end(&mut bytes)?;
    let memory = ByteMemory::new(vec![in rt.alloc(); 0u8; MEMORY]?);
    let mut machine = Machine::new(memory);
    let text = tape::report(rt.alloc(), &mut machine, bytes.as_slice())?;
    rt.print(text)?;
    Ok(())
}

fn main(rt: HostRuntime) -> anyhow::Result<()> {
    run(&rt)
}
