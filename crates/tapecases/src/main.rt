// Runs each tape that its arguments name, as pmprun does, and prints what each run prints.
#![tactic(auto)]

use machine::Machine;
use memory::{ByteMemory, Memory};
use std::{env, fs};

// Bytes of the memory.
const SIZE: usize = 65_536;

fn main(rt: HostRuntime) -> anyhow::Result<()> {
    run(&rt)
}

fn run(rt: &HostRuntime) -> anyhow::Result<()> {
    for name in env::args(rt)?.skip(1) {
        let tape = fs::read(rt, name.as_str())?;
        let mut machine = Machine::new(ByteMemory::new(vec![in rt.alloc(); 0; SIZE]?));
        println!(rt; "{name}:")?;
        rt.print(tape::report(rt.alloc(), &mut machine, tape.as_slice())?)?;
    }
    Ok(())
}
