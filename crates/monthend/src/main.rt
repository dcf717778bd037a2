// The month's end of two credit unions on one box, from beginning to end: their jobs run in
// enclaves of their own, and the operating system sees only what they hand over. Every number
// that is printed is computed.
#![tactic(auto)]

mod job;
mod layouts;
mod outcome;

use job::Job;
use machine::Machine;
use memory::Memory;
use std::alloc::{AllocError, Global};

// Words in each of the box's two chips.
const WORDS: usize = 32_768;

const FIRST: Job = Job {
    name: "the first union",
    slot: 2,
    base: 0x10000,
    lines: [
        (120_000, 120_000),
        (455_050, 455_000),
        (31_000, 31_000),
        (9_800, 9_800),
    ],
};

const SECOND: Job = Job {
    name: "the second union",
    slot: 3,
    base: 0x20000,
    lines: [
        (77_700, 77_700),
        (5_000, 5_001),
        (640_125, 640_126),
        (18, 18),
    ],
};

fn main(rt: HostRuntime) -> anyhow::Result<()> {
    run(&rt)
}

fn run(rt: &HostRuntime) -> anyhow::Result<()> {
    layouts::show(rt)?;
    let mut machine = machine::shipped(chip(rt.alloc())?, chip(rt.alloc())?);
    let chips = WORDS * 4 * 2;
    println!(rt; "\nThe box has {chips} bytes in two chips. The operating system runs.")?;
    month_end(rt, &mut machine)
}

// Both jobs, from loading to clearing away.
fn month_end<M: Memory>(rt: &HostRuntime, machine: &mut Machine<M>) -> anyhow::Result<()> {
    for job in [FIRST, SECOND] {
        job::prepare(rt, machine, job)?;
    }
    job::try_from_outside(rt, machine, FIRST)?;
    for (job, other) in [(FIRST, SECOND), (SECOND, FIRST)] {
        job::work(rt, machine, job, other)?;
    }
    for job in [FIRST, SECOND] {
        job::clear_away(rt, machine, job)?;
    }
    Ok(())
}

// A chip of zeros.
fn chip(heap: Global) -> Result<Vec<u32>, AllocError> {
    vec![in heap; 0; WORDS]
}
