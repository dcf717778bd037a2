// A union's job: drafts are matched with the ledger, line by line, in an enclave.
use crate::outcome::Outcome;
use anyhow::Context;
use machine::Machine;
use memory::Memory;

// How many lines a job has, and how its range is laid out: drafts, ledger, and marks of what
// matched.
const LINES: u32 = 4;

const LEDGER: u32 = 0x400;

const MARKS: u32 = 0x800;

const EXPONENT: u64 = 12;

// The kinds of its accesses, by the numbers that a guest gives.

const LOAD: u64 = 1;

const STORE: u64 = 2;

#[derive(Clone, Copy)]
pub(crate) struct Job {
    pub name: &'static str,
    pub slot: u32,
    pub base: u32,
    // each line's draft and ledger entry
    pub lines: [(u64, u64); 4],
}

impl Job {
    // Where a line of a part of the job's range lies.
    fn place(self, part: u32, line: u32) -> u64 {
        u64::from(self.base) + u64::from(part) + 8 * u64::from(line)
    }
}

// The operating system puts drafts and ledger into the range, and creates the slot over it.
pub(crate) fn prepare<M: Memory>(
    rt: &HostRuntime,
    machine: &mut Machine<M>,
    job: Job,
) -> anyhow::Result<()> {
    for (line, (draft, entry)) in (0..LINES).zip(job.lines) {
        put(machine, job.place(0, line), draft).context("a draft was not stored")?;
        put(machine, job.place(LEDGER, line), entry).context("a ledger line was not stored")?;
    }
    let created = machine.create(u64::from(job.slot), u64::from(job.base), EXPONENT);
    let answer = Outcome(created);
    let Job {
        name,
        slot,
        base,
        ..
    } = job;
    println!(rt; "{LINES} drafts and ledger lines of {name} are put at {base:#x}.")?;
    println!(rt; "To create slot {slot} there {answer}.")?;
    Ok(())
}

// The operating system cannot reach into a job's range.
pub(crate) fn try_from_outside<M: Memory>(
    rt: &HostRuntime,
    machine: &mut Machine<M>,
    job: Job,
) -> anyhow::Result<()> {
    let place = job.place(0, 0);
    let name = job.name;
    let load = Outcome(machine.access(LOAD, place, 8, 0));
    let store = Outcome(machine.access(STORE, place, 8, 1));
    println!(rt;
        "The operating system tries {name}'s first draft: a load {load}, a store {store}."
    )?;
    Ok(())
}

// The job runs, matches its lines, tries what it may not reach, and hands over its count.
pub(crate) fn work<M: Memory>(
    rt: &HostRuntime,
    machine: &mut Machine<M>,
    job: Job,
    other: Job,
) -> anyhow::Result<()> {
    let Job { name, slot, .. } = job;
    let entered = Outcome(machine.enter(u64::from(slot)));
    println!(rt; "\nTo enter slot {slot} {entered}: the job of {name} runs.")?;
    let matched = reconcile(rt, machine, job)?;
    try_from_inside(rt, machine, other)?;
    hand_over(rt, machine, job, matched)
}

// The job cannot reach another's range, the operating system's bytes or a register.
fn try_from_inside<M: Memory>(
    rt: &HostRuntime,
    machine: &mut Machine<M>,
    other: Job,
) -> anyhow::Result<()> {
    let theirs = Outcome(machine.access(LOAD, other.place(0, 0), 8, 0));
    println!(rt; "It tries a draft of the other union: the load {theirs}.")?;
    let system = Outcome(machine.access(STORE, 0x8000, 8, 1));
    println!(rt; "It tries the operating system's bytes: the store {system}.")?;
    let register = Outcome(machine.register(0x3A0, 0));
    println!(rt; "It tries a protection register: the write {register}.")?;
    Ok(())
}

// The job finishes with its count, and is not entered again.
fn hand_over<M: Memory>(
    rt: &HostRuntime,
    machine: &mut Machine<M>,
    job: Job,
    matched: u64,
) -> anyhow::Result<()> {
    let slot = job.slot;
    let handed = Outcome(machine.finish(matched));
    println!(rt; "It finishes: the call {handed}.")?;
    let again = Outcome(machine.enter(u64::from(slot)));
    println!(rt; "To enter slot {slot} again {again}.")?;
    Ok(())
}

// Marks each draft that its ledger line meets, and counts them.
fn reconcile<M: Memory>(
    rt: &HostRuntime,
    machine: &mut Machine<M>,
    job: Job,
) -> anyhow::Result<u64> {
    let mut matched = 0u64;
    for line in 0..LINES {
        let draft = get(machine, job.place(0, line)).context("a draft was not loaded")?;
        let entry = get(machine, job.place(LEDGER, line)).context("a ledger line was not loaded")?;
        let mark = u64::from(draft == entry);
        put(machine, job.place(MARKS, line), mark).context("a mark was not stored")?;
        matched = matched.saturating_add(mark);
        if draft == entry {
            println!(rt; "Draft {line} of {draft} meets its ledger line.")?;
        } else {
            println!(rt; "Draft {line} of {draft} stays open: the ledger has {entry}.")?;
        }
    }
    Ok(matched)
}

// The slot is destroyed, and the operating system finds zeros where it was.
pub(crate) fn clear_away<M: Memory>(
    rt: &HostRuntime,
    machine: &mut Machine<M>,
    job: Job,
) -> anyhow::Result<()> {
    let Job { name, slot, .. } = job;
    let destroyed = Outcome(machine.destroy(u64::from(slot)));
    let words = 1u32 << EXPONENT >> 3;
    let zeros = (0..words)
        .filter(|&line| get(machine, job.place(0, line)) == Some(0))
        .count();
    println!(rt; "\nTo destroy slot {slot} {destroyed}.")?;
    println!(rt; "Of the {words} words in the range of {name}, {zeros} are zero.")?;
    Ok(())
}

fn get<M: Memory>(machine: &mut Machine<M>, place: u64) -> Option<u64> {
    machine.access(LOAD, place, 8, 0).ok()
}

fn put<M: Memory>(machine: &mut Machine<M>, place: u64, word: u64) -> Option<u64> {
    machine.access(STORE, place, 8, word).ok()
}
