// Runs workloads over the bank, the machine and the tape, so that their cost can be measured. For
// each it prints a line: its name, how many rounds it ran, and a checksum of all answers.
#![tactic(auto)]

mod accesses;
mod checksum;
mod destroys;
mod draws;
mod order;
mod slots;
mod tapes;
mod verdicts;
mod workload;

use anyhow::anyhow;
use order::Order;
use workload::{ALL, Workload};

const HELP: &str = "bench                    runs every workload for a few rounds
bench WORKLOAD ROUNDS    runs one workload

Workloads: draws, verdicts, bytes, words, pair, lent, half-tape, tape,
destroy-half, destroy";

fn main(rt: HostRuntime) -> anyhow::Result<()> {
    run(&rt)
}

fn run(rt: &HostRuntime) -> anyhow::Result<()> {
    let Some(order) = order::asked(rt)? else {
        eprintln!(rt; "{HELP}")?;
        return Err(anyhow!("no such workload or number of rounds"));
    };
    match order {
        Order::Short => {
            for (workload, rounds) in ALL {
                show(rt, workload, rounds)?;
            }
            Ok(())
        }
        Order::One(workload, rounds) => show(rt, workload, rounds),
    }
}

fn show(rt: &HostRuntime, workload: Workload, rounds: u64) -> anyhow::Result<()> {
    let name = workload.name();
    let sum = workload.run(rt.alloc(), rounds)?;
    println!(rt; "{name} {rounds} {sum:016x}")?;
    Ok(())
}
