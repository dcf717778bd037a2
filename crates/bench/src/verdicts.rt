// Verdicts of a full bank: both pages, a shut range for every slot, and the system's entry.
use crate::checksum::Checksum;
use crate::draws::Draws;
use crate::slots;
use bank::{Bank, Privilege, Verdict, range_word};
use refusals::Refusal;

const MACHINE: u64 = Privilege::Machine as u64;

const SUPERVISOR: u64 = Privilege::Supervisor as u64;

// A round is one verdict.
pub(crate) fn run(rounds: u64) -> u64 {
    let bank = full_bank();
    let mut sum = Checksum::new();
    let mut draws = Draws::new();
    for _ in 0..rounds {
        let access = draws.draw();
        let verdict = bank.verdict(SUPERVISOR, access.kind, access.address, access.size());
        sum.add(number(verdict));
    }
    sum.value()
}

fn full_bank() -> Bank {
    let mut bank = Bank::new();
    let _ = bank.write(MACHINE, 0x3B0, 0x1FF);
    let _ = bank.write(MACHINE, 0x3B1, 0x5FF);
    for slot in 0..slots::SLOTS {
        let word = range_word(slots::base(slot), slots::EXPONENT).unwrap_or(0);
        let _ = bank.write(MACHINE, 0x3B0 + slots::entry(slot), word);
    }
    let _ = bank.write(MACHINE, 0x3BF, 0xFFFF_FFFF);
    let _ = bank.write(MACHINE, 0x3A0, 0x1818_9D18);
    let _ = bank.write(MACHINE, 0x3A1, 0x1818_1818);
    let _ = bank.write(MACHINE, 0x3A2, 0x1818_1818);
    let _ = bank.write(MACHINE, 0x3A3, 0x1F18_1818);
    bank
}

// A number for each answer, as the C model makes it: the cause, 0 where it is allowed, below the
// deciding entry.
fn number(answer: Result<Verdict, Refusal>) -> u64 {
    match answer {
        Ok(Verdict::Allowed(entry)) => decider(entry) << 8,
        Ok(Verdict::Fault(entry, cause)) => (decider(entry) << 8) | u64::from(cause),
        Err(refusal) => 0x10000 | u64::from(refusal.number()),
    }
}

// The deciding entry counted from 1, or 0 where none decides.
fn decider(entry: Option<usize>) -> u64 {
    entry.map_or(0, |i| (i as u64).wrapping_add(1))
}
