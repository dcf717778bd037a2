// What accesses do to a memory, least significant byte first.
ghost use Rattle.std.specs.Prelude.{◌≡◌, ◌+◌, ◌-◌, ◌/◌, ◌^◌, ◌<◌};
ghost use Rattle.monitor.specs.Bytes.{low_bytes, number};
ghost use Rattle.monitor.specs.Content.{wiped, wiped_eight};
ghost use Rattle.std.proofs.lemmas.List.Edits.{sets};

use bank::{Bank, Kind, Privilege, Verdict};
use memory::Memory;
use std::marker::Model;

// The bytes that one access reaches, at most eight: clauses see the first and how many there are.
#[derive(Clone, Copy)]
pub struct Reach {
    pub(crate) address: u64,
    pub(crate) size: u64,
}

impl Model for Reach {
    ghost use Rattle.std.specs.Prelude.{ℕ, ◌+◌, ◌^◌, ◌<◌, ◌≤◌};

    ghost Value = { ℕ × ℕ };

    ghost view = { λ r. (r.address, r.size) };

    ghost invariant = { λ r. (r.size ≤ 8) × (r.address + r.size < 2 ^ 64) };

    ghost inverse = { λ v. record { address = v.0; size = v.1 } };
}

impl Reach {
    // The place after its last byte.
    pub(crate) fn past(self) -> u64
        ensures { result ≡ self.0 + self.1 }
    {
        self.address + self.size
    }

    // The number in its bytes.
    pub(crate) fn load<M: Memory>(self, memory: &M) -> u64
        ensures { result ≡ number (M.Memory.bytes memory.now) self.0 self.1 }
    {
        let mut bytes = [0u8; 8];
        for (i, byte) in bytes[..self.size as usize].iter_mut().enumerate() {
            *byte = memory.read(self.address + i as u64).unwrap_or(0);
        }
        u64::from_le_bytes(bytes)
    }

    // Puts the low bytes of a number.
    pub(crate) fn store<M: Memory>(self, memory: &mut M, value: u64)
        ensures after { M.Memory.bytes memory.new ≡ sets (M.Memory.bytes memory.old) self.0 (low_bytes self.1 value) }
        ensures beyond { M.Memory.beyond memory.new ≡ M.Memory.beyond memory.old }
    {
        let bytes = value.to_le_bytes();
        for (i, byte) in bytes[..self.size as usize].iter().enumerate() {
            let _ = memory.write(self.address + i as u64, *byte);
        }
    }
}

// Stores zeros over a range, eight bytes at a time, each as the bank allows at machine privilege.
// A count and not `step_by(8)`, which takes one step more where eight does not divide the length.
pub(crate) fn wipe<M: Memory>(bank: &Bank, memory: &mut M, range: (u64, u64))
    ensures after { M.Memory.bytes memory.new ≡ wiped bank.now (M.Memory.bytes memory.old) range.0 ((range.1 - range.0) / 8) }
    ensures beyond { M.Memory.beyond memory.new ≡ M.Memory.beyond memory.old }
{
    let (first, past) = range;
    for i in 0..past.saturating_sub(first) / 8 {
        wipe_eight(bank, memory, first + 8 * i);
    }
}

fn wipe_eight<M: Memory>(bank: &Bank, memory: &mut M, address: u64)
    requires { address + 8 < 2 ^ 64 }
    ensures after { M.Memory.bytes memory.new ≡ wiped_eight bank.now (M.Memory.bytes memory.old) address }
    ensures beyond { M.Memory.beyond memory.new ≡ M.Memory.beyond memory.old }
{
    if let Ok(Verdict::Allowed(_)) = bank.verdict(
        Privilege::Machine.into(),
        Kind::Store as u64,
        address,
        8,
    ) {
        Reach { address, size: 8 }.store(memory, 0);
    }
}
