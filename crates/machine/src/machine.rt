// The machine: made over a memory, and given back as that memory.
ghost use Rattle.bank.specs.Clean.{Clean};
ghost use Rattle.machine.specs.Turns.{is_entry};
ghost use Rattle.monitor.specs.Content.{new_content};
ghost use Rattle.monitor.specs.Examples.{MachineExamples};
ghost use Rattle.monitor.specs.Layout.{starts};
ghost use Rattle.refusals.specs.Questions.{ruling};
ghost use Rattle.refusals.specs.declared.Refusal.TheVariants.{MemoryLength};
ghost use Rattle.std.specs.Prelude.{◌≡◌, [], ◌∷◌, length, true};

use crate::entry::Entry;
use crate::hart::{Hart, Raised};
use crate::laws;
use crate::slots::Slots;
use bank::{Bank, Privilege};
use memory::Memory;
use refusals::Refusal;
use std::marker::Model;

// Clauses see its content, and what its memory's buffers hold besides.
#[derive(Drop)]
pub struct Machine<M: Memory> {
    pub(crate) hart: Hart,
    pub(crate) bank: Bank,
    pub(crate) slots: Slots,
    // The slot that runs, or none where the operating system does.
    pub(crate) turn: Option<Entry>,
    pub(crate) memory: M,
}

impl<M: Memory> Model for Machine<M> {
    ghost use Rattle.bank.specs.Privilege.{privilege_number};
    ghost use Rattle.machine.specs.State.{State, party_of};

    ghost Value = { State };

    ghost view = { λ m. record {
      content = record {
        bank = m.bank;
        privilege = privilege_number m.hart.privilege;
        slots = m.slots;
        party = party_of m.turn;
        bytes = M.Memory.bytes m.memory;
      };
      beyond = M.Memory.beyond m.memory;
    } };
}

impl<M: Memory> Machine<M> {
    // Whether a memory has a length that starts a machine.
    pub fn starts(memory: &M) -> Result<(), Refusal>
        ensures { result ≡ ruling ((starts (length (M.Memory.bytes memory.now)), MemoryLength) ∷ []) }
    {
        if starting(memory.len()) {
            Ok(())
        } else {
            Err(Refusal::MemoryLength)
        }
    }

    // A new machine: the operating system runs, and every slot is free. Over a memory that
    // starts none its bank is new, and every call is refused.
    pub fn new(memory: M) -> Self
        ensures made { result.content ≡ new_content (M.Memory.bytes memory) }
        ensures beyond { result.beyond ≡ M.Memory.beyond memory }
        ensures examples { MachineExamples }
    {
        laws::machine_examples();
        let mut hart = Hart {
            privilege: Privilege::Supervisor,
        };
        let mut bank = Bank::new();
        if starting(memory.len()) {
            let guard = Raised::new(&mut hart);
            guard.set_up(&mut bank);
        }
        Machine {
            hart,
            bank,
            slots: Slots::new(),
            turn: None,
            memory,
        }
    }

    // What is known of every machine, whoever made it: its bank's bytes are clean, and an enclave that
    // runs has the number of an entry. It does nothing when it is run.
    pub fn stays_sound(&self)
        ensures clean { Clean self.now.content.bank }
        ensures entry { is_entry self.now.content.party ≡ true }
    {
        self.bank.stays_clean();
        if let Some(entry) = self.turn {
            entry.within();
        }
    }

    // The memory, as the calls have left it.
    pub fn into_memory(self) -> M
        ensures bytes { M.Memory.bytes result ≡ self.content.bytes }
        ensures beyond { M.Memory.beyond result ≡ self.beyond }
    {
        self.memory
    }
}

pub(crate) fn starting(length: u64) -> bool
    ensures { result ≡ starts length }
{
    length >= 16_384 && length <= 1 << 34 && length % 4_096 == 0
}
