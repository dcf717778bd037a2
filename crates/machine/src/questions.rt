// The questions put to each call, in their order, and what the call goes on with.
ghost use Rattle.std.specs.Prelude.{◌≡◌, [], ◌∷◌, length, IfOk};
ghost use Rattle.machine.specs.Asked.{Asked};
ghost use Rattle.monitor.specs.Content.{roll_of};
ghost use Rattle.monitor.specs.Layout.{starts};
ghost use Rattle.monitor.specs.Roll.{is_slot, judges, range_questions};
ghost use Rattle.monitor.specs.Slots.{os_runs};
ghost use Rattle.monitor.specs.declared.call.Call.TheVariants.{Create, Destroy, Enter, Pause};
ghost use Rattle.monitor.specs.declared.slot.Party.TheVariants.{Enclave};
ghost use Rattle.refusals.specs.Questions.{ruling};
ghost use Rattle.refusals.specs.declared.Refusal.TheVariants.{NoSlot, NotStarted, OsNotRunning};

use crate::entry::Entry;
use crate::machine::{Machine, starting};
use crate::placement::Placement;
use memory::Memory;
use monitor::Slot;
use refusals::Refusal;

impl<M: Memory> Machine<M> {
    pub(crate) fn started(&self) -> bool
        ensures { result ≡ starts (length self.now.content.bytes) }
    {
        starting(self.memory.len())
    }

    // The machine is started, the slot is one, and the operating system runs.
    fn ask_system(&self, slot: u64) -> Result<Entry, Refusal>
        ensures answer { Asked result (ruling ((starts (length self.now.content.bytes), NotStarted) ∷ (is_slot slot, NoSlot) ∷ (os_runs self.now.content.party, OsNotRunning) ∷ [])) }
        ensures slot { IfOk result (λ s. s ≡ slot) }
    {
        if !self.started() {
            return Err(Refusal::NotStarted);
        }
        let slot = Entry::of_slot(slot)?;
        match self.turn {
            None => Ok(slot),
            Some(_) => Err(Refusal::OsNotRunning),
        }
    }

    // Destroy: the slot is live besides.
    pub(crate) fn ask_destroy(&self, slot: u64) -> Result<Entry, Refusal>
        ensures answer { Asked result (judges (roll_of self.now.content) (Destroy slot)) }
        ensures slot { IfOk result (λ s. s ≡ slot) }
    {
        let slot = self.ask_system(slot)?;
        match self.slots.get(slot) {
            Slot::Free => Err(Refusal::SlotFree),
            _ => Ok(slot),
        }
    }

    // Enter: the slot is live and not finished.
    pub(crate) fn ask_enter(&self, slot: u64) -> Result<Entry, Refusal>
        ensures answer { Asked result (judges (roll_of self.now.content) (Enter slot)) }
        ensures slot { IfOk result (λ s. s ≡ slot) }
    {
        let slot = self.ask_destroy(slot)?;
        match self.slots.get(slot) {
            Slot::Finished(_) => Err(Refusal::Finished),
            _ => Ok(slot),
        }
    }

    pub(crate) fn ask_create(
        &self,
        slot: u64,
        base: u64,
        exponent: u64,
    ) -> Result<(Entry, Placement), Refusal>
        ensures answer { Asked result (judges (roll_of self.now.content) (Create slot base exponent)) }
        ensures slot { IfOk result (λ s. s ≡ (slot, (base, exponent))) }
    {
        let slot = self.ask_system(slot)?;
        let Slot::Free = self.slots.get(slot) else {
            return Err(Refusal::SlotTaken);
        };
        let place = self.ask_range(base, exponent)?;
        Ok((slot, place))
    }

    // The range is of a size that a slot may have, aligned, within the memory, and clear of the
    // pages and of all live ranges.
    fn ask_range(&self, base: u64, exponent: u64) -> Result<Placement, Refusal>
        ensures answer { Asked result (ruling (range_questions (roll_of self.now.content) base exponent)) }
        ensures place { IfOk result (λ p. p ≡ (base, exponent)) }
    {
        if exponent < 12 || exponent > 30 {
            return Err(Refusal::Exponent);
        }
        let size = 2_u64.pow(exponent as u32);
        if base % size != 0 {
            return Err(Refusal::Alignment);
        }
        let length = self.memory.len();
        if size > length || base > length - size {
            return Err(Refusal::BeyondMemory);
        }
        if base < 8_192 {
            return Err(Refusal::Overlap);
        }
        let place = Placement { base, exponent };
        if !self.slots.apart(place.range()) {
            return Err(Refusal::Overlap);
        }
        Ok(place)
    }

    // Pause and finish: which enclave runs.
    pub(crate) fn ask_enclave(&self) -> Result<Entry, Refusal>
        ensures answer { Asked result (judges (roll_of self.now.content) Pause) }
        ensures running { IfOk result (λ s. self.now.content.party ≡ Enclave s) }
    {
        if !self.started() {
            return Err(Refusal::NotStarted);
        }
        self.turn.ok_or(Refusal::NoEnclave)
    }
}
