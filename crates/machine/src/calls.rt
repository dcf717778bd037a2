// The calls on slots: each puts its questions, and then does its work on bank, hart and slots.
ghost use Rattle.std.specs.Prelude.{◌≡◌};
ghost use Rattle.monitor.specs.Content.{call_after, call_answer, halts};
ghost use Rattle.monitor.specs.declared.call.Call.TheVariants.{Create, Destroy, Enter, Finish, Pause};
ghost use Rattle.monitor.specs.declared.slot.Party.TheVariants.{Enclave};

use crate::bytes::wipe;
use crate::entry::Entry;
use crate::hart::Raised;
use crate::machine::Machine;
use bank::Privilege;
use memory::Memory;
use monitor::{Answer, Event};

// The bytes of a range that is shut, and of one that is open.

const SHUT: u8 = 0x18;

const OPEN: u8 = 0x1F;

impl<M: Memory> Machine<M> {
    // A free slot becomes fresh, with a range of 2^exponent bytes; the bytes stay.
    pub fn create(&mut self, slot: u64, base: u64, exponent: u64) -> Answer
        ensures answer { result ≡ call_answer self.old.content (Create slot base exponent) }
        ensures after { self.new.content ≡ call_after self.old.content (Create slot base exponent) }
        ensures beyond { self.new.beyond ≡ self.old.beyond }
    {
        let (slot, place) = self.ask_create(slot, base, exponent)?;
        let word = place.word();
        {
            let guard = Raised::new(&mut self.hart);
            guard.set_word(&mut self.bank, slot, word);
            guard.set_byte(&mut self.bank, slot, SHUT);
        }
        self.slots.step(slot, Event::Create(place.range()));
        Ok(0)
    }

    // A fresh or stopped slot runs: its range is opened, and the operating system's shut off.
    pub fn enter(&mut self, slot: u64) -> Answer
        ensures answer { result ≡ call_answer self.old.content (Enter slot) }
        ensures after { self.new.content ≡ call_after self.old.content (Enter slot) }
        ensures beyond { self.new.beyond ≡ self.old.beyond }
    {
        let slot = self.ask_enter(slot)?;
        {
            let mut guard = Raised::new(&mut self.hart);
            guard.set_byte(&mut self.bank, slot, OPEN);
            guard.set_byte(&mut self.bank, Entry::system(), 0);
            guard.back = Privilege::User;
        }
        self.slots.step(slot, Event::Enter);
        self.turn = Some(slot);
        Ok(0)
    }

    // The enclave that runs is stopped, and the operating system runs.
    pub fn pause(&mut self) -> Answer
        ensures answer { result ≡ call_answer self.old.content Pause }
        ensures after { self.new.content ≡ call_after self.old.content Pause }
        ensures beyond { self.new.beyond ≡ self.old.beyond }
    {
        let running = self.ask_enclave()?;
        self.halt(running, Event::Pause);
        Ok(0)
    }

    // The enclave that runs is finished with a word, which is answered.
    pub fn finish(&mut self, word: u64) -> Answer
        ensures answer { result ≡ call_answer self.old.content (Finish word) }
        ensures after { self.new.content ≡ call_after self.old.content (Finish word) }
        ensures beyond { self.new.beyond ≡ self.old.beyond }
    {
        let running = self.ask_enclave()?;
        self.halt(running, Event::Finish);
        Ok(word)
    }

    // Shuts the enclave that runs, and opens the operating system's entry.
    fn halt(&mut self, running: Entry, event: Event)
        ensures after { self.new.content ≡ halts event self.old.content (Enclave running) }
        ensures beyond { self.new.beyond ≡ self.old.beyond }
    {
        {
            let mut guard = Raised::new(&mut self.hart);
            guard.set_byte(&mut self.bank, running, SHUT);
            guard.set_byte(&mut self.bank, Entry::system(), OPEN);
            guard.back = Privilege::Supervisor;
        }
        self.slots.step(running, event);
        self.turn = None;
    }

    // Every byte of the slot's range becomes 0, and then the slot is free.
    pub fn destroy(&mut self, slot: u64) -> Answer
        ensures answer { result ≡ call_answer self.old.content (Destroy slot) }
        ensures after { self.new.content ≡ call_after self.old.content (Destroy slot) }
        ensures beyond { self.new.beyond ≡ self.old.beyond }
    {
        let slot = self.ask_destroy(slot)?;
        if let Some(range) = self.slots.get(slot).range() {
            wipe(&self.bank, &mut self.memory, range);
        }
        {
            let guard = Raised::new(&mut self.hart);
            guard.set_byte(&mut self.bank, slot, 0);
            guard.set_word(&mut self.bank, slot, 0);
        }
        self.slots.step(slot, Event::Destroy);
        Ok(0)
    }
}
