// Any call, and a log of calls: each answer is put beside its call.
ghost use Rattle.monitor.specs.Content.{banked, call_after, call_answer};
ghost use Rattle.monitor.specs.Laws.{DestroysClear, RollLaws};
ghost use Rattle.monitor.specs.Theorem.{ClosedOff, calls, log as logged, ran};
ghost use Rattle.monitor.specs.declared.call.Call.TheVariants.{Register};
ghost use Rattle.std.specs.Prelude.{◌≡◌};

use crate::laws;
use crate::machine::Machine;
use memory::Memory;
use monitor::{Answer, Call};
use refusals::Refusal;

impl<M: Memory> Machine<M> {
    // A party's try at a protection register, by any number: no party has the privilege for it.
    pub fn register(&self, number: u64, word: u64) -> Answer
        ensures { result ≡ call_answer self.now.content (Register number word) }
    {
        if self.started() {
            Err(Refusal::NotMachine.into())
        } else {
            Err(Refusal::NotStarted.into())
        }
    }

    // Any call. A match and no table of functions: each call has numbers of its own.
    pub fn call(&mut self, call: Call) -> Answer
        ensures answer { result ≡ call_answer self.old.content call }
        ensures after { self.new.content ≡ call_after self.old.content call }
        ensures beyond { self.new.beyond ≡ self.old.beyond }
    {
        match call {
            Call::Create {
                slot,
                base,
                exponent,
            } => self.create(slot, base, exponent),
            Call::Enter { slot } => self.enter(slot),
            Call::Pause => self.pause(),
            Call::Finish { word } => self.finish(word),
            Call::Destroy { slot } => self.destroy(slot),
            Call::Access {
                kind,
                address,
                size,
                value,
            } => self.access(kind, address, size, value),
            Call::Register { number, word } => self.register(number, word),
        }
    }

    // Runs the calls of a log in order, and puts each answer beside its call.
    pub fn run(&mut self, log: &mut [(Call, Answer)])
        ensures log { log.new ≡ logged banked self.old.content (calls log.old) }
        ensures after { self.new.content ≡ ran banked self.old.content (calls log.old) }
        ensures beyond { self.new.beyond ≡ self.old.beyond }
        ensures closed { ClosedOff banked }
        ensures roll { RollLaws }
        ensures clears { DestroysClear }
    {
        laws::closed_off();
        laws::roll_laws();
        laws::destroys_clear();
        self.run_through(log);
    }

    fn run_through(&mut self, log: &mut [(Call, Answer)])
        ensures log { log.new ≡ logged banked self.old.content (calls log.old) }
        ensures after { self.new.content ≡ ran banked self.old.content (calls log.old) }
        ensures beyond { self.new.beyond ≡ self.old.beyond }
    {
        for step in log.iter_mut() {
            step.1 = self.call(step.0);
        }
    }
}
