// An access: a verdict at the running party's privilege, then the memory's end, then the bytes.
ghost use Rattle.std.specs.Prelude.{◌≡◌, Ok, Err};
ghost use Rattle.bank.specs.Verdicts.{kind_number};
ghost use Rattle.monitor.specs.Content.{access_answer, after_access, call_after, call_answer};
ghost use Rattle.monitor.specs.declared.call.Call.TheVariants.{Access};

use crate::bytes::Reach;
use crate::machine::Machine;
use bank::{Kind, Verdict};
use memory::Memory;
use monitor::{Answer, Denial, Layer};
use refusals::Refusal;

impl<M: Memory> Machine<M> {
    // A fetch (kind 0), a load (1) or a store (2) by the party that runs. Any numbers are taken, and
    // refused here.
    pub fn access(&mut self, kind: u64, address: u64, size: u64, value: u64) -> Answer
        ensures answer { result ≡ call_answer self.old.content (Access kind address size value) }
        ensures after { self.new.content ≡ call_after self.old.content (Access kind address size value) }
        ensures beyond { self.new.beyond ≡ self.old.beyond }
    {
        if !self.started() {
            return Err(Refusal::NotStarted.into());
        }
        let verdict = self
            .bank
            .verdict(self.hart.privilege.into(), kind, address, size)?;
        let kind = Kind::try_from(kind)?;
        let reach = Reach { address, size };
        self.carry_out(verdict, kind, reach, value)
    }

    // What follows from the verdict.
    fn carry_out(&mut self, verdict: Verdict, kind: Kind, reach: Reach, value: u64) -> Answer
        ensures answer { result ≡ access_answer (Ok verdict) self.old.content.bytes (kind_number kind) reach.0 reach.1 }
        ensures after { self.new.content ≡ after_access (Ok verdict) self.old.content (kind_number kind) reach.0 reach.1 value }
        ensures beyond { self.new.beyond ≡ self.old.beyond }
    {
        match verdict {
            Verdict::Fault(_, cause) => Err(Denial::Fault(Layer::Protection, cause)),
            Verdict::Allowed(_) if reach.past() > self.memory.len() => {
                Err(Denial::Fault(Layer::Memory, kind.cause()))
            }
            Verdict::Allowed(_) => match kind {
                Kind::Store => {
                    reach.store(&mut self.memory, value);
                    Ok(0)
                }
                Kind::Fetch | Kind::Load => Ok(reach.load(&self.memory)),
            },
        }
    }
}
