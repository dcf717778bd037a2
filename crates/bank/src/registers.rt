// The registers: 0x3A0 to 0x3A3 hold four configuration bytes each, 0x3B0 to 0x3BF the words.
ghost use Rattle.bank.specs.Clean.{Clean};
ghost use Rattle.bank.specs.Content.{blank};
ghost use Rattle.bank.specs.Laws.{AlwaysClean, LocksStand, OldLocksDecide, OnlyResetsRelease, WordsLastWritten};
ghost use Rattle.bank.specs.Registers.{privilege_questions, read_answer, write_answer, written};
ghost use Rattle.refusals.specs.Questions.{ruling};
ghost use Rattle.std.specs.Prelude.{◌≡◌, ◌-◌, ◌≤◌};

use crate::bank::Bank;
use crate::index::{Index, Row};
use crate::laws;
use crate::privilege::Privilege;
use refusals::Refusal;

impl Bank {
    pub fn new() -> Self
        ensures made { result ≡ blank }
        ensures clean { AlwaysClean }
        ensures words { WordsLastWritten }
    {
        laws::always_clean();
        laws::words_last_written();
        Bank::zero()
    }

    // What is known of every bank, whoever made it: no byte has bits 6 or 5, or W without R. It does
    // nothing when it is run.
    pub fn stays_clean(&self)
        ensures { Clean self.now }
    {
        let _ = &self.entries.list;
    }

    // All entries zero again, locked ones too.
    pub fn reset(&mut self)
        ensures after { self.new ≡ blank }
        ensures releases { OnlyResetsRelease }
    {
        laws::only_resets_release();
        *self = Bank::zero();
    }

    // What the register holds. Privilege and number may be any, and are refused here.
    pub fn read(&self, privilege: u64, number: u64) -> Result<u32, Refusal>
        ensures { result ≡ read_answer self.now privilege number }
    {
        asked(privilege)?;
        match number {
            0x3A0..=0x3A3 => Ok(self.entries.four(row(number))),
            0x3B0..=0x3BF => Ok(self.entries.word(entry(number))),
            _ => Err(Refusal::NoRegister),
        }
    }

    // Writes the register as far as the locks let it, and answers what it then holds. Privilege and
    // number may be any here too.
    pub fn write(&mut self, privilege: u64, number: u64, word: u32) -> Result<u32, Refusal>
        ensures answer { result ≡ write_answer self.old privilege number word }
        ensures after { self.new ≡ written self.old privilege number word }
        ensures locks { LocksStand }
        ensures four { OldLocksDecide }
    {
        laws::locks_stand();
        laws::old_locks_decide();
        asked(privilege)?;
        match number {
            0x3A0..=0x3A3 => {
                self.put_four(row(number), word);
                Ok(self.entries.four(row(number)))
            }
            0x3B0..=0x3BF if self.entries.locked(entry(number)) => {
                Ok(self.entries.word(entry(number)))
            }
            0x3B0..=0x3BF if self.entries.bounds_locked_above(entry(number)) => {
                Ok(self.entries.word(entry(number)))
            }
            0x3B0..=0x3BF => {
                self.put_word(entry(number), word);
                Ok(self.entries.word(entry(number)))
            }
            _ => Err(Refusal::NoRegister),
        }
    }
}

// Privilege 0, 1 or 3, and then privilege 3.
fn asked(privilege: u64) -> Result<(), Refusal>
    ensures { result ≡ ruling (privilege_questions privilege) }
{
    if Privilege::try_from(privilege)?.is_machine() {
        Ok(())
    } else {
        Err(Refusal::NotMachine)
    }
}

// Which register of four bytes a number names, and which word.

fn row(number: u64) -> Row
    requires { (0x3A0 ≤ number) × (number ≤ 0x3A3) }
    ensures { result ≡ number - 0x3A0 }
{
    Row {
        n: (number - 0x3A0) as usize,
    }
}

fn entry(number: u64) -> Index
    requires { (0x3B0 ≤ number) × (number ≤ 0x3BF) }
    ensures { result ≡ number - 0x3B0 }
{
    Index {
        n: (number - 0x3B0) as usize,
    }
}
