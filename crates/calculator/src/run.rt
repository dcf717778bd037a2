// Commands on a bank.
ghost use Rattle.calculator.specs.Laws.{WritesReadBack};
ghost use Rattle.calculator.specs.Run.{answer_of, content_after};
ghost use Rattle.std.specs.Prelude.{◌≡◌};

use crate::answer::Answer;
use crate::command::Command;
use crate::laws;
use bank::Bank;

impl Command {
    // Does what the command asks for. A match and no table of functions: each has numbers of its own.
    pub fn run(self, bank: &mut Bank) -> Answer
        ensures answer { result ≡ answer_of bank.old self }
        ensures after { bank.new ≡ content_after bank.old self }
        ensures back { WritesReadBack }
    {
        laws::writes_read_back();
        match self {
            Command::Read { privilege, number } => Answer::Word(bank.read(privilege, number)),
            Command::Write {
                privilege,
                number,
                word,
            } => { Answer::Word(bank.write(privilege, number, word)) }
            Command::Check {
                privilege,
                kind,
                address,
                size,
            } => { Answer::Verdict(bank.verdict(privilege, kind, address, size)) }
            Command::Range { index } => Answer::Range(bank.range(index)),
            Command::Word { base, exponent } => Answer::Word(bank::range_word(base, exponent)),
            Command::Reset => {
                bank.reset();
                Answer::Done
            }
        }
    }
}
