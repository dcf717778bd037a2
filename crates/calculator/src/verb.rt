// The words that name commands.
ghost use Rattle.tokens.specs.Options.{and_then};
ghost use Rattle.calculator.specs.Parse.{at_most, numbers as numbers_of};
ghost use Rattle.calculator.specs.Verb.{command_of, verb_of};
ghost use Rattle.std.specs.Prelude.{◌≡◌};

use crate::command::Command;
use crate::parse::numbers;
use tokens::Words;

#[derive(Clone, Copy)]
pub(crate) enum Verb {
    Read,
    Write,
    Check,
    Range,
    Word,
    Reset,
}

impl Verb {
    // The verb that a word names.
    pub(crate) fn named(word: &[u8]) -> Option<Verb>
        ensures { result ≡ verb_of word.now }
    {
        match word {
            b"read" => Some(Verb::Read),
            b"write" => Some(Verb::Write),
            b"check" => Some(Verb::Check),
            b"range" => Some(Verb::Range),
            b"word" => Some(Verb::Word),
            b"reset" => Some(Verb::Reset),
            _ => None,
        }
    }

    // The command with the numbers that the words after it write.
    pub(crate) fn with(self, words: Words) -> Option<Command>
        ensures { result ≡ and_then (at_most 4 (numbers_of words.entry)) (command_of self) }
    {
        match self {
            Verb::Read => {
                let [privilege, number] = numbers::<2>(words)?;
                Some(Command::Read { privilege, number })
            }
            Verb::Write => {
                let [privilege, number, word] = numbers::<3>(words)?;
                let word = u32::try_from(word).ok()?;
                Some(Command::Write {
                    privilege,
                    number,
                    word,
                })
            }
            Verb::Check => {
                let [privilege, kind, address, size] = numbers::<4>(words)?;
                Some(Command::Check {
                    privilege,
                    kind,
                    address,
                    size,
                })
            }
            Verb::Range => {
                let [index] = numbers::<1>(words)?;
                (index < 16).then_some(Command::Range { index })
            }
            Verb::Word => {
                let [base, exponent] = numbers::<2>(words)?;
                Some(Command::Word { base, exponent })
            }
            Verb::Reset => {
                let [] = numbers::<0>(words)?;
                Some(Command::Reset)
            }
        }
    }
}
