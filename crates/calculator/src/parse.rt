// A line as a command.
ghost use Rattle.std.specs.Prelude.{◌≡◌};
ghost use Rattle.calculator.specs.Laws.{CommandsParse};
ghost use Rattle.calculator.specs.Parse.{exactly, numbers as numbers_of, parse_line};

use crate::command::Command;
use crate::laws;
use crate::numbers::number;
use crate::verb::Verb;
use tokens::Words;

impl Command {
    // The command that a line writes: a word, and numbers after single spaces. Not `FromStr`, which
    // takes text: a line is any bytes.
    pub fn parse(line: &[u8]) -> Option<Command>
        ensures answer { result ≡ parse_line line.now }
        ensures parses { CommandsParse }
    {
        laws::commands_parse();
        let mut words = Words::of(line);
        let verb = Verb::named(words.next()?)?;
        verb.with(words)
    }
}

// The numbers that words write, where they are so many.
pub(crate) fn numbers<const N: usize>(mut words: Words) -> Option<[u64; N]>
    ensures { result ≡ exactly N (numbers_of words.entry) }
{
    let mut numbers = [0; N];
    for place in numbers.iter_mut() {
        *place = number(words.next()?)?;
    }
    match words.next() {
        None => Some(numbers),
        Some(_) => None,
    }
}
