// What a line is answered.
ghost use Rattle.calculator.specs.Parse.{parse_line};
ghost use Rattle.calculator.specs.Reply.{content_then, reply_text};
ghost use Rattle.calculator.specs.Run.{answer_of};
ghost use Rattle.std.specs.Option.{option_map};
ghost use Rattle.std.specs.Prelude.{◌≡◌, Some};

use crate::answer::Answer;
use crate::command::Command;
use bank::Bank;
use std::fmt;

// The answer to the line's command, or none where the line is no command. A struct, since an Option
// is not this crate's to print.
#[derive(Clone, Copy)]
pub(crate) struct Reply(Option<Answer>);

impl Reply {
    // Does what the line asks for.
    pub(crate) fn to(line: &[u8], bank: &mut Bank) -> Reply
        ensures answer { result.0 ≡ option_map (answer_of bank.old) (parse_line line.now) }
        ensures after { bank.new ≡ content_then bank.old (parse_line line.now) }
    {
        match Command::parse(line) {
            Some(command) => Reply(Some(command.run(bank))),
            None => Reply(None),
        }
    }
}

impl fmt::Display for Reply {
    ghost output = { λ r. Some (reply_text r.0) };

    fn fmt<W: fmt::Write>(&self, f: &mut fmt::Formatter<W>) -> fmt::Result {
        match self.0 {
            Some(answer) => write!(f, "{answer}"),
            None => write!(f, "?"),
        }
    }
}
