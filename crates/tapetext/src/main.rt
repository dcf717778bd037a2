// Turns a tape into text, and such text into a tape.
#![tactic(auto)]

ghost use Rattle.std.specs.Prelude.{◌≡◌};
ghost use Rattle.tapetext.specs.declared.Failure.TheVariants.{Broken, Refused};

use std::io::{Read, Write};
use std::process::ExitCode;
use std::{env, io};
use words::{Fault, TAPE_LIMIT, TEXT_LIMIT};

const HELP: &str = "tapetext text < tape > text   turns a tape into text
tapetext tape < text > tape   turns such text into a tape

One line is one item:

  create slot 2 base 0x4000 exponent 12
  enter slot 2
  pause
  finish value 0x2a
  destroy slot 2
  load size 4 at 0x3ffc
  store size 8 at 0x4000 value 0x1122334455667788
  fetch size 4 at 0x1000
  register number 0x3a0 value 0x0

Words are parted by one space. A number is decimal, or hexadecimal after 0x.
A size is 1, 2, 4 or 8. A blank line, or one that begins with #, is passed over.
";

// What the first word on the command line asks for.
enum Way {
    Text,
    Tape,
    Help,
}

fn asked(rt: &HostRuntime) -> io::Result<Way> {
    let Some(word) = env::args(rt)?.nth(1) else {
        return Ok(Way::Help);
    };
    Ok(match word.as_str() {
        "text" => Way::Text,
        "tape" => Way::Tape,
        _ => Way::Help,
    })
}

// The input, up to one byte more than the limit.
fn input(rt: &HostRuntime, limit: usize) -> io::Result<Vec<u8>> {
    let mut bytes = Vec::new(rt.alloc());
    rt.stdin()
        .take((limit as u64).saturating_add(1))
        .read_to_end(&mut bytes)?;
    Ok(bytes)
}

// Why nothing comes of it.
#[derive(Drop)]
enum Failure {
    // the input is refused
    Refused(Fault),
    // it cannot be read, or the output not written
    Broken(io::Error),
}

impl From<Fault> for Failure {
    ghost from_gives = { λ fault r. r ≡ Refused fault };

    fn from(fault: Fault) -> Failure {
        Failure::Refused(fault)
    }
}

impl From<io::Error> for Failure {
    ghost from_gives = { λ error r. r ≡ Broken error };

    fn from(error: io::Error) -> Failure {
        Failure::Broken(error)
    }
}

// Does what is asked for.
fn run(rt: &HostRuntime) -> Result<(), Failure> {
    match asked(rt)? {
        Way::Text => {
            let tape = input(rt, TAPE_LIMIT)?;
            rt.print(words::text_of(rt.alloc(), tape.as_slice())?)?;
        }
        Way::Tape => {
            let text = input(rt, TEXT_LIMIT)?;
            let tape = words::tape_of(rt.alloc(), text.as_slice())?;
            rt.stdout().write_all(tape.as_slice())?;
        }
        Way::Help => rt.print(HELP)?,
    }
    Ok(())
}

fn main(rt: HostRuntime) -> anyhow::Result<ExitCode> {
    match run(&rt) {
        Ok(()) => Ok(ExitCode::SUCCESS),
        Err(Failure::Refused(fault)) => {
            eprintln!(rt; "tapetext: {fault}")?;
            Ok(ExitCode::FAILURE)
        }
        Err(Failure::Broken(error)) => Err(error.into()),
    }
}
