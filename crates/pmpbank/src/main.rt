// Reads a script of commands for a bank of protection registers from standard input, and
// prints the answers.
#![tactic(auto)]

use std::env;
use std::io::Read;

const HELP: &str = "Reads a script from standard input and prints an answer to each command.

  read PRIV NUM               what a register holds
  write PRIV NUM WORD         write a register
  check PRIV KIND ADDR SIZE   the verdict on an access
  range INDEX                 the first byte of an entry's range, and the one after its last
  word BASE EXPONENT          the word of a range of 2^EXPONENT bytes from BASE on
  reset                       all entries zero again

PRIV is 0, 1 or 3, and KIND is 0 (fetch), 1 (load) or 2 (store). Numbers are hexadecimal.
A blank line, or one that begins with #, is passed over.
";

fn run(rt: &HostRuntime) -> anyhow::Result<()> {
    if env::args(rt)?.skip(1).count() > 0 {
        rt.print(HELP)?;
        return Ok(());
    }
    let mut script = Vec::new(rt.alloc());
    rt.stdin()
        .take(calculator::LIMIT as u64 + 1)
        .read_to_end(&mut script)?;
    rt.print(calculator::answers(rt.alloc(), script.as_slice())?)?;
    Ok(())
}

fn main(rt: HostRuntime) -> anyhow::Result<()> {
    run(&rt)
}
