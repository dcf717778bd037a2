// A report: the whole text that is printed of a tape's run.
ghost use Rattle.std.specs.Prelude.{◌≡◌, ◌≤◌, length, take, IfOk, Ok, Err, string_bytes, MatchResult};
ghost use Rattle.monitor.specs.Content.{banked};
ghost use Rattle.monitor.specs.Theorem.{calls, log as logged, ran};
ghost use Rattle.tape.specs.Calls.{calls_of};
ghost use Rattle.tape.specs.Laws.{ReportLaws, SameText};
ghost use Rattle.tape.specs.Reports.{Left, lines_from, most, refusal_text, report_after, report_text, run_after, run_text, short_tape};

use crate::item::Item;
use crate::laws;
use crate::line::line;
use crate::reader::read;
use crate::record::RECORD;
use crate::refusal::TapeRefusal;
use machine::Machine;
use memory::Memory;
use monitor::{Answer, Call};
use refusals::Refusal;
use std::alloc::{AllocError, Global};

// The longest tape, in bytes, and the most items that a tape has.
pub const LIMIT: usize = 65_536;

const MOST: usize = LIMIT / RECORD;

// Runs a tape on a machine, and answers the text of the run: a line for each record, or one for
// a tape that is refused, which leaves the machine as it was.
pub fn report<M: Memory>(
    heap: Global,
    machine: &mut Machine<M>,
    tape: &[u8],
) -> Result<String, AllocError>
    ensures text { IfOk result (λ t. string_bytes t ≡ report_text machine.old.content tape.now) }
    ensures after { Left result machine.old.content (report_after machine.old.content tape.now) machine.new.content }
    ensures beyond { machine.new.beyond ≡ machine.old.beyond }
    ensures laws { ReportLaws }
    ensures same { SameText }
{
    laws::report_laws();
    laws::same_text();
    let mut items = vec![in heap; Item::default(); MOST]?;
    match read_short(tape, items.as_mut_slice()) {
        Ok(count) => {
            items.truncate(count);
            run(heap, machine, items.as_slice())
        }
        Err(refusal) => refused(heap, refusal),
    }
}

// Reads a tape that is not too long.
fn read_short(tape: &[u8], places: &mut [Item]) -> Result<usize, TapeRefusal>
    requires { length places.old ≡ most }
    ensures { MatchResult result (λ n. (n ≤ most) × (short_tape tape.now ≡ Ok (take n places.new))) (λ e. short_tape tape.now ≡ Err e) }
{
    if tape.len() > LIMIT {
        return Err(TapeRefusal {
            refusal: Refusal::NoPlace,
            index: MOST,
        });
    }
    read(tape, places)
}

// Runs items, and answers their lines.
fn run<M: Memory>(
    heap: Global,
    machine: &mut Machine<M>,
    items: &[Item],
) -> Result<String, AllocError>
    ensures text { IfOk result (λ t. string_bytes t ≡ run_text machine.old.content (Ok items.now)) }
    ensures after { Left result machine.old.content (run_after machine.old.content (Ok items.now)) machine.new.content }
    ensures beyond { machine.new.beyond ≡ machine.old.beyond }
{
    let mut log = log_of(heap, items)?;
    run_log(heap, machine, log.as_mut_slice())
}

// Runs a log, and answers its lines.
fn run_log<M: Memory>(
    heap: Global,
    machine: &mut Machine<M>,
    log: &mut [(Call, Answer)],
) -> Result<String, AllocError>
    ensures text { IfOk result (λ t. string_bytes t ≡ lines_from 0 (logged banked machine.old.content (calls log.old))) }
    ensures after { machine.new.content ≡ ran banked machine.old.content (calls log.old) }
    ensures beyond { machine.new.beyond ≡ machine.old.beyond }
{
    machine.run(log);
    lines(heap, log)
}

// The calls of items, none of them answered yet.
fn log_of(heap: Global, items: &[Item]) -> Result<Vec<(Call, Answer)>, AllocError>
    ensures { IfOk result (λ v. calls v.items ≡ calls_of items.now) }
{
    let mut log = Vec::new(heap);
    for item in items {
        if let Ok(call) = Call::try_from(*item) {
            log.push((call, Ok(0)))?;
        }
    }
    Ok(log)
}

// A line for each answer of a log.
fn lines(heap: Global, log: &[(Call, Answer)]) -> Result<String, AllocError>
    ensures { IfOk result (λ t. string_bytes t ≡ lines_from 0 log.now) }
{
    let mut text = String::new(heap);
    for (i, (_, answer)) in log.iter().enumerate() {
        let one = line(heap, i, *answer)?;
        text.push_str(one.as_str())?;
    }
    Ok(text)
}

// The line of a tape that is refused.
fn refused(heap: Global, refusal: TapeRefusal) -> Result<String, AllocError>
    ensures { IfOk result (λ t. string_bytes t ≡ refusal_text refusal) }
{
    let TapeRefusal { refusal, index } = refusal;
    format!(in heap; "tape {refusal} {index}\n")
}
