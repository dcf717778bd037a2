// From a text to its tape.
ghost use Rattle.std.specs.Prelude.{◌≡◌, ◌^◌, ◌<◌, ◌≤◌, length, Err, vec_items};
ghost use Rattle.tokens.specs.Lines.{script_lines};
ghost use Rattle.words.specs.Laws.{ItemsReadBack, LinesRefused};
ghost use Rattle.words.specs.Parse.{parse_line};
ghost use Rattle.words.specs.Tapes.{Tells, front, item_record, line_record, lines_records, text_tape};
ghost use Rattle.words.specs.declared.fault.Fault.TheVariants.{LongText};

use crate::fault::Fault;
use crate::laws;
use crate::parse::parse;
use crate::texts::TAPE_LIMIT;
use std::alloc::Global;
use tape::RECORD;
use tokens::{Lines, silent};

// The longest text, in bytes.
pub const TEXT_LIMIT: usize = 1_048_576;

// The tape of a text: a record for each line that is neither blank nor a comment.
pub fn tape_of(heap: Global, text: &[u8]) -> Result<Vec<u8>, Fault>
    ensures answer { Tells vec_items result (text_tape text.now) }
    ensures long { 2 ^ 20 < length text.now → result ≡ Err LongText }
    ensures back { ItemsReadBack }
    ensures refused { LinesRefused }
{
    laws::items_read_back();
    laws::lines_refused();
    if text.len() > TEXT_LIMIT {
        return Err(Fault::LongText);
    }
    let tape = records(heap, text)?;
    if tape.len() > TAPE_LIMIT {
        return Err(Fault::LongTape);
    }
    Ok(tape)
}

// The records of the lines of a text that is not too long.
fn records(heap: Global, text: &[u8]) -> Result<Vec<u8>, Fault>
    requires { length text.now ≤ 2 ^ 20 }
    ensures { Tells vec_items result (lines_records 1 (script_lines text.now)) }
{
    let mut tape = Vec::new(heap);
    for (index, line) in Lines::of(text).enumerate() {
        push_record(&mut tape, index + 1, line)?;
    }
    Ok(tape)
}

// Adds the record of a line, unless the line is blank or a comment.
fn push_record(tape: &mut Vec<u8>, number: usize, line: &[u8]) -> Result<(), Fault>
    ensures { Tells (λ _. tape.new.items) result (front tape.old.items (line_record number line.now)) }
{
    if silent(line) {
        return Ok(());
    }
    let record = record_of(number, line)?;
    tape.extend_from_slice(&record)?;
    Ok(())
}

// The record of a line's item.
fn record_of(number: usize, line: &[u8]) -> Result<[u8; RECORD], Fault>
    ensures { result ≡ item_record number (parse_line line.now) }
{
    let item = parse(line).ok_or(Fault::Line(number))?;
    let mut record = [0; RECORD];
    tape::write(&[item], &mut record).map_err(|refused| Fault::Item(number, refused.refusal))?;
    Ok(record)
}
