// From a tape to its text.
ghost use Rattle.std.specs.Prelude.{◌≡◌, ◌^◌, ◌<◌, [], ◌∷◌, ◌++◌, length, IfOk, Err, string_bytes, OnOk};
ghost use Rattle.tape.specs.Reader.{read_tape};
ghost use Rattle.words.specs.Laws.{TapesReadBack};
ghost use Rattle.words.specs.Line.{item_text};
ghost use Rattle.words.specs.Tapes.{Tells, items_text, tape_text, text_or};
ghost use Rattle.words.specs.declared.fault.Fault.TheVariants.{LongTape};

use crate::fault::Fault;
use crate::laws;
use crate::line::Line;
use std::alloc::{AllocError, Global};
use tape::{Item, LIMIT, RECORD};

// The longest tape, in bytes.
pub const TAPE_LIMIT: usize = LIMIT;

// Its items.
const ITEMS: usize = TAPE_LIMIT / RECORD;

// The text of a tape: a line for each item.
pub fn text_of(heap: Global, tape: &[u8]) -> Result<String, Fault>
    ensures answer { Tells string_bytes result (tape_text tape.now) }
    ensures long { 2 ^ 16 < length tape.now → result ≡ Err LongTape }
    ensures back { TapesReadBack }
{
    laws::tapes_read_back();
    if tape.len() > TAPE_LIMIT {
        return Err(Fault::LongTape);
    }
    let mut items = vec![in heap; Item::default(); ITEMS]?;
    let count = tape::read(tape, items.as_mut_slice())?;
    items.truncate(count);
    Ok(lines(heap, items.as_slice())?)
}

// A line for each item.
fn lines(heap: Global, items: &[Item]) -> Result<String, AllocError>
    ensures { IfOk result (λ t. string_bytes t ≡ items_text items.now) }
{
    let mut text = String::new(heap);
    for item in items {
        push_line(&mut text, *item)?;
    }
    Ok(text)
}

// Adds the line of an item.
fn push_line(text: &mut String, item: Item) -> Result<(), AllocError>
    ensures { OnOk result (string_bytes text.new ≡ string_bytes text.old ++ (item_text item ++ (10 ∷ []))) }
{
    let line = Line(item);
    write!(text, "{line}\n").map_err(|_| AllocError)
}
