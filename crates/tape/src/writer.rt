// The writer: from items to the bytes of a tape.
ghost use Rattle.std.specs.Prelude.{◌≡◌, ◌*◌, ◌≤◌, true, length, is_ok};
ghost use Rattle.tape.specs.Laws.{ReadsBack};
ghost use Rattle.tape.specs.Refusal.{counted, placed, verdict};
ghost use Rattle.tape.specs.Writer.{write_tape, writing};

use crate::item::Item;
use crate::laws;
use crate::record::{RECORD, encode};
use crate::refusal::TapeRefusal;
use refusals::Refusal;

// Writes items onto a tape that is handed to it, since it takes no memory, and answers how many there
// are. Bytes past the last record keep what
// they held, and a refusal changes nothing.
pub fn write(items: &[Item], tape: &mut [u8]) -> Result<usize, TapeRefusal>
    ensures answer { result ≡ counted (length items.now) (write_tape items.now (length tape.old)) }
    ensures after { tape.new ≡ placed (write_tape items.now (length tape.old)) tape.old }
    ensures back { ReadsBack }
{
    laws::reads_back();
    let fit = tape.len() / RECORD;
    if items.len() > fit {
        return Err(TapeRefusal {
            refusal: Refusal::NoPlace,
            index: fit,
        });
    }
    check_items(items)?;
    put_records(items, tape);
    Ok(items.len())
}

// Whether items are all records. Not one loop with the reader's `check_records`: a trait over
// `encode` and `decode` is longer than both.
fn check_items(items: &[Item]) -> Result<(), TapeRefusal>
    ensures { result ≡ verdict (writing 0 items.now) }
{
    for (index, item) in items.iter().enumerate() {
        encode(*item).map_err(|refusal| TapeRefusal { refusal, index })?;
    }
    Ok(())
}

// Puts the records of items onto a tape. By ranges and not by `as_chunks_mut` or `chunks_exact_mut`:
// their contracts do not say what the tape ends as.
fn put_records(items: &[Item], tape: &mut [u8])
    requires places { 16 * length items.now ≤ length tape.old }
    requires accepted { is_ok (writing 0 items.now) ≡ true }
    ensures { tape.new ≡ placed (writing 0 items.now) tape.old }
{
    for (i, item) in items.iter().enumerate() {
        if let Ok(record) = encode(*item) {
            tape[RECORD * i..RECORD * i + RECORD].copy_from_slice(&record);
        }
    }
}
