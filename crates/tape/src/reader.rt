// The reader: from the bytes of a tape to items.
ghost use Rattle.std.specs.Prelude.{◌≡◌, ◌*◌, ◌≤◌, true, length, take, is_ok, IfOk, IfSome, Ok};
ghost use Rattle.tape.specs.Laws.{OneTape};
ghost use Rattle.tape.specs.Reader.{decoding, read_tape, whole_records};
ghost use Rattle.tape.specs.Refusal.{measured, placed, verdict};

use crate::item::Item;
use crate::laws;
use crate::record::{RECORD, decode};
use crate::refusal::TapeRefusal;
use refusals::Refusal;

// Reads a tape into places that are handed to it, since it takes no memory, and answers how many
// items it has. Places past the last keep what
// they held, and a refusal changes nothing.
pub fn read(tape: &[u8], items: &mut [Item]) -> Result<usize, TapeRefusal>
    ensures answer { result ≡ measured (read_tape tape.now (length items.old)) }
    ensures after { items.new ≡ placed (read_tape tape.now (length items.old)) items.old }
    ensures bound { IfOk result (λ n. n ≤ length items.old) }
    ensures got { IfOk result (λ n. read_tape tape.now (length items.old) ≡ Ok (take n items.new)) }
    ensures one { OneTape }
{
    laws::one_tape();
    let Some(count) = whole(tape) else {
        return Err(TapeRefusal {
            refusal: Refusal::PartialRecord,
            index: tape.len() / RECORD,
        });
    };
    if count > items.len() {
        return Err(TapeRefusal {
            refusal: Refusal::NoPlace,
            index: items.len(),
        });
    }
    let (records, _) = tape.as_chunks::<RECORD>();
    check_records(records)?;
    put_items(records, items);
    Ok(count)
}

// How many records a tape has, where it is whole records.
fn whole(tape: &[u8]) -> Option<usize>
    ensures value { result ≡ whole_records (length tape.now) }
    ensures whole { IfSome result (λ n. length tape.now ≡ 16 * n) }
{
    if tape.len() % RECORD == 0 {
        Some(tape.len() / RECORD)
    } else {
        None
    }
}

// Whether records are all items.
fn check_records(records: &[[u8; RECORD]]) -> Result<(), TapeRefusal>
    ensures { result ≡ verdict (decoding 0 records.now) }
{
    for (index, record) in records.iter().enumerate() {
        decode(record).map_err(|refusal| TapeRefusal { refusal, index })?;
    }
    Ok(())
}

// Puts the items of records into places. By index and not by a zip with `iter_mut`, whose contract
// does not say what the places end as.
fn put_items(records: &[[u8; RECORD]], items: &mut [Item])
    requires places { length records.now ≤ length items.old }
    requires accepted { is_ok (decoding 0 records.now) ≡ true }
    ensures { items.new ≡ placed (decoding 0 records.now) items.old }
{
    for (i, record) in records.iter().enumerate() {
        if let Ok(item) = decode(record) {
            items[i] = item;
        }
    }
}
