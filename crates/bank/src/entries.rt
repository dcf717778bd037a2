// The entries one by one: what is stored, and which locks hold it.
ghost use Rattle.std.specs.Prelude.{◌≡◌, ◌*◌, true};
ghost use Rattle.bank.specs.Clean.{is_clean};
ghost use Rattle.bank.specs.Content.{blank, bounds_locked_above as bounds_locked, entry_of, four_bytes, is_locked, is_tor, put_byte, stored_byte, with_word};

use crate::bank::Entries;
use crate::entry::{COUNT, Entry};
use crate::index::{Index, Row};
use crate::mode::Mode;

impl Entries {
    pub(crate) fn new() -> Self
        ensures { result ≡ blank }
    {
        Entries {
            list: [Entry { config: 0, word: 0 }; COUNT],
        }
    }

    pub(crate) fn config(&self, i: Index) -> u8
        ensures { result ≡ (entry_of self.now i).config }
    {
        self.list[i.n].config
    }

    pub(crate) fn word(&self, i: Index) -> u32
        ensures { result ≡ (entry_of self.now i).word }
    {
        self.list[i.n].word
    }

    // Whether entry i keeps its byte and its word.
    pub(crate) fn locked(&self, i: Index) -> bool
        ensures { result ≡ is_locked (entry_of self.now i).config }
    {
        locked(self.config(i))
    }

    // Whether word i is the bottom of a locked range: entry i + 1 is locked in mode TOR.
    pub(crate) fn bounds_locked_above(&self, i: Index) -> bool
        ensures { result ≡ bounds_locked self.now i }
    {
        i.above()
            .is_some_and(|above| self.locked(above) && tor(self.config(above)))
    }

    // Writes a byte unless the entry is locked.
    pub(crate) fn put_config(&mut self, i: Index, byte: u8)
        ensures { self.new ≡ put_byte self.old i byte }
    {
        let e = &mut self.list[i.n];
        if !locked(e.config) {
            e.config = stored(byte);
        }
    }

    pub(crate) fn put_word(&mut self, i: Index, word: u32)
        ensures { self.new ≡ with_word self.old i word }
    {
        let e = &mut self.list[i.n];
        e.word = word;
    }

    // The four bytes of a register, as one word.
    pub(crate) fn four(&self, row: Row) -> u32
        ensures { result ≡ four_bytes self.now (4 * row) }
    {
        u32::from_le_bytes(row.entries().map(|i| self.config(i)))
    }
}

pub(crate) fn locked(byte: u8) -> bool
    ensures { result ≡ is_locked byte }
{
    byte & 0x80 != 0
}

fn tor(byte: u8) -> bool
    ensures { result ≡ is_tor byte }
{
    Mode::from(byte) == Mode::Tor
}

// A written byte as it is kept: without bits 6 and 5, and without W where R is clear.
fn stored(byte: u8) -> u8
    ensures value { result ≡ stored_byte byte }
    ensures clean { is_clean result ≡ true }
{
    let kept = byte & 0x9F;
    if kept & 1 == 0 { kept & 0xFD } else { kept }
}
