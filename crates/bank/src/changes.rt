// What changes a bank. Whatever may move a range also puts the kept range in place.
ghost use Rattle.std.specs.Prelude.{◌≡◌, ◌*◌};
ghost use Rattle.bank.specs.Content.{blank, put_byte, put_four, with_word};

use crate::bank::{Bank, Entries};
use crate::entry::COUNT;
use crate::extent::{Extent, NONE};
use crate::index::{Index, Row};

impl Bank {
    // All entries zero, so that none has a range.
    pub(crate) fn zero() -> Self
        ensures { result ≡ blank }
    {
        Bank {
            entries: Entries::new(),
            ranges: [NONE; COUNT],
        }
    }

    // Writes a byte unless the entry is locked. No other entry's range depends on it.
    #[tactic(auto, using(crate::proofs::Keeping::byte_kept))]
    fn put_config(&mut self, i: Index, byte: u8)
        ensures { self.new ≡ put_byte self.old i byte }
    {
        self.entries.put_config(i, byte);
        self.ranges[i.n] = Extent::of(self.entries.range(i));
    }

    // Writes the four bytes of a word, the lowest to the first entry, one entry at a time.
    #[tactic(auto, unfolding(crate::specs::Content::put_four))]
    pub(crate) fn put_four(&mut self, row: Row, word: u32)
        ensures { self.new ≡ put_four self.old (4 * row) word }
    {
        let [i, j, k, l] = row.entries();
        let [a, b, c, d] = word.to_le_bytes();
        self.put_config(i, a);
        self.put_config(j, b);
        self.put_config(k, c);
        self.put_config(l, d);
    }

    // Writes a word. The range of the entry above may begin at it.
    #[tactic(auto, using(crate::proofs::Keeping::word_kept, crate::proofs::Keeping::last_word_kept))]
    pub(crate) fn put_word(&mut self, i: Index, word: u32)
        ensures { self.new ≡ with_word self.old i word }
    {
        self.entries.put_word(i, word);
        self.ranges[i.n] = Extent::of(self.entries.range(i));
        if let Some(above) = i.above() {
            self.ranges[above.n] = Extent::of(self.entries.range(above));
        }
    }
}
