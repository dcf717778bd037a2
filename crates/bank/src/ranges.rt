// Ranges: the first byte, and the byte after the last. A range is a pair of numbers throughout, as a
// rule of this library.
ghost use Rattle.std.specs.Prelude.{◌≡◌, ◌+◌, ◌-◌, ◌*◌, ◌/◌, ◌^◌, ◌<◌, ◌≤◌, IfSome};
ghost use Rattle.bank.specs.Laws.{RangesComeBack};
ghost use Rattle.bank.specs.Ranges.{napot_range, range_at, range_of, range_word as word_of};

use crate::bank::{Bank, Entries};
use crate::entry::COUNT;
use crate::index::Index;
use crate::laws;
use crate::mode::Mode;
use refusals::Refusal;

// The byte after the last that can be named.
pub(crate) const END: u64 = 1 << 34;

impl Bank {
    // The range of an entry, or none where it has no byte or there is no such entry.
    pub fn range(&self, index: u64) -> Option<(u64, u64)>
        ensures answer { result ≡ range_at self.now index }
        ensures within { IfSome result (λ s. (s.0 < s.1) × (s.1 ≤ 2 ^ 34)) }
    {
        if index < COUNT as u64 {
            self.entries.range(Index { n: index as usize })
        } else {
            None
        }
    }
}

impl Entries {
    pub(crate) fn range(&self, i: Index) -> Option<(u64, u64)>
        ensures answer { result ≡ range_of self.now i }
        ensures within { IfSome result (λ s. (s.0 < s.1) × (s.1 ≤ 2 ^ 34)) }
    {
        let word = self.word(i);
        match Mode::from(self.config(i)) {
            Mode::Off => None,
            Mode::Tor => {
                let below = i.below().map_or(0, |below| self.word(below));
                if below < word {
                    Some((4 * below as u64, 4 * word as u64))
                } else {
                    None
                }
            }
            Mode::Na4 => Some((4 * word as u64, 4 * word as u64 + 4)),
            Mode::Napot => Some(napot(word)),
        }
    }
}

// The range of a word in mode NAPOT: as many bytes as its trailing ones say.
fn napot(word: u32) -> (u64, u64)
    ensures answer { result ≡ napot_range word }
    ensures within { (result.0 < result.1) × (result.1 ≤ 2 ^ 34) }
{
    let n = word.trailing_ones();
    let ones = (1u64 << n) - 1;
    let first = 4 * (word as u64 - ones);
    let past = first + (1 << (n + 3));
    (first, past.min(END))
}

// The word whose range in mode NAPOT is the 2^exponent bytes from base on.
pub fn range_word(base: u64, exponent: u64) -> Result<u32, Refusal>
    ensures answer { result ≡ word_of base exponent }
    ensures back { RangesComeBack }
{
    laws::ranges_come_back();
    if exponent < 3 || exponent > 34 {
        return Err(Refusal::Exponent);
    }
    let size = range_size(exponent);
    if base % size != 0 {
        return Err(Refusal::Alignment);
    }
    if base > END - size {
        return Err(Refusal::Span);
    }
    Ok((base / 4 + size / 8 - 1) as u32)
}

// 2^exponent, for the exponent of a range. Not the shift in place: what the three clauses say is
// asked at each of the questions above.
fn range_size(exponent: u64) -> u64
    requires { (3 ≤ exponent) × (exponent ≤ 34) }
    ensures value { result ≡ 2 ^ exponent }
    ensures eighth { result / 8 ≡ 2 ^ (exponent - 3) }
    ensures within { (8 ≤ result) × (result ≤ 2 ^ 34) }
{
    1 << exponent
}
