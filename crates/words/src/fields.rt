// The fields of a line: numbers, each behind its label.
ghost use Rattle.std.specs.Prelude.{◌≡◌, length, map};
ghost use Rattle.words.specs.Fields.{fields_of};

use crate::numbers::number;
use tokens::{Words, is};

// The numbers of the fields with these labels, where the words are these fields and no more. Not the
// calculator's `numbers`, which reads no labels.
// The labels are a slice: the check does not cover an array of references whose length is a parameter.
pub(crate) fn fields<const N: usize>(mut words: Words, labels: &[&str]) -> Option<[u64; N]>
    requires { length labels.now ≡ N }
    ensures { result ≡ fields_of (map (λ x. x.now) labels.now) words.entry }
{
    let mut numbers = [0; N];
    // by index, and not by a zip with `iter_mut`, whose contract does not say what the places end as
    for (i, label) in labels.iter().enumerate() {
        if !is(words.next()?, label) {
            return None;
        }
        numbers[i] = number(words.next()?)?;
    }
    match words.next() {
        None => Some(numbers),
        Some(_) => None,
    }
}
