// Numbers as a script writes them: hexadecimal digits, after 0x or not.
ghost use Rattle.std.specs.Prelude.{◌≡◌, ◌≤◌, length};
ghost use Rattle.calculator.specs.Laws.{NumbersReadBack};
ghost use Rattle.calculator.specs.Numbers.{bare, digits_value, number_value};

use crate::laws;
use tokens::digit;

// The most digits that a number has.
const DIGITS: usize = 16;

// The number that a word writes.
pub fn number(word: &[u8]) -> Option<u64>
    ensures answer { result ≡ number_value word.now }
    ensures back { NumbersReadBack }
{
    laws::numbers_read_back();
    let digits = unprefixed(word);
    if digits.is_empty() || digits.len() > DIGITS {
        return None;
    }
    read(digits)
}

// The word without the 0x in front.
fn unprefixed(word: &[u8]) -> &[u8]
    ensures { result.now ≡ bare word.now }
{
    match word {
        [b'0', b'x', digits @ ..] => digits,
        _ => word,
    }
}

// The number that digits write. Not the reading of `words`, which takes any base and checks each
// step: sixteen digits are a number of 64 bits.
fn read(digits: &[u8]) -> Option<u64>
    requires { length digits.now ≤ 16 }
    ensures { result ≡ digits_value 0 digits.now }
{
    let mut n = 0;
    for byte in digits {
        n = 16 * n + digit(*byte)?;
    }
    Some(n)
}
