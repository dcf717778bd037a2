// Numbers as a text writes them: decimal digits, or hexadecimal ones after 0x.
ghost use Rattle.std.specs.Prelude.{◌≡◌};
ghost use Rattle.words.specs.Numbers.{digits_value, next_value, number_value, read_value};

use tokens::digit;

// The number that a word writes.
pub(crate) fn number(word: &[u8]) -> Option<u64>
    ensures { result ≡ number_value word.now }
{
    match word {
        [b'0', b'x', digits @ ..] => read(16, digits),
        _ => read(10, word),
    }
}

// The number that one or more digits write.
fn read(base: u64, digits: &[u8]) -> Option<u64>
    ensures { result ≡ read_value base digits.now }
{
    if digits.is_empty() {
        return None;
    }
    let mut n = 0;
    for byte in digits {
        n = next(base, n, *byte)?;
    }
    Some(n)
}

// The number with one digit more, where that has 64 bits.
fn next(base: u64, n: u64, byte: u8) -> Option<u64>
    ensures { result ≡ next_value base n byte }
{
    let digit = digit(byte)?;
    if digit >= base {
        return None;
    }
    n.checked_mul(base)?.checked_add(digit)
}
