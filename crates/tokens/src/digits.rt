// The digits of numbers.
ghost use Rattle.std.specs.Prelude.{◌≡◌, ◌<◌, IfSome};
ghost use Rattle.tokens.specs.Digits.{digit_value};

// The value of a hexadecimal digit, in upper or lower case.
pub fn digit(byte: u8) -> Option<u64>
    ensures value { result ≡ digit_value byte }
    ensures below { IfSome result (λ d. d < 16) }
{
    match byte {
        b'0'..=b'9' => Some((byte - b'0') as u64),
        b'a'..=b'f' => Some((byte - b'a' + 10) as u64),
        b'A'..=b'F' => Some((byte - b'A' + 10) as u64),
        _ => None,
    }
}
