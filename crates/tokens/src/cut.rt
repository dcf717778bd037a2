// A text cut at its bytes of one kind: a text into lines, a line into words.
ghost use Rattle.std.specs.Prelude.{◌≡◌, ◌<◌, ◌==◌, length, IfSome};
ghost use Rattle.std.specs.List.{position};
ghost use Rattle.std.specs.Option.{option_map};
ghost use Rattle.tokens.specs.Cut.{after, before};

// The text up to the first such byte, and what follows that byte if there is one.
pub(crate) fn cut(text: &[u8], byte: u8) -> (&[u8], Option<&[u8]>)
    ensures front { result.0.now ≡ before byte text.now }
    ensures rest { option_map (λ x. x.now) result.1 ≡ after byte text.now }
    ensures shorter { IfSome result.1 (λ x. length x.now < length text.now) }
{
    match place(text, byte) {
        Some(i) => (&text[..i], Some(&text[i + 1..])),
        None => (text, None),
    }
}

// Where the first such byte is.
fn place(text: &[u8], byte: u8) -> Option<usize>
    ensures { result ≡ position (λ x. x == byte) text.now }
{
    text.iter().position(|b| *b == byte)
}
