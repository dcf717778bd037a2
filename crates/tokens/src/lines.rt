// The lines of a text.
ghost use Rattle.std.specs.Prelude.{◌≡◌, ◌<◌, ◌≤◌, [], ◌∷◌, length, IfSome, MatchOption};
ghost use Rattle.std.specs.Iterator.{YieldsFirstRef, item_count};
ghost use Rattle.tokens.specs.Lines.{is_silent, script_lines, without_return as returnless};

use crate::cut::cut;
use std::marker::Model;

// The lines that are left of a text, without their ends.
#[derive(Drop)]
pub struct Lines<'a> {
    rest: &'a [u8],
}

impl<'a> Model for Lines<'a> {
    ghost use Rattle.std.specs.Prelude.{ℕ, List};
    ghost use Rattle.tokens.specs.Lines.{script_lines};

    ghost Value = { List (List ℕ) };

    ghost view = { λ l. script_lines l.rest.now };
}

impl<'a> Iterator for Lines<'a> {
    type Item = &'a [u8];

    ghost next_gives = { YieldsFirstRef (λ ls. ls) };

    ghost remaining = { item_count (λ ls. ls) };

    fn next(&mut self) -> Option<&'a [u8]> {
        let (line, rest) = first_line(self.rest)?;
        self.rest = rest;
        Some(line)
    }
}

impl<'a> Lines<'a> {
    // The lines of a text: no more than it has bytes.
    #[tactic(auto, using(crate::proofs::Cuts::lines_few))]
    pub fn of(text: &'a [u8]) -> Lines<'a>
        ensures lines { result ≡ script_lines text.now }
        ensures few { length result ≤ length text.now }
    {
        Lines { rest: text }
    }
}

// The first line, without its end, and the text after it.
pub(crate) fn first_line(text: &[u8]) -> Option<(&[u8], &[u8])>
    ensures cases { MatchOption result (script_lines text.now ≡ []) (λ p. script_lines text.now ≡ p.0.now ∷ script_lines p.1.now) }
    ensures shorter { IfSome result (λ p. length p.1.now < length text.now) }
{
    if text.is_empty() {
        return None;
    }
    let (line, rest) = cut(text, b'\n');
    Some((without_return(line), rest.unwrap_or(&[])))
}

// The line without one CR at its end.
fn without_return(line: &[u8]) -> &[u8]
    ensures { result.now ≡ returnless line.now }
{
    match line {
        [front @ .., b'\r'] => front,
        _ => line,
    }
}

// Whether a line is blank or a comment.
pub fn silent(line: &[u8]) -> bool
    ensures { result ≡ is_silent line.now }
{
    matches!(line, [] | [b'#', ..])
}
