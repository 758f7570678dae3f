ghost use Rattle.std.specs.Prelude.{◌≡◌, ◌≤◌, [], length, MatchOption};
ghost use Rattle.std.specs.Iterator.{YieldsFirstRef, item_count};
ghost use Rattle.script.specs.Lines.{Cut, LinesRight, left, lines};

use crate::bytes::split_once;

// The first line of a text, without its newline, and what follows it; none where the text is empty.
pub fn split_line(text: &[u8]) -> Option<(&[u8], &[u8])>
    ensures cut { MatchOption result (text.now ≡ []) (λ p. Cut text.now p.0.now p.1.now) }
    ensures right { LinesRight }
{
    if text.is_empty() {
        return None;
    }
    let unended = text.split_at(text.len());
    split_once(text, b'\n').or(Some(unended))
}

// The lines of a text, one after another, without their newlines.
#[derive(Drop)]
pub struct Lines<'a> {
    rest: &'a [u8],
}

impl<'a> Lines<'a> {
    pub fn new(text: &'a [u8]) -> Self
        ensures rest { left result ≡ lines text.now }
        ensures few { length (left result) ≤ length text.now }
    {
        Lines { rest: text }
    }
}

impl<'a> Iterator for Lines<'a> {
    type Item = &'a [u8];

    ghost next_gives = { YieldsFirstRef left };

    ghost remaining = { item_count left };

    fn next(&mut self) -> Option<&'a [u8]> {
        let (line, rest) = split_line(self.rest)?;
        self.rest = rest;
        Some(line)
    }
}
