//! The lines of a text. Each ends in LF and has at most 80 bytes before it.
ghost use Rattle.std.specs.Prelude.{◌≡◌, ◌+◌, ◌<◌, ◌≤◌, length, nat_eq, MatchOption, MatchResult};
ghost use Rattle.traces.specs.Cut.{upto, cut, Splits, Begins};

use crate::faults::LinesFault;

/// The most bytes that a line has before its LF.
const LINE_BYTES: usize = 80;

/// A line without its LF, and its number, counted from 1.
#[derive(Clone, Copy)]
pub(crate) struct Line<'a> {
    pub number: usize,
    pub text: &'a [u8],
}

/// The lines of a text that are still to be read, and the number of the first of them.
#[derive(Drop)]
pub(crate) struct Lines<'a> {
    pub rest: &'a [u8],
    pub number: usize,
    ghost countable: { number + length rest.now < 18446744073709551616 },
}

impl<'a> Lines<'a> {
    /// All lines of a text.
    pub(crate) fn new(text: &'a [u8]) -> Lines<'a>
        ensures first { result.number ≡ 1 }
        ensures all { result.rest.now ≡ text.now }
    {
        Lines {
            rest: text,
            number: 1,
        }
    }

    /// Whether no line is left.
    pub(crate) fn is_empty(&self) -> bool
        ensures { result ≡ nat_eq (length self.now.rest.now) 0 }
    {
        self.rest.is_empty()
    }

    /// Takes the next line. After a fault no line is left.
    pub(crate) fn next_line(&mut self) -> Result<Line<'a>, LinesFault>
        ensures number { MatchResult result (λ l. l.number ≡ self.old.number) (λ e. e.line ≡ self.old.number) }
        ensures splits { MatchResult result (λ l. Splits self.old.rest.now l.text.now self.new.rest.now) (λ _. Begins (cut self.old.rest.now) → ⊥) }
        ensures left { MatchResult result (λ _. self.new.number ≡ self.old.number + 1) (λ _. length self.new.rest.now ≡ 0) }
        ensures onward { self.old.number ≤ self.new.number }
    {
        let number = self.number;
        let Some((text, rest)) = first_line(self.rest) else {
            self.rest = &[];
            return Err(LinesFault { line: number });
        };
        self.rest = rest;
        self.number += 1;
        Ok(Line { number, text })
    }
}

/// The place of the first `b`.
pub(crate) fn position(bytes: &[u8], b: u8) -> Option<usize>
    ensures { MatchOption result (upto b bytes.now ≡ length bytes.now) (λ i. (i ≡ upto b bytes.now) × (i < length bytes.now)) }
{
    bytes.iter().position(|x| *x == b)
}

/// The first line of a text, without its LF, and what follows it.
fn first_line(text: &[u8]) -> Option<(&[u8], &[u8])>
    ensures { MatchOption result (Begins (cut text.now) → ⊥) (λ p. Splits text.now p.0.now p.1.now) }
{
    let end = position(text, b'\n')?;
    if end > LINE_BYTES {
        return None;
    }
    Some((&text[..end], &text[end + 1..]))
}
