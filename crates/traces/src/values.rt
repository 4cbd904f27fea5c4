//! The values of a trace: decimal and hexadecimal numbers, each column with its own length and range.
ghost use Rattle.std.specs.Prelude.{◌≡◌, ◌≤◌, length, MatchOption};
ghost use Rattle.std.specs.Char.{digit_value};
ghost use Rattle.std.specs.List.{AllByRecursion};
ghost use Rattle.traces.specs.Forms.{Digit, Fits, Writes, IsValue, worth, reading};

use crate::limits::{MOST_COST, MOST_SLOTS};

/// A column of a trace's tables.
#[derive(Clone, Copy)]
pub(crate) enum Column {
    Slots,
    Key,
    Cost,
}

/// The hexadecimal digit that a byte writes: 0 to 9, or A to F. (`char::to_digit` would also read small letters.)
fn digit(b: u8) -> Option<u32>
    ensures is { result ≡ worth b }
    ensures told { MatchOption result (Digit 16 b → ⊥) (λ d. Digit 16 b × (d ≡ digit_value b)) }
{
    match b {
        b'0'..=b'9' => Some(u32::from(b - b'0')),
        b'A'..=b'F' => Some(u32::from(b - b'A' + 10)),
        _ => None,
    }
}

/// The number that a text of digits writes. `from_str_radix` would also read a sign and small letters.
fn numeral(text: &[u8], radix: u32) -> Option<u32>
    requires base { radix ≤ 16 }
    requires short { length text.now ≤ 8 }
    ensures { MatchOption result (AllByRecursion (Digit radix) text.now → ⊥) (λ n. Writes radix text.now n) }
{
    let mut n = 0;
    for b in text {
        let d = digit(*b)?;
        if d >= radix {
            return None;
        }
        n = n * radix + d;
    }
    Some(n)
}

/// The value of a column that a text is, if it is in form and range.
pub(crate) fn value_in(column: Column, text: &[u8]) -> Option<u32>
    ensures is { result ≡ reading column text.now }
    ensures told { MatchOption result (Fits column text.now → ⊥) (λ n. IsValue column text.now n) }
{
    let (radix, most, low, high) = match column {
        Column::Slots => (10, 4, 0, MOST_SLOTS as u32),
        Column::Key => (16, 8, 0, u32::MAX),
        Column::Cost => (10, 5, 1, MOST_COST),
    };
    if text.is_empty() || text.len() > most {
        return None;
    }
    let n = numeral(text, radix)?;
    if n < low || n > high { None } else { Some(n) }
}
