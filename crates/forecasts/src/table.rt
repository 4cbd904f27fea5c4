ghost use Rattle.std.specs.Prelude.{◌≡◌, ◌/◌, ◌<◌, [], length, Ok, Err, vec_capacity, MatchResult};
ghost use Rattle.std.specs.Option.{option_map};
ghost use Rattle.forecasts.specs.Table.{capped, halves, listed, reading, Blames, FirstPlace, decimal_value, two_values, row_of, rows_from, capped_row};

use crate::{ForecastError, LineFault, Reason};
use orders::{FLAT_SPAN, SLOTS};
use std::alloc::Global;

// No `Entry` of an order: an entry waits, and has a credit.
/// A row of the table: the slot, and the cost that it is placed with.
#[derive(Clone, Copy, Debug, PartialEq)]
pub struct Row {
    pub slot: u32,
    pub cost: u32,
}

const NAMES: &[u8; 10] = b"slot cost\n";

// The greatest value that is told from others: no slot or cost is as great. (No `Option`: what is wrong with a row is told by the tests of the row.)
const CAP: u32 = 100_000;

// The first place at which the byte stands. (`traces` has the like; the one crate below both, `orders`, is no place for it.)
fn find(bytes: &[u8], byte: u8) -> Option<usize>
    ensures { FirstPlace byte bytes.now result }
{
    bytes.iter().position(|b| *b == byte)
}

// A decimal value, or `CAP` in the place of a greater one. (`parse` would also read a sign, and fail on a great value.)
fn decimal(digits: &[u8]) -> Option<u32>
    ensures { result ≡ option_map capped (decimal_value digits.now) }
{
    if digits.is_empty() {
        return None;
    }
    let mut value = 0;
    for byte in digits {
        if !byte.is_ascii_digit() {
            return None;
        }
        value = (10 * value + (*byte - b'0') as u32).min(CAP);
    }
    Some(value)
}

// The two values of a line, each as `decimal` reads it.
fn values(line: &[u8]) -> Option<Row>
    ensures { result ≡ option_map capped_row (two_values (halves line.now)) }
{
    let space = find(line, b' ')?;
    let slot = decimal(&line[..space])?;
    let cost = decimal(&line[space + 1..])?;
    Some(Row { slot, cost })
}

// Whether some row has the slot.
fn is_listed(rows: &[Row], slot: u32) -> bool
    ensures { result ≡ listed slot rows.now }
{
    rows.iter().any(|row| row.slot == slot)
}

// The row of a line, given the rows before it.
fn read_row(rows: &[Row], line: &[u8]) -> Result<Row, Reason>
    ensures { result ≡ row_of rows.now line.now }
{
    let row = values(line).ok_or(Reason::Values)?;
    if row.slot >= SLOTS {
        return Err(Reason::Slot);
    }
    if is_listed(rows, row.slot) {
        return Err(Reason::Twice);
    }
    if row.cost == 0 || row.cost > FLAT_SPAN {
        return Err(Reason::Cost);
    }
    Ok(row)
}

// Adds the rows of the lines of `text`, or answers their first fault. A row takes four bytes at least.
fn read_lines(rows: &mut Vec<Row>, text: &[u8]) -> Result<(), LineFault>
    requires bare { rows.old.items ≡ [] }
    requires room { length text.now / 4 < vec_capacity rows.old }
    ensures { MatchResult result (λ _. rows_from [] [] text.now ≡ Ok rows.new.items) (λ f. rows_from [] [] text.now ≡ Err f) }
{
    let mut rest = text;
    while let Some(end) = find(rest, b'\n') {
        let line = rows.len() + 2;
        match read_row(rows.as_slice(), &rest[..end]) {
            Ok(row) => rows.push_reserved(row),
            Err(reason) => return Err(LineFault { line, reason }),
        }
        rest = &rest[end + 1..];
    }
    if !rest.is_empty() {
        return Err(LineFault {
            line: rows.len() + 2,
            reason: Reason::Unended,
        });
    }
    Ok(())
}

/// The rows of a table, in their order, or the first fault of the text.
pub fn read_rows(heap: Global, text: &[u8]) -> Result<Vec<Row>, ForecastError>
    ensures { MatchResult result (λ v. reading text.now ≡ Ok v.items) (λ e. Blames text.now e) }
{
    if !text.starts_with(NAMES) {
        return Err(ForecastError::Fault(LineFault {
            line: 1,
            reason: Reason::Names,
        }));
    }
    let lines = &text[NAMES.len()..];
    let mut rows = Vec::with_capacity(heap, lines.len() / 4 + 1)?;
    read_lines(&mut rows, lines)?;
    Ok(rows)
}
