//! The tables of a trace: lines of names, and the values of a line.
ghost use Rattle.std.specs.Prelude.{◌≡◌, true, MatchOption, MatchResult, ◌≢◌};
ghost use Rattle.traces.specs.Faults.{shape_fault, of_table};
ghost use Rattle.traces.specs.Layout.{first_of, second_of, row_by, One, Two, Parts, names_of};

use crate::faults::TableFault;
use crate::lines::{Line, position};
use crate::rows::Row;
use crate::values::Column;
use keys::RegionNumber;

/// The name of the first table's one column.
pub(crate) const TITLE: &[u8] = b"slots";

/// Which names the rows' table gives to its columns.
#[derive(Clone, Copy)]
pub(crate) enum ColumnOrder {
    KeyCost,
    CostKey,
}

impl ColumnOrder {
    /// The columns of a row, in their order.
    pub(crate) fn columns(self) -> (Column, Column)
        ensures { result ≡ (first_of self, second_of self) }
    {
        match self {
            ColumnOrder::KeyCost => (Column::Key, Column::Cost),
            ColumnOrder::CostKey => (Column::Cost, Column::Key),
        }
    }

    pub(crate) fn row(self, first: u32, second: u32) -> Row
        ensures { result ≡ row_by self first second }
    {
        let (number, cost) = match self {
            ColumnOrder::KeyCost => (first, second),
            ColumnOrder::CostKey => (second, first),
        };
        Row {
            key: RegionNumber { number },
            cost,
        }
    }
}

/// Whether a text is one value.
pub(crate) fn is_one(text: &[u8]) -> bool
    ensures yes { result ≡ true → One text.now }
    ensures no { One text.now → result ≡ true }
{
    !text.is_empty() && position(text, b' ').is_none()
}

/// The two values of a row.
pub(crate) fn two(line: Line<'_>) -> Result<(&[u8], &[u8]), TableFault>
    ensures { MatchResult result
        (λ p. Parts line.entry.text.now p.0.now p.1.now)
        (λ e. (Two line.entry.text.now → ⊥) × (of_table e ≡ shape_fault line.entry.number)) }
{
    let Line { number, text } = line;
    let Some(space) = position(text, b' ') else {
        return Err(TableFault::Shape { line: number });
    };
    let first = &text[..space];
    let second = &text[space + 1..];
    if !is_one(first) || !is_one(second) {
        return Err(TableFault::Shape { line: number });
    }
    Ok((first, second))
}

/// The order of the names of the rows' table, if a line has them.
pub(crate) fn order_in(names: &[u8]) -> Option<ColumnOrder>
    ensures { MatchOption result ((o : ColumnOrder) → names.now ≢ names_of o) (λ o. names.now ≡ names_of o) }
{
    match names {
        b"key cost" => Some(ColumnOrder::KeyCost),
        b"cost key" => Some(ColumnOrder::CostKey),
        _ => None,
    }
}
