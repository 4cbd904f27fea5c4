//! Lines of tables: values with one space between, and LF. How many bytes they have.
ghost use Rattle.std.specs.Prelude.{◌≡◌, ◌*◌, ◌^◌, ◌<◌, ◌≤◌, List, length};
ghost use Rattle.traces.specs.declared.text.Cell.{Cell as OneCell};
ghost use Rattle.traces.specs.Tables.{glyph_of, numeral_of, cell_text, cells_text, lines_text};

use crate::faults::Layer;

/// A value of a table.
#[derive(Clone, Copy, Debug, PartialEq)]
pub(crate) enum Cell {
    Decimal(usize),
    Hexadecimal(u32),
    Name(Layer),
}

/// A row of a table, as a line of two values.
pub(crate) trait TableRow: Copy {
    ghost cells_of: { Self → List OneCell };

    /// The values, in the order of the names.
    fn cells(self) -> [Cell; 2]
        ensures { result ≡ cells_of self };
}

/// A digit of base 16 as a byte: 0 to 9, then A to F. (`char::from_digit` answers small letters.)
pub(crate) fn glyph(d: usize) -> u8
    requires { d < 16 }
    ensures { result ≡ glyph_of d }
{
    if d < 10 {
        b'0' + d as u8
    } else {
        b'A' + (d - 10) as u8
    }
}

/// How many digits a number has.
fn number_len(n: usize, base: usize) -> usize
    requires { 2 ≤ base }
    ensures is { result ≡ length (numeral_of base n) }
    ensures short { result ≤ 65 }
{
    if n < base {
        1
    } else {
        number_len(n / base, base) + 1
    }
}

/// How many hexadecimal digits a key has.
pub(crate) fn key_len(key: u32) -> usize
    ensures is { result ≡ length (numeral_of 16 key) }
    ensures short { result ≤ 65 }
    ensures held { key < 2 ^ 32 }
{
    number_len(key as usize, 16)
}

/// How many bytes a value has.
fn cell_len(cell: Cell) -> usize
    ensures is { result ≡ length (cell_text cell) }
    ensures short { result ≤ 65 }
{
    match cell {
        Cell::Decimal(n) => number_len(n, 10),
        Cell::Hexadecimal(n) => number_len(n as usize, 16),
        Cell::Name(layer) => layer.name().len(),
    }
}

/// How many bytes a line of values has: each has a space or the LF after it.
pub(crate) fn line_len(cells: &[Cell]) -> usize
    requires some { 0 < length cells.now }
    requires few { length cells.now ≤ 8 }
    ensures is { result ≡ length (cells_text cells.now) }
    ensures short { result ≤ 66 * length cells.now }
{
    // A loop, since of a chain's `sum` the bound on the whole is not proved.
    let mut total = 0;
    for cell in cells {
        total += cell_len(*cell) + 1;
    }
    total
}

/// How many bytes the lines of a table's rows have.
pub(crate) fn rows_len<R: TableRow>(rows: &[R]) -> usize
    requires { length rows.now ≤ 2048 }
    ensures is { result ≡ length (lines_text R.cells_of rows.now) }
    ensures short { result ≤ 132 * length rows.now }
{
    // A loop, since of a chain's `sum` the bound on the whole is not proved.
    let mut total = 0;
    for row in rows {
        total += line_len(&row.cells());
    }
    total
}
