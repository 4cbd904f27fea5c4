//! A buffer that tables are written into.
ghost use Rattle.std.specs.Prelude.{◌≡◌, ◌≤◌};
ghost use Rattle.traces.specs.Pages.{Room, Wrote};
ghost use Rattle.traces.specs.Tables.{numeral_of, cell_text, joined_text, cells_text, lines_text};

use crate::text::{Cell, TableRow, glyph};

/// A buffer that is written from its front on, and the place of the next byte. The buffer is the caller's, who may have less than the text needs,
/// so it is no vector.
#[derive(Drop)]
pub struct Page<'a> {
    out: &'a mut [u8],
    at: usize,
}

impl<'a> Page<'a> {
    /// A buffer, to be written from its front on.
    pub(crate) fn new(out: &'a mut [u8]) -> Page<'a>
        ensures same_buffer { result.out.ghost_name ≡ out.entry.ghost_name }
        ensures before { result.out.now ≡ out.old }
        ensures front { result.at ≡ 0 }
    {
        Page { out, at: 0 }
    }

    /// How many bytes are written.
    pub(crate) fn len(&self) -> usize
        ensures { result ≡ self.now.at }
    {
        self.at
    }

    /// Writes bytes.
    pub(crate) fn put_text(&mut self, text: &[u8])
        requires { Room text.now self.old }
        ensures { Wrote text.now self.old self.new }
    {
        let end = self.at + text.len();
        self.out[self.at..end].copy_from_slice(text);
        self.at = end;
    }

    /// Writes a number. Not by `write!`, which may fail where this cannot.
    fn put_number(&mut self, n: usize, base: usize)
        requires low { 2 ≤ base }
        requires high { base ≤ 16 }
        requires room { Room (numeral_of base n) self.old }
        ensures { Wrote (numeral_of base n) self.old self.new }
    {
        if n < base {
            self.put_text(&[glyph(n)]);
            return;
        }
        self.put_number(n / base, base);
        self.put_text(&[glyph(n % base)]);
    }

    /// Writes a value.
    fn put_cell(&mut self, cell: Cell)
        requires { Room (cell_text cell) self.old }
        ensures { Wrote (cell_text cell) self.old self.new }
    {
        match cell {
            Cell::Decimal(n) => self.put_number(n, 10),
            Cell::Hexadecimal(n) => self.put_number(n as usize, 16),
            Cell::Name(layer) => self.put_text(layer.name()),
        }
    }

    /// Writes values with one space between.
    fn put_cells(&mut self, cells: &[Cell])
        requires { Room (joined_text cells.now) self.old }
        ensures { Wrote (joined_text cells.now) self.old self.new }
    {
        let [first, rest @ ..] = cells else {
            return;
        };
        self.put_cell(*first);
        for cell in rest {
            self.put_text(b" ");
            self.put_cell(*cell);
        }
    }

    /// Writes a line of values.
    pub(crate) fn put_line(&mut self, cells: &[Cell])
        requires { Room (cells_text cells.now) self.old }
        ensures { Wrote (cells_text cells.now) self.old self.new }
    {
        self.put_cells(cells);
        self.put_text(b"\n");
    }

    /// Writes the lines of a table's rows.
    pub(crate) fn put_rows<R: TableRow>(&mut self, rows: &[R])
        requires { Room (lines_text R.cells_of rows.now) self.old }
        ensures { Wrote (lines_text R.cells_of rows.now) self.old self.new }
    {
        for row in rows {
            self.put_line(&row.cells());
        }
    }
}
