//! The writer of traces: the names `key cost`, and no leading zeros.
ghost use Rattle.std.specs.Prelude.{◌≡◌, ◌≤◌, length, MatchResult};
ghost use Rattle.traces.specs.Faults.{Least};
ghost use Rattle.traces.specs.Rendering.{row_cells, trace_text, Unfit, Fit};
ghost use Rattle.traces.specs.Words.{Written, Declined};

use crate::faults::{Fault, FaultKind};
use crate::limits::{FIRST_ROW_LINE, MOST_COST, MOST_ROWS, MOST_SLOTS};
use crate::page::Page;
use crate::printed::{Printable, write_text};
use crate::rows::{Header, Row};
use crate::text::{Cell, TableRow, key_len, line_len, rows_len};

/// The first fault of what is to be written, at the place where it would stand.
pub(crate) fn check_fit(slots: u16, rows: &[Row]) -> Result<(), Fault>
    ensures { MatchResult result (λ _. Fit slots rows.now) (λ f. Least (Unfit slots rows.now) f) }
{
    if slots > MOST_SLOTS {
        return Err(Fault {
            kind: FaultKind::Value,
            line: 2,
            column: 1,
        });
    }
    for (i, row) in rows.iter().enumerate() {
        let width = key_len(row.key.number);
        if row.cost < 1 || row.cost > MOST_COST {
            return Err(Fault {
                kind: FaultKind::Value,
                line: i + FIRST_ROW_LINE,
                column: width + 2,
            });
        }
        if i >= MOST_ROWS as usize {
            return Err(Fault::of_line(FaultKind::Rows, i + FIRST_ROW_LINE));
        }
    }
    Ok(())
}

impl TableRow for Row {
    ghost cells_of = { row_cells };

    fn cells(self) -> [Cell; 2] {
        [
            Cell::Hexadecimal(self.key.number),
            Cell::Decimal(self.cost as usize),
        ]
    }
}

/// The names of the first table, as a line.
const SLOTS_NAMES: &[u8] = b"slots\n";

/// The names of the rows' table, as a line.
const ROWS_NAMES: &[u8] = b"key cost\n";

/// The slots and the rows of a trace, to be written as its two tables.
#[derive(Drop)]
struct Tables<'a> {
    slots: u16,
    rows: &'a [Row],
    ghost few: { length rows.now ≤ 2048 },
}

impl Printable for Tables<'_> {
    ghost text_of = { λ t. trace_text t.slots t.rows.now };

    fn text_len(&self) -> usize {
        let slots = [Cell::Decimal(self.slots as usize)];
        SLOTS_NAMES.len() + line_len(&slots) + ROWS_NAMES.len() + rows_len(self.rows)
    }

    fn put(&self, page: &mut Page<'_>) {
        page.put_text(SLOTS_NAMES);
        page.put_line(&[Cell::Decimal(self.slots as usize)]);
        page.put_text(ROWS_NAMES);
        page.put_rows(self.rows);
    }
}

/// Writes a trace at the front of a buffer, and answers how many bytes it takes; or leaves the buffer as it was, and
/// answers the first value or row that is out of range, at the place where it would stand, or that there is no room.
pub fn write_trace(header: Header, rows: &[Row], out: &mut [u8]) -> Result<usize, Fault>
    ensures { MatchResult result
        (λ n. Written header.slots rows.now out.old out.new n)
        (λ f. Declined header.slots rows.now out.old out.new f) }
{
    let slots = header.slots;
    check_fit(slots, rows)?;
    write_text(&Tables { slots, rows }, out)
}
