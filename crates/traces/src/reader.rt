//! The reader: a check that needs no memory, and then the trace itself.
ghost use Rattle.std.specs.Prelude.{◌≡◌, ◌+◌, ◌<◌, ◌≤◌, length, MatchResult};
ghost use Rattle.traces.specs.Cut.{cut};
ghost use Rattle.traces.specs.Faults.{of_values, Least};
ghost use Rattle.traces.specs.Layout.{Rows, Titles, GivesSlots, Names, Faulty, Heads, IfFound, IsRow, LeastIn, LeadsRow, LeastFrom, Leads, LeastAny, SomeRows};
ghost use Rattle.traces.specs.Traces.{slots_in, rows_in};
ghost use Rattle.traces.specs.Words.{Said, ReadFails, Says, SaidIsKept, KeptIsSaid, SaidIsSound, SaidOnce, SaidOrFaulty, ReadsBack};

use crate::faults::{Fault, TableFault, TraceError, ValuesFault};
use crate::limits::{FIRST_ROW_LINE, MOST_ROWS};
use crate::lines::{Line, Lines};
use crate::rows::{Header, Row};
use crate::table::{ColumnOrder, TITLE, is_one, order_in, two};
use crate::trace::Trace;
use crate::values::{Column, value_in};
use std::alloc::Global;

/// The last line that a row may stand on.
const LAST_ROW_LINE: usize = FIRST_ROW_LINE + MOST_ROWS as usize - 1;

/// The row that a line is.
fn row_in(order: ColumnOrder, line: Line<'_>) -> Result<Row, ValuesFault>
    requires late { 3 < line.number }
    requires short { length line.text.now ≤ 80 }
    ensures { MatchResult result (λ w. IsRow order line.entry.number line.entry.text.now w) (λ e. LeastIn order line.entry.number line.entry.text.now (of_values e)) }
{
    let number = line.number;
    let (first, second) = two(line)?;
    let (first_column, second_column) = order.columns();
    let Some(a) = value_in(first_column, first) else {
        return Err(ValuesFault::Value {
            line: number,
            column: 1,
        });
    };
    let Some(b) = value_in(second_column, second) else {
        return Err(ValuesFault::Value {
            line: number,
            column: first.len() + 2,
        });
    };
    if number > LAST_ROW_LINE {
        return Err(ValuesFault::Table(TableFault::Rows { line: number }));
    }
    Ok(order.row(a, b))
}

/// The rows that are still to be read, one a line.
#[derive(Drop)]
struct RowLines<'a> {
    order: ColumnOrder,
    lines: Lines<'a>,
    ghost late: { 3 < lines.number },
}

impl RowLines<'_> {
    /// The row that the first line is.
    fn next_row(&mut self) -> Result<Row, ValuesFault>
        requires some { 0 < length self.old.lines.rest.now }
        ensures order { self.new.order ≡ self.old.order }
        ensures row { MatchResult result
            (λ r. LeadsRow self.old.order self.old.lines.number self.old.lines.rest.now self.new.lines.rest.now r × (self.new.lines.number ≡ self.old.lines.number + 1))
            (λ e. LeastFrom self.old.order self.old.lines.number self.old.lines.rest.now (of_values e)) }
        ensures shorter { length self.new.lines.rest.now < length self.old.lines.rest.now }
    {
        let line = self.lines.next_line()?;
        row_in(self.order, line)
    }
}

impl Iterator for RowLines<'_> {
    type Item = Result<Row, ValuesFault>;

    ghost use Rattle.std.specs.Prelude.{◌≡◌, length};
    ghost use Rattle.std.specs.Iterator.{at_most};
    ghost use Rattle.traces.specs.Layout.{GivesRow};

    ghost next_gives = { λ s r t. (t.order ≡ s.order) × GivesRow s.order s.lines.number s.lines.rest.now t.lines.number t.lines.rest.now r };

    ghost remaining = { λ s. at_most (length s.lines.rest.now) };

    fn next(&mut self) -> Option<Result<Row, ValuesFault>> {
        if self.lines.is_empty() {
            return None;
        }
        Some(self.next_row())
    }
}

/// Line 1.
fn title_line(lines: &mut Lines<'_>) -> Result<(), ValuesFault>
    requires { lines.old.number ≡ 1 }
    ensures { MatchResult result
        (λ _. Leads Titles lines.old.rest.now lines.new.rest.now × (lines.new.number ≡ 2))
        (λ e. LeastAny 1 lines.old.rest.now (of_values e)) }
{
    let Line { number, text } = lines.next_line()?;
    if text != TITLE {
        return Err(ValuesFault::Table(TableFault::Names { line: number }));
    }
    Ok(())
}

/// The header that line 2 gives.
fn slots_line(lines: &mut Lines<'_>) -> Result<Header, ValuesFault>
    requires { lines.old.number ≡ 2 }
    ensures { MatchResult result
        (λ h. Leads (λ l. GivesSlots l h.slots) lines.old.rest.now lines.new.rest.now × (lines.new.number ≡ 3))
        (λ e. LeastAny 2 lines.old.rest.now (of_values e)) }
{
    let Line { number, text } = lines.next_line()?;
    if !is_one(text) {
        return Err(ValuesFault::Table(TableFault::Shape { line: number }));
    }
    let Some(slots) = value_in(Column::Slots, text) else {
        return Err(ValuesFault::Value {
            line: number,
            column: 1,
        });
    };
    Ok(Header {
        slots: slots as u16,
    })
}

/// The order that line 3 gives.
fn names_line(lines: &mut Lines<'_>) -> Result<ColumnOrder, ValuesFault>
    requires { lines.old.number ≡ 3 }
    ensures { MatchResult result
        (λ o. Leads (λ l. Names l o) lines.old.rest.now lines.new.rest.now × (lines.new.number ≡ 4))
        (λ e. LeastAny 3 lines.old.rest.now (of_values e)) }
{
    let Line { number, text } = lines.next_line()?;
    let Some(order) = order_in(text) else {
        return Err(ValuesFault::Table(TableFault::Names { line: number }));
    };
    Ok(order)
}

/// What the first three lines give, and the rows after them.
fn head(text: &[u8]) -> Result<(Header, RowLines<'_>), ValuesFault>
    ensures { MatchResult result
        (λ p. Heads text.now p.0.slots p.1.order (cut p.1.lines.rest.now) × (p.1.lines.number ≡ 4))
        (λ e. Least (Faulty text.now) (of_values e)) }
{
    let mut lines = Lines::new(text);
    title_line(&mut lines)?;
    let header = slots_line(&mut lines)?;
    let order = names_line(&mut lines)?;
    Ok((header, RowLines { order, lines }))
}

/// Goes through the rows, and keeps none.
fn check_rows(rows: RowLines<'_>) -> Result<(), ValuesFault>
    requires { rows.lines.number ≡ 4 }
    ensures { MatchResult result (λ _. SomeRows rows.entry.order rows.entry.lines.rest.now) (λ e. LeastFrom rows.entry.order 4 rows.entry.lines.rest.now (of_values e)) }
{
    for row in rows {
        row?;
    }
    Ok(())
}

/// All the rows.
fn keep_rows(heap: Global, rows: RowLines<'_>) -> Result<Vec<Row>, TraceError>
    requires { rows.lines.number ≡ 4 }
    ensures { MatchResult result (λ v. Rows rows.entry.order 4 (cut rows.entry.lines.rest.now) v.items) (λ e. IfFound e (LeastFrom rows.entry.order 4 rows.entry.lines.rest.now)) }
{
    let mut kept = Vec::new(heap);
    // A loop, and no `collect`: a fault and want of memory both end it.
    for row in rows {
        kept.push(row?)?;
    }
    Ok(kept)
}

/// Whether a text keeps a trace, or else its least fault. Needs no memory.
pub fn check(text: &[u8]) -> Result<(), Fault>
    ensures { MatchResult result (λ _. Said text.now) (λ f. Least (Faulty text.now) f) }
{
    let (_, rows) = head(text)?;
    check_rows(rows)?;
    Ok(())
}

/// The trace that a text keeps, or its least fault, or want of memory for a trace that the text keeps.
pub fn read_trace(heap: Global, text: &[u8]) -> Result<Trace, TraceError>
    ensures { MatchResult result (λ t. Says text.now (slots_in t) (rows_in t)) (λ e. ReadFails text.now e) }
{
    check(text)?;
    let (header, rows) = head(text)?;
    let rows = keep_rows(heap, rows)?;
    Ok(Trace::from_parts(header, rows))
}

/// What the layout amounts to: it says the same as the lines one by one, a text says one trace or has a least fault,
/// never both, and what is written reads back.
pub fn layout_stands()
    ensures lines { SaidIsKept }
    ensures layout { KeptIsSaid }
    ensures sound { SaidIsSound }
    ensures once { SaidOnce }
    ensures decided { SaidOrFaulty }
    ensures back { ReadsBack }
{}
