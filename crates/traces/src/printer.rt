//! What is printed: the two tables of a report, or the table of a fault.
ghost use Rattle.std.specs.Prelude.{◌≡◌, length, MatchResult};
ghost use Rattle.traces.specs.Example.{ExampleReads, ExamplePrints};
ghost use Rattle.traces.specs.Reports.{counts_cells, eviction_cells, report_text, fault_cells, fault_text, Printed, Cramped};

use crate::faults::Fault;
use crate::outcomes::{Counts, Eviction};
use crate::page::Page;
use crate::printed::{Printable, write_text};
use crate::report::Report;
use crate::text::{Cell, TableRow, line_len, rows_len};

/// The names of a report's first table, as a line.
const COUNTS_NAMES: &[u8] = b"slots rows hits evictions paid\n";

/// The names of a report's second table, as a line.
const EVICTIONS_NAMES: &[u8] = b"row evicted\n";

/// The names of a fault's table, as a line.
const FAULT_NAMES: &[u8] = b"fault line column layer\n";

/// The slots and the counts of a report, in the order of the names.
fn counts_of(report: &Report) -> [Cell; 5]
    ensures { result ≡ counts_cells report.now.slots report.now.counts }
{
    let Counts {
        rows,
        hits,
        evictions,
        paid,
    } = report.counts();
    [
        Cell::Decimal(report.slots() as usize),
        Cell::Decimal(rows as usize),
        Cell::Decimal(hits as usize),
        Cell::Decimal(evictions as usize),
        Cell::Decimal(paid as usize),
    ]
}

impl TableRow for Eviction {
    ghost cells_of = { eviction_cells };

    fn cells(self) -> [Cell; 2] {
        [
            Cell::Decimal(self.row as usize),
            Cell::Hexadecimal(self.key.number),
        ]
    }
}

impl Printable for Report {
    ghost text_of = { report_text };

    fn text_len(&self) -> usize {
        let counts = counts_of(self);
        COUNTS_NAMES.len() + line_len(&counts) + EVICTIONS_NAMES.len() + rows_len(self.evicted())
    }

    fn put(&self, page: &mut Page<'_>) {
        page.put_text(COUNTS_NAMES);
        page.put_line(&counts_of(self));
        page.put_text(EVICTIONS_NAMES);
        page.put_rows(self.evicted());
    }
}

/// The values of a fault, in the order of the names.
fn fault_values(fault: Fault) -> [Cell; 4]
    ensures { result ≡ fault_cells fault }
{
    [
        Cell::Decimal(fault.kind.number() as usize),
        Cell::Decimal(fault.line),
        Cell::Decimal(fault.column),
        Cell::Name(fault.kind.layer()),
    ]
}

impl Printable for Fault {
    ghost text_of = { fault_text };

    fn text_len(&self) -> usize {
        FAULT_NAMES.len() + line_len(&fault_values(*self))
    }

    fn put(&self, page: &mut Page<'_>) {
        page.put_text(FAULT_NAMES);
        page.put_line(&fault_values(*self));
    }
}

// The four below are `text_len` and `write_text` of a report and of a fault, for callers that know them by these names.
/// How many bytes a report takes.
pub fn report_len(report: &Report) -> usize
    ensures { result ≡ length (report_text report.now) }
{
    report.text_len()
}

/// Writes a report at the front of a buffer, and answers how many bytes it takes; or leaves the buffer as it was, and
/// answers that there is no room.
pub fn write_report(report: &Report, out: &mut [u8]) -> Result<usize, Fault>
    ensures { MatchResult result
        (λ n. Printed (report_text report.now) out.old out.new n)
        (λ f. Cramped (report_text report.now) out.old out.new f) }
{
    write_text(report, out)
}

/// How many bytes a fault takes.
pub fn fault_len(fault: Fault) -> usize
    ensures { result ≡ length (fault_text fault) }
{
    fault.text_len()
}

/// Writes a fault at the front of a buffer, and answers how many bytes it takes; or leaves the buffer as it was, and
/// answers that there is no room.
pub fn write_fault(fault: Fault, out: &mut [u8]) -> Result<usize, Fault>
    ensures { MatchResult result
        (λ n. Printed (fault_text fault) out.old out.new n)
        (λ f. Cramped (fault_text fault) out.old out.new f) }
{
    write_text(&fault, out)
}

/// The example of the documentation: its text says its rows, and the outcomes of its rows print as its report.
pub fn example_stands()
    ensures reads { ExampleReads }
    ensures prints { ExamplePrints }
{}
