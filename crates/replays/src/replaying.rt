// All the rows of a trace.
ghost use Rattle.std.specs.Prelude.{◌≡◌, ◌≤◌, [], length, vec_capacity};
ghost use Rattle.keys.specs.declared.region.RegionNumber.{RegionNumber as Number};
ghost use Rattle.promises.specs.Lines.{Making, made};
ghost use Rattle.cache.specs.Whole.{state_of, making};
ghost use Rattle.traces.specs.Outcomes.{no_counts};
ghost use Rattle.traces.specs.Traces.{rows_in};
ghost use Rattle.replays.specs.Replayed.{Replays};
ghost use Rattle.replays.specs.Standing.{Went, Priced};

use crate::visits::visit;
use cache::Cache;
use directories::Directory;
use keys::RegionNumber;
use orders::Order;
use std::alloc::Global;
use traces::{FIRST_ROW_LINE, Report, Row, RowFault, Trace, TraceError};

/// What a replay hands back: its cache, as the rows left it, and the report or the reason why there is none.
pub struct Replayed<D: Directory<RegionNumber>, O: Order> {
    pub cache: Cache<RegionNumber, D, O>,
    pub outcome: Result<Report, TraceError>,
}

/// Visits the rows, and notes what each led to.
fn visit_all<D: Directory<RegionNumber>, O: Order>(
    cache: &mut Cache<RegionNumber, D, O>,
    report: &mut Report,
    slab: &mut [u8],
    rows: &[Row],
) -> Result<(), RowFault>
    requires fresh { report.old.counts ≡ no_counts }
    requires none { report.old.evicted.items ≡ [] }
    requires room { length rows.now ≤ vec_capacity report.old.evicted }
    requires few { length rows.now ≤ 2048 }
    requires priced { Priced rows.now }
    ensures slots { report.new.slots ≡ report.old.slots }
    ensures went { (m : Making Number) → state_of cache.old ≡ made m → Went m (length slab.old) rows.now (state_of cache.new) report.new.counts report.new.evicted.items result × (slab.new ≡ slab.old) }
{
    for (i, row) in rows.iter().enumerate() {
        match visit(cache, *row, slab) {
            Ok(outcome) => {
                // It is taken: there is room for an eviction a row.
                let _ = report.note(outcome);
            }
            Err(refusal) => return Err(RowFault {
                line: i + FIRST_ROW_LINE,
                refusal,
            }),
        }
    }
    Ok(())
}

/// Visits the rows, and reports what they came to. Room for an eviction a row is found first.
fn report_rows<D: Directory<RegionNumber>, O: Order>(
    heap: Global,
    cache: &mut Cache<RegionNumber, D, O>,
    slab: &mut [u8],
    rows: &[Row],
) -> Result<Report, TraceError>
    requires few { length rows.now ≤ 2048 }
    requires priced { Priced rows.now }
    ensures { (m : Making Number) → state_of cache.old ≡ made m → Replays m slab.old rows.now result (state_of cache.new) slab.new }
{
    let mut report = Report::new(heap, cache.slots() as u16, rows.len())?;
    visit_all(cache, &mut report, slab, rows)?;
    Ok(report)
}

/// Makes a cache of the parts given, gets the key of each row and, if it is absent, keeps it with the row's cost and an empty value.
/// Reports what the rows came to, or else the first row that the cache refuses; the cache is then as the rows before it left it. Want of memory
/// shows before the first row.
pub fn replay<D: Directory<RegionNumber>, O: Order>(
    heap: Global,
    directory: D,
    order: O,
    mark: u32,
    chunk: usize,
    slab: &mut [u8],
    trace: &Trace,
) -> Replayed<D, O>
    ensures { Replays (making D.Directory O.Order directory order mark chunk) slab.old (rows_in trace.now) result.outcome (state_of result.cache) slab.new }
{
    let mut cache = Cache::new(directory, order, mark, chunk);
    let outcome = report_rows(heap, &mut cache, slab, trace.rows());
    Replayed { cache, outcome }
}
