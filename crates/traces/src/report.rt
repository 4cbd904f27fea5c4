//! The report of a run over a trace.
ghost use Rattle.std.specs.Prelude.{◌≡◌, ◌+◌, ◌*◌, ◌≤◌, min, [], ◌++◌, length, is_ok, IfOk, IfErr, if◌then◌else◌, vec_len, vec_capacity};
ghost use Rattle.traces.specs.Outcomes.{counted, leaving, no_counts, takes_row, Declines};

use crate::limits::{MOST_COST, MOST_ROWS, MOST_SLOTS};
use crate::outcomes::{Counts, Eviction, Outcome};
use std::alloc::{AllocError, Global};

/// Why a report declines an outcome.
#[derive(Clone, Copy, Debug, PartialEq)]
pub enum NoteError {
    /// It has as many rows as a trace may have.
    ManyRows,
    /// The row costs more than a trace may say.
    HighCost,
    /// An eviction finds no room.
    NoRoom,
}

/// The report of a run: at most 1,024 slots, at most 2,048 rows, no more hits and evictions than rows, an eviction in
/// the list for each that is counted, and at most 65,280 paid for a row.
#[derive(Drop)]
pub struct Report {
    slots: u16,
    counts: Counts,
    evicted: Vec<Eviction>,
    ghost few_slots: { slots ≤ 1024 },
    ghost few_rows: { counts.rows ≤ 2048 },
    ghost shared: { counts.hits + counts.evictions ≤ counts.rows },
    ghost priced: { counts.paid ≤ 65280 * counts.rows },
    ghost listed: { counts.evictions ≡ length evicted.items },
}

impl Report {
    /// The report of no row, with room for so many evictions. More than 1,024 slots are taken as 1,024.
    pub fn new(heap: Global, slots: u16, room: usize) -> Result<Report, AllocError>
        ensures { IfOk result (λ x. (x.slots ≡ min slots 1024) × (x.counts ≡ no_counts) × (x.evicted.items ≡ []) × (room ≤ vec_capacity x.evicted)) }
    {
        let evicted = Vec::with_capacity(heap, room)?;
        Ok(Report {
            slots: slots.min(MOST_SLOTS),
            counts: Counts::none(),
            evicted,
        })
    }

    /// Adds the outcome of one more row, or declines it and changes nothing.
    pub fn note(&mut self, outcome: Outcome) -> Result<(), NoteError>
        ensures answer { is_ok result ≡ takes_row self.old.counts.rows (vec_len self.old.evicted) (vec_capacity self.old.evicted) outcome }
        ensures reason { IfErr result (Declines self.old.counts.rows (vec_len self.old.evicted) (vec_capacity self.old.evicted) outcome) }
        ensures slots { self.new.slots ≡ self.old.slots }
        ensures room { vec_capacity self.new.evicted ≡ vec_capacity self.old.evicted }
        ensures counts { self.new.counts ≡ (if is_ok result then counted self.old.counts outcome else self.old.counts) }
        ensures evicted { self.new.evicted.items ≡ (if is_ok result then self.old.evicted.items ++ leaving (self.old.counts.rows + 1) outcome else self.old.evicted.items) }
    {
        if self.counts.rows >= MOST_ROWS {
            return Err(NoteError::ManyRows);
        }
        if outcome.cost() > MOST_COST {
            return Err(NoteError::HighCost);
        }
        let counts = self.counts.counting(outcome);
        if let Outcome::Evicting { key, .. } = outcome {
            if self.evicted.len() >= self.evicted.capacity() {
                return Err(NoteError::NoRoom);
            }
            self.evicted.push_reserved(Eviction {
                row: counts.rows,
                key,
            });
        }
        self.counts = counts;
        Ok(())
    }

    /// How many slots the run had.
    pub fn slots(&self) -> u16
        ensures value { result ≡ self.now.slots }
        ensures few { result ≤ 1024 }
    {
        self.slots
    }

    /// The counts of the rows' outcomes.
    pub fn counts(&self) -> Counts
        ensures value { result ≡ self.now.counts }
        ensures rows { result.rows ≤ 2048 }
        ensures hits { result.hits ≤ result.rows }
        ensures evictions { result.evictions ≤ result.rows }
        ensures paid { result.paid ≤ 65280 * result.rows }
    {
        self.counts
    }

    /// The rows that made a region leave, in their order.
    pub fn evicted(&self) -> &[Eviction]
        ensures value { result.now ≡ self.now.evicted.items }
        ensures long { length result.now ≡ self.now.counts.evictions }
        ensures few { length result.now ≤ 2048 }
    {
        self.evicted.as_slice()
    }
}
