//! A trace, whose values are in range.
ghost use Rattle.std.specs.Prelude.{◌≡◌, ◌≤◌, length, MatchResult};
ghost use Rattle.traces.specs.Faults.{Least};
ghost use Rattle.traces.specs.Rendering.{InRange, Fit, Unfit};

use crate::faults::Fault;
use crate::rows::{Header, Row};
use crate::writer::check_fit;

/// A trace: at most 1,024 slots, at most 2,048 rows, and each cost within 1 to 65,280.
#[derive(Drop)]
pub struct Trace {
    header: Header,
    rows: Vec<Row>,
    ghost few_slots: { header.slots ≤ 1024 },
    ghost few_rows: { length rows.items ≤ 2048 },
    ghost in_range: { InRange rows.items },
}

impl Trace {
    /// The trace of these rows, or the first of them that is out of range, at the place where it would stand in a text.
    pub fn new(header: Header, rows: Vec<Row>) -> Result<Trace, Fault>
        ensures { MatchResult result
            (λ t. (t.header ≡ header) × (t.rows.items ≡ rows.items))
            (λ f. Least (Unfit header.slots rows.items) f) }
    {
        check_fit(header.slots, rows.as_slice())?;
        Ok(Trace { header, rows })
    }

    /// The trace of rows that are known to be in range.
    pub(crate) fn from_parts(header: Header, rows: Vec<Row>) -> Trace
        requires { Fit header.slots rows.items }
        ensures { (result.header ≡ header) × (result.rows.items ≡ rows.items) }
    {
        Trace { header, rows }
    }

    /// What the first table gives.
    pub fn header(&self) -> Header
        ensures { result ≡ self.now.header }
    {
        self.header
    }

    /// The number of slots.
    pub fn slots(&self) -> u16
        ensures { result ≡ self.now.header.slots }
    {
        self.header.slots
    }

    /// The rows, in the order of the text.
    pub fn rows(&self) -> &[Row]
        ensures value { result.now ≡ self.now.rows.items }
        ensures fit { Fit self.now.header.slots result.now }
    {
        self.rows.as_slice()
    }
}
