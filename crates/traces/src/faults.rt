//! What may be wrong with a trace: a fault of each layer, which passes upward by `?` (lines, table, values, cache), and
//! the fault that a user is told.
ghost use Rattle.std.specs.Prelude.{◌≡◌};
ghost use Rattle.traces.specs.Faults.{number_of, layer_of, fault_of, of_lines, of_table, of_values, cache_fault};
ghost use Rattle.traces.specs.Tables.{layer_name};
ghost use Rattle.traces.specs.declared.faults.TraceError.TheVariants.{Found, Memory};
ghost use Rattle.traces.specs.declared.faults.TableFault.TheVariants.{Lines};
ghost use Rattle.traces.specs.declared.faults.ValuesFault.TheVariants.{Table};

use promises::Refusal;
use std::alloc::{AllocError, AllocFailed};

/// What is wrong.
#[derive(Clone, Copy, Debug, PartialEq)]
pub enum FaultKind {
    /// A line is missing, too long or not ended.
    Line,
    /// A line of names has other names.
    Names,
    /// A line has not as many values as its table has names.
    Shape,
    /// A value is out of form or range.
    Value,
    /// There are too many rows.
    Rows,
    /// The cache refuses a row.
    Cache(Refusal),
    /// The buffer is too short.
    Room,
}

/// The layer that finds a fault.
#[derive(Clone, Copy, Debug, PartialEq)]
pub enum Layer {
    Lines,
    Table,
    Values,
    Cache,
    Report,
}

impl Layer {
    // Not by `Display`: tables are bytes, and the contract names them, which no `write!` does.
    /// The name by which a layer is told.
    pub(crate) fn name(self) -> &'static [u8]
        ensures { result.now ≡ layer_name self }
    {
        match self {
            Layer::Lines => b"lines",
            Layer::Table => b"table",
            Layer::Values => b"values",
            Layer::Cache => b"cache",
            Layer::Report => b"report",
        }
    }
}

impl FaultKind {
    // A number, since the format tells a kind by it.
    /// The number by which this kind is told.
    pub fn number(self) -> u8
        ensures { result ≡ number_of self }
    {
        match self {
            FaultKind::Line => 9,
            FaultKind::Names => 10,
            FaultKind::Shape => 11,
            FaultKind::Value => 12,
            FaultKind::Rows => 13,
            FaultKind::Cache(refusal) => refusal.number(),
            FaultKind::Room => 14,
        }
    }

    /// The layer that finds this kind.
    pub fn layer(self) -> Layer
        ensures { result ≡ layer_of self }
    {
        match self {
            FaultKind::Line => Layer::Lines,
            FaultKind::Names | FaultKind::Shape | FaultKind::Rows => Layer::Table,
            FaultKind::Value => Layer::Values,
            FaultKind::Cache(_) => Layer::Cache,
            FaultKind::Room => Layer::Report,
        }
    }
}

/// A fault, and where it stands: lines and columns count from 1, and want of room has 0 for both. (0, and no `Option`: the format prints
/// a line and a column of every fault.)
#[derive(Clone, Copy, Debug, PartialEq)]
pub struct Fault {
    pub kind: FaultKind,
    pub line: usize,
    pub column: usize,
}

impl Fault {
    /// The fault of a whole line, which stands at its first byte.
    pub(crate) fn of_line(kind: FaultKind, line: usize) -> Fault
        ensures { result ≡ fault_of kind line 1 }
    {
        Fault {
            kind,
            line,
            column: 1,
        }
    }
}

/// A line that is missing, too long or not ended.
#[derive(Clone, Copy)]
pub(crate) struct LinesFault {
    pub line: usize,
}

/// What is wrong with the tables, or with the lines below them.
#[derive(Clone, Copy)]
pub(crate) enum TableFault {
    Lines(LinesFault),
    Names { line: usize },
    Shape { line: usize },
    Rows { line: usize },
}

/// What is wrong with a value, or with the tables below it.
#[derive(Clone, Copy)]
pub(crate) enum ValuesFault {
    Table(TableFault),
    Value { line: usize, column: usize },
}

/// A row that the cache refuses, by its line.
#[derive(Clone, Copy, Debug, PartialEq)]
pub struct RowFault {
    pub line: usize,
    pub refusal: Refusal,
}

/// Why a trace is not read, or a run over it has no report: its first fault, or want of memory.
#[derive(Clone, Copy, Debug, PartialEq)]
pub enum TraceError {
    Found(Fault),
    Memory,
}

impl From<LinesFault> for TableFault {
    ghost from_gives = { λ e r. r ≡ Lines e };

    fn from(e: LinesFault) -> TableFault {
        TableFault::Lines(e)
    }
}

impl From<TableFault> for ValuesFault {
    ghost from_gives = { λ e r. r ≡ Table e };

    fn from(e: TableFault) -> ValuesFault {
        ValuesFault::Table(e)
    }
}

impl From<LinesFault> for ValuesFault {
    ghost from_gives = { λ e r. r ≡ Table (Lines e) };

    fn from(e: LinesFault) -> ValuesFault {
        ValuesFault::Table(TableFault::Lines(e))
    }
}

impl From<LinesFault> for Fault {
    ghost from_gives = { λ e r. r ≡ of_lines e };

    fn from(e: LinesFault) -> Fault {
        Fault::of_line(FaultKind::Line, e.line)
    }
}

impl From<TableFault> for Fault {
    ghost from_gives = { λ e r. r ≡ of_table e };

    fn from(e: TableFault) -> Fault {
        match e {
            TableFault::Lines(e) => Fault::from(e),
            TableFault::Names { line } => Fault::of_line(FaultKind::Names, line),
            TableFault::Shape { line } => Fault::of_line(FaultKind::Shape, line),
            TableFault::Rows { line } => Fault::of_line(FaultKind::Rows, line),
        }
    }
}

impl From<ValuesFault> for Fault {
    ghost from_gives = { λ e r. r ≡ of_values e };

    fn from(e: ValuesFault) -> Fault {
        match e {
            ValuesFault::Table(e) => Fault::from(e),
            ValuesFault::Value { line, column } => Fault {
                kind: FaultKind::Value,
                line,
                column,
            },
        }
    }
}

impl From<RowFault> for Fault {
    ghost from_gives = { λ e r. r ≡ cache_fault e.line e.refusal };

    fn from(e: RowFault) -> Fault {
        Fault::of_line(FaultKind::Cache(e.refusal), e.line)
    }
}

impl From<Fault> for TraceError {
    ghost from_gives = { λ e r. r ≡ Found e };

    fn from(e: Fault) -> TraceError {
        TraceError::Found(e)
    }
}

impl From<ValuesFault> for TraceError {
    ghost from_gives = { λ e r. r ≡ Found (of_values e) };

    fn from(e: ValuesFault) -> TraceError {
        TraceError::Found(Fault::from(e))
    }
}

impl From<RowFault> for TraceError {
    ghost from_gives = { λ e r. r ≡ Found (cache_fault e.line e.refusal) };

    fn from(e: RowFault) -> TraceError {
        TraceError::Found(Fault::from(e))
    }
}

impl From<AllocError> for TraceError {
    ghost from_gives = { λ _ r. r ≡ Memory };

    fn from(_e: AllocError) -> TraceError {
        TraceError::Memory
    }
}

impl<T: Drop> From<AllocFailed<T>> for TraceError {
    ghost from_gives = { λ _ r. r ≡ Memory };

    fn from(_e: AllocFailed<T>) -> TraceError {
        TraceError::Memory
    }
}
