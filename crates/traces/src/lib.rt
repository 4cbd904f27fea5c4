//! Traces of wanted regions: an exact reader and writer of the text that keeps one, the report of a run over it, and
//! the tables in which report and faults are printed. Depends on `keys`, and on `promises` for
//! the refusals of a cache.
#![tactic(auto)]

mod faults;
mod limits;
mod lines;
mod outcomes;
mod page;
mod printed;
mod printer;
mod reader;
mod report;
mod rows;
mod table;
mod text;
mod trace;
mod values;
mod writer;

pub use faults::{Fault, FaultKind, Layer, RowFault, TraceError};
pub use limits::FIRST_ROW_LINE;
pub use outcomes::{Counts, Eviction, Outcome};
pub use page::Page;
pub use printed::{Printable, write_text};
pub use printer::{example_stands, fault_len, report_len, write_fault, write_report};
pub use reader::{check, layout_stands, read_trace};
pub use report::{NoteError, Report};
pub use rows::{Header, Row};
pub use trace::Trace;
pub use writer::write_trace;
