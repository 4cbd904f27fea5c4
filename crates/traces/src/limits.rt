//! The limits of a trace.

/// The most slots.
pub(crate) const MOST_SLOTS: u16 = 1024;

/// The most rows.
pub(crate) const MOST_ROWS: u32 = 2048;

/// The most that a row may cost, in milliseconds.
pub(crate) const MOST_COST: u32 = 65280;

/// The line of the first row: the names and the number of the slots, and the names of the rows' table, stand before it.
pub const FIRST_ROW_LINE: usize = 4;
