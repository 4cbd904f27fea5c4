//! What a trace holds: its header, and its rows.
use keys::RegionNumber;

/// What the first table of a trace gives.
#[derive(Clone, Copy, Debug, PartialEq)]
pub struct Header {
    pub slots: u16,
}

/// A row: a region is wanted, and would cost so many milliseconds to make.
#[derive(Clone, Copy, Debug, PartialEq)]
pub struct Row {
    pub key: RegionNumber,
    pub cost: u32,
}
