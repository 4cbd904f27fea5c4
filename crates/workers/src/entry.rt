// What workers did, with what came of it, for the reader.
use crate::outcome::Outcome;
use crate::triangle::Edge;
use keys::RegionNumber;
use std::fmt;

/// Who worked.
#[derive(Clone, Copy, Debug, PartialEq, Eq)]
pub enum Worker {
    One,
    Two,
}

/// What a worker did with a region.
#[derive(Clone, Copy, Debug, PartialEq, Eq)]
pub enum Deed {
    /// At this cost.
    Keep(u32),
    Lease,
    /// An edge collapse under a lease.
    Collapse(Edge),
    GiveBack,
    Drop,
    State,
    Get,
}

/// One deed of a worker, with what came of it.
#[derive(Clone, Copy, Debug, PartialEq)]
pub struct Entry {
    pub worker: Worker,
    pub deed: Deed,
    pub region: RegionNumber,
    pub outcome: Outcome,
}

impl Entry {
    pub(crate) fn new(
        worker: Worker,
        deed: Deed,
        region: RegionNumber,
        outcome: impl Into<Outcome>,
    ) -> Entry {
        Entry {
            worker,
            deed,
            region,
            outcome: outcome.into(),
        }
    }
}

// Fills the unused places of a log. It is not derived, since a region's number has no default.
impl Default for Entry {
    fn default() -> Entry {
        Entry {
            worker: Worker::One,
            deed: Deed::State,
            region: RegionNumber { number: 0 },
            outcome: Outcome::Absent,
        }
    }
}

impl fmt::Display for Worker {
    fn fmt<W: fmt::Write>(&self, f: &mut fmt::Formatter<W>) -> fmt::Result {
        match self {
            Worker::One => write!(f, "worker one"),
            Worker::Two => write!(f, "worker two"),
        }
    }
}

impl fmt::Display for Deed {
    fn fmt<W: fmt::Write>(&self, f: &mut fmt::Formatter<W>) -> fmt::Result {
        match self {
            Deed::Keep(cost) => write!(f, "keep, at cost {cost}"),
            Deed::Lease => write!(f, "lease"),
            Deed::Collapse(edge) => write!(f, "collapse of edge {edge} into {}", edge.keep),
            Deed::GiveBack => write!(f, "give back"),
            Deed::Drop => write!(f, "drop"),
            Deed::State => write!(f, "state"),
            Deed::Get => write!(f, "get"),
        }
    }
}

impl fmt::Display for Entry {
    fn fmt<W: fmt::Write>(&self, f: &mut fmt::Formatter<W>) -> fmt::Result {
        write!(
            f,
            "{}, region {}: {}: {}",
            self.worker, self.region.number, self.deed, self.outcome
        )
    }
}
