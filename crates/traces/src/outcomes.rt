//! What a run over a trace tells of its rows: an outcome for each, and counts of the outcomes.
ghost use Rattle.std.specs.Prelude.{◌≡◌, ◌*◌, ◌<◌, ◌≤◌};
ghost use Rattle.traces.specs.Outcomes.{counted, no_counts, cost_in};

use keys::RegionNumber;

/// What a row led to: its region was held, was taken in at a cost, or was taken in and another left for it.
#[derive(Clone, Copy, Debug, PartialEq)]
pub enum Outcome {
    Hit,
    Taken { cost: u32 },
    Evicting { cost: u32, key: RegionNumber },
}

impl Outcome {
    /// What the row cost.
    pub fn cost(self) -> u32
        ensures { result ≡ cost_in self }
    {
        match self {
            Outcome::Hit => 0,
            Outcome::Taken { cost } | Outcome::Evicting { cost, .. } => cost,
        }
    }
}

/// A row that made a region leave, counted from 1, and the key of that region.
#[derive(Clone, Copy, Debug, PartialEq)]
pub struct Eviction {
    pub row: u32,
    pub key: RegionNumber,
}

/// How many rows there were, how many of them were hits, how many made a region leave, and what they cost together.
#[derive(Clone, Copy, Debug, PartialEq)]
pub struct Counts {
    pub rows: u32,
    pub hits: u32,
    pub evictions: u32,
    pub paid: u32,
}

impl Counts {
    // Not `Default`: it is named by what it counts, and its contract says so.
    /// The counts of no row.
    pub(crate) fn none() -> Counts
        ensures { result ≡ no_counts }
    {
        Counts {
            rows: 0,
            hits: 0,
            evictions: 0,
            paid: 0,
        }
    }

    /// The counts with one more row.
    pub(crate) fn counting(self, outcome: Outcome) -> Counts
        requires rows { self.rows < 2048 }
        requires hits { self.hits ≤ self.rows }
        requires evictions { self.evictions ≤ self.rows }
        requires paid { self.paid ≤ 65280 * self.rows }
        requires cost { cost_in outcome ≤ 65280 }
        ensures { result ≡ counted self outcome }
    {
        let Counts {
            rows,
            hits,
            evictions,
            paid,
        } = self;
        match outcome {
            Outcome::Hit => Counts {
                rows: rows + 1,
                hits: hits + 1,
                evictions,
                paid,
            },
            Outcome::Taken { cost } => Counts {
                rows: rows + 1,
                hits,
                evictions,
                paid: paid + cost,
            },
            Outcome::Evicting { cost, .. } => Counts {
                rows: rows + 1,
                hits,
                evictions: evictions + 1,
                paid: paid + cost,
            },
        }
    }
}
