// What comes of deeds, and the words that tell it.
ghost use Rattle.std.specs.Prelude.{◌≡◌, MatchResult};
ghost use Rattle.workers.specs.Outcomes.{of_kept, of_presence, Shows};
ghost use Rattle.workers.specs.declared.outcome.Outcome.TheVariants.{Done, Refused, NoEdge};

use crate::region::{NoEdge, Region};
use cache::{Evicted, Kept, Presence, Refusal};
use keys::RegionNumber;
use std::fmt;

/// What came of a deed.
#[derive(Clone, Copy, Debug, PartialEq)]
pub enum Outcome {
    Done,
    Refused(Refusal),
    NoEdge,
    Taken,
    Refreshed,
    Evicted(RegionNumber),
    Absent,
    Waiting,
    Out,
    Found(Region),
    Missing,
    Unreadable,
}

impl From<()> for Outcome {
    ghost from_gives = { λ _ r. r ≡ Done };

    fn from(_done: ()) -> Outcome {
        Outcome::Done
    }
}

impl From<Kept<Evicted<RegionNumber>>> for Outcome {
    ghost from_gives = { λ kept r. r ≡ of_kept kept };

    fn from(kept: Kept<Evicted<RegionNumber>>) -> Outcome {
        match kept {
            Kept::Refreshed => Outcome::Refreshed,
            Kept::Taken => Outcome::Taken,
            Kept::TakenEvicting(evicted) => Outcome::Evicted(evicted.key),
        }
    }
}

impl From<Presence> for Outcome {
    ghost from_gives = { λ presence r. r ≡ of_presence presence };

    fn from(presence: Presence) -> Outcome {
        match presence {
            Presence::Absent => Outcome::Absent,
            Presence::Waiting => Outcome::Waiting,
            Presence::Out => Outcome::Out,
        }
    }
}

impl From<Option<&[u8]>> for Outcome {
    ghost from_gives = { λ found r. Shows found r };

    fn from(found: Option<&[u8]>) -> Outcome {
        match found {
            None => Outcome::Missing,
            Some(bytes) => Region::read(bytes).map_or(Outcome::Unreadable, Outcome::Found),
        }
    }
}

impl From<NoEdge> for Outcome {
    ghost from_gives = { λ _ r. r ≡ NoEdge };

    fn from(_none: NoEdge) -> Outcome {
        Outcome::NoEdge
    }
}

impl From<Refusal> for Outcome {
    ghost from_gives = { λ refusal r. r ≡ Refused refusal };

    fn from(refusal: Refusal) -> Outcome {
        Outcome::Refused(refusal)
    }
}

impl<T: Into<Outcome>, E: Into<Outcome>> From<Result<T, E>> for Outcome {
    ghost from_gives = { λ answer r. MatchResult answer (λ value. T.converts value r) (λ error. E.converts error r) };

    fn from(answer: Result<T, E>) -> Outcome {
        match answer {
            Ok(value) => value.into(),
            Err(error) => error.into(),
        }
    }
}

impl fmt::Display for Outcome {
    fn fmt<W: fmt::Write>(&self, f: &mut fmt::Formatter<W>) -> fmt::Result {
        match self {
            Outcome::Done => write!(f, "done"),
            Outcome::Refused(refusal) => write!(f, "refused, number {}", refusal.number()),
            Outcome::NoEdge => write!(f, "failed, the region has no such edge"),
            Outcome::Taken => write!(f, "taken"),
            Outcome::Refreshed => write!(f, "refreshed"),
            Outcome::Evicted(key) => write!(f, "taken, and region {} evicted", key.number),
            Outcome::Absent => write!(f, "absent"),
            Outcome::Waiting => write!(f, "waiting"),
            Outcome::Out => write!(f, "out on lease"),
            Outcome::Found(region) => write!(f, "{region}"),
            Outcome::Missing => write!(f, "missing"),
            Outcome::Unreadable => write!(f, "bytes that are no region"),
        }
    }
}
