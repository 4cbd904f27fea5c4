// What a table of calls is made of.
use cache::{Evicted, Kept, Presence, Refusal};
use keys::Key;

/// A key, by its name in the tables.
#[derive(Clone, Copy, PartialEq)]
pub(crate) enum Name {
    A,
    B,
    C,
    D,
    E,
}

/// Whom the names stand for.
#[derive(Clone, Copy)]
pub(crate) struct Keys<K> {
    pub(crate) a: K,
    pub(crate) b: K,
    pub(crate) c: K,
    pub(crate) d: K,
    pub(crate) e: K,
}

impl<K: Key> Keys<K> {
    pub(crate) fn of(&self, name: Name) -> K {
        match name {
            Name::A => self.a,
            Name::B => self.b,
            Name::C => self.c,
            Name::D => self.d,
            Name::E => self.e,
        }
    }

    fn name(&self, key: &K) -> Option<Name> {
        [Name::A, Name::B, Name::C, Name::D, Name::E]
            .into_iter()
            .find(|name| key.same(&self.of(*name)))
    }
}

/// A value: one letter, over and over.
#[derive(Clone, Copy, PartialEq)]
pub(crate) struct Text {
    pub(crate) letter: u8,
    pub(crate) len: usize,
}

/// One call with the answer that is expected of it. Those that take a slab are given its first bytes, as many as their last number says.
#[derive(Clone, Copy)]
pub(crate) enum Step {
    Get(Name, usize, Answer),
    Keep(Name, u32, Text, usize, Answer),
    /// A lease, given back at once.
    Lease(Name, Answer),
    /// Under the lease in hand.
    Write(Text, usize, Answer),
    Drop(Name, Answer),
    State(Name, Answer),
}

/// What a call answers. A refusal goes by its number, since the numbers are what users know: a table expects one.
#[derive(Clone, Copy, PartialEq)]
pub(crate) enum Answer {
    Refused(u8),
    Done,
    Missing,
    Found(Text),
    Refreshed,
    Taken,
    Evicting(Name),
    /// The key that left has no name in the tables.
    EvictingStranger,
    Absent,
    Waiting,
    Out,
}

/// Why a table was not met.
#[derive(Clone, Copy, Debug)]
pub(crate) enum Wrong {
    /// The step at this place was answered otherwise.
    Answer(usize),
    /// A lease that the test needs was refused.
    NotLent(Refusal),
    /// A give-back of another cache's lease was not refused by 4.
    TakenBack,
    /// The bytes of a key make no part name.
    NoName,
}

impl From<Refusal> for Wrong {
    fn from(refusal: Refusal) -> Wrong {
        Wrong::NotLent(refusal)
    }
}

impl From<&[u8]> for Text {
    // No `Option`: a table names a value by letter and length, and 0 is no letter of a table.
    /// The letter is 0 where the bytes are not all one.
    fn from(part: &[u8]) -> Text {
        let letter = match part.first() {
            Some(first) if part.iter().all(|b| b == first) => *first,
            _ => 0,
        };
        Text {
            letter,
            len: part.len(),
        }
    }
}

// `workers` turns the same answers into an enum of its own; neither crate stands on the other.
impl From<Result<Option<&[u8]>, Refusal>> for Answer {
    fn from(found: Result<Option<&[u8]>, Refusal>) -> Answer {
        match found {
            Err(refusal) => Answer::Refused(refusal.number()),
            Ok(None) => Answer::Missing,
            Ok(Some(part)) => Answer::Found(Text::from(part)),
        }
    }
}

impl From<Result<(), Refusal>> for Answer {
    fn from(done: Result<(), Refusal>) -> Answer {
        match done {
            Err(refusal) => Answer::Refused(refusal.number()),
            Ok(()) => Answer::Done,
        }
    }
}

impl From<Presence> for Answer {
    fn from(presence: Presence) -> Answer {
        match presence {
            Presence::Absent => Answer::Absent,
            Presence::Waiting => Answer::Waiting,
            Presence::Out => Answer::Out,
        }
    }
}

impl Answer {
    // No `From`: it needs the names of the keys.
    /// What a keep answered, with the key that left by its name.
    pub(crate) fn of_keep<K: Key>(
        kept: Result<Kept<Evicted<K>>, Refusal>,
        keys: &Keys<K>,
    ) -> Answer {
        match kept {
            Err(refusal) => Answer::Refused(refusal.number()),
            Ok(Kept::Refreshed) => Answer::Refreshed,
            Ok(Kept::Taken) => Answer::Taken,
            Ok(Kept::TakenEvicting(evicted)) => match keys.name(&evicted.key) {
                Some(name) => Answer::Evicting(name),
                None => Answer::EvictingStranger,
            },
        }
    }
}
