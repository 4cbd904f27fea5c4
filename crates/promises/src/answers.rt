ghost use Rattle.std.specs.Prelude.{◌≡◌};
ghost use Rattle.promises.specs.Numbers.{number_of};

/// Why a call is declined.
#[derive(Clone, Copy, Debug, PartialEq)]
pub enum Refusal {
    /// The cost is 0 or above the order's span.
    BadCost,
    /// The value is longer than a chunk.
    LongValue,
    /// The slab has fewer bytes than the slots own.
    ShortSlab,
    /// The lease is of another cache, or its slot is not out.
    UnknownLease,
    /// The key is not held.
    NotHeld,
    /// The key is out on lease.
    OnLease,
    /// The directory does not admit the key.
    NotAdmitted,
    /// The key is not held, and every slot is out.
    AllOut,
}

impl Refusal {
    // A number, since that is what users know a refusal by; code tells refusals apart by the enum.
    /// The number by which users know this refusal.
    pub fn number(self) -> u8
        ensures { result ≡ number_of self }
    {
        match self {
            Refusal::BadCost => 1,
            Refusal::LongValue => 2,
            Refusal::ShortSlab => 3,
            Refusal::UnknownLease => 4,
            Refusal::NotHeld => 5,
            Refusal::OnLease => 6,
            Refusal::NotAdmitted => 7,
            Refusal::AllOut => 8,
        }
    }
}

/// What an accepted keep did; the last case carries what left.
#[derive(Clone, Copy, Debug, PartialEq)]
pub enum Kept<E> {
    Refreshed,
    Taken,
    TakenEvicting(E),
}

/// A region that was evicted: its key, as it was first entered.
#[derive(Clone, Copy, Debug, PartialEq)]
pub struct Evicted<K> {
    pub key: K,
}

/// Where a region is.
#[derive(Clone, Copy, Debug, PartialEq)]
pub enum Presence {
    Absent,
    Waiting,
    Out,
}
