use cache::{Evicted, Kept, Presence, Refusal, Ticket};

// The fields have no names: they are the parameters of the call, in its order, and no two have one type.
/// What is asked of a cache. A lease is named by its place in the list of those in hand, the oldest first.
#[derive(Drop)]
pub enum Ask<K> {
    State(K),
    Get(K),
    Keep(K, u32, Vec<u8>),
    Lease(K),
    Write(usize, Vec<u8>),
    GiveBack(usize),
    Drop(K),
}

/// What happened: a call with what it was given and what it answered. Of the value that a get found it tells the length, so that nothing
/// is copied.
#[derive(Drop)]
pub enum Happening<K> {
    State(K, Presence),
    Get(K, Result<Option<usize>, Refusal>),
    Keep(K, u32, Result<Kept<Evicted<K>>, Refusal>),
    Lease(K, Result<Ticket, Refusal>),
    Write(Ticket, Result<(), Refusal>),
    GiveBack(Ticket, Result<(), Refusal>),
    Drop(K, Result<(), Refusal>),
    /// The ask named no lease, so no call was made.
    Idle,
}
