use directories::MOST_SLOTS;

/// Whether a slot's region is out on lease.
#[derive(Clone, Copy, Debug, PartialEq)]
pub enum Lending {
    Idle,
    Lent,
}

/// What a cache remembers of a slot.
#[derive(Clone, Copy)]
pub struct Record {
    pub cost: u32,
    pub len: usize,
    pub lending: Lending,
}

/// The plain inner part of a cache: its mark, its chunk size and a record for each slot.
#[derive(Drop)]
pub struct Table {
    pub mark: u32,
    pub chunk: usize,
    pub records: [Record; MOST_SLOTS],
}

/// What a lease shows: whose it is, and of which slot.
#[derive(Clone, Copy, Debug, PartialEq)]
pub struct Ticket {
    pub mark: u32,
    pub slot: usize,
}
