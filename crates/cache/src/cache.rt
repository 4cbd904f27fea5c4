ghost use Rattle.std.specs.Prelude.{◌≡◌, ◌<◌, replicate, IfSome};
ghost use Rattle.promises.specs.State.{Sound, blank, held_slot, out_at, slots as slot_count};
ghost use Rattle.promises.specs.Events.{gets, keeps, leases, writes, gives_back, drops, tells};
ghost use Rattle.promises.specs.Steps.{presence as presence_at, short_slab};
ghost use Rattle.promises.specs.Lines.{made};
ghost use Rattle.promises.specs.Promises.{FromMaking};
ghost use Rattle.promises.specs.Props.{sound_prop};
ghost use Rattle.cache.specs.Holding.{FindsWaiting};
ghost use Rattle.cache.specs.Leases.{ticket_of, ticketed, Known, refused_by, HandsBack};
ghost use Rattle.cache.specs.Parts.{seen, Lies};

mod dropping;
mod keeping;
mod lending;
mod reading;

use crate::declined::Declined;
use crate::lease::Lease;
use directories::{Directory, MOST_SLOTS};
use keys::Key;
use orders::Order;
use promises::{Evicted, Kept, Lending, Presence, Record, Refusal, Table};
use std::marker::PhantomData;

// No chunk is longer.
const LONGEST_CHUNK: usize = 4_096;

/// Regions in the slots of a slab: a directory says which key is at which slot, an order says who leaves first, and a table remembers the
/// cost, the length and the lending of each slot.
pub struct Cache<K: Key, D: Directory<K>, O: Order> {
    kind: PhantomData<K>,
    table: Table,
    directory: D,
    order: O,
    // Between calls the three parts agree.
    ghost sound: { Sound K.Key.sameness (record { directory = D.Directory.meaning directory; order = O.Order.meaning order; table = table }) } by { sound_prop _ _ },
}

impl<K: Key, D: Directory<K>, O: Order> Cache<K, D, O> {
    ghost use Rattle.cache.specs.Whole.{state_of, making, Makes, KeepsPromise};

    /// An empty cache of these parts. A chunk size outside 1 to 4,096 is taken as the nearer end.
    pub fn new(mut directory: D, mut order: O, mark: u32, chunk: usize) -> Cache<K, D, O>
        ensures made { state_of result ≡ made (making D.Directory O.Order directory order mark chunk) }
        ensures promise { FromMaking K.Key.sameness (making D.Directory O.Order directory order mark chunk) }
    {
        order.empty();
        directory.empty((order.size() as usize).min(MOST_SLOTS));
        let records = blank_records();
        let table = Table {
            mark,
            chunk: chunk.clamp(1, LONGEST_CHUNK),
            records,
        };
        Cache {
            kind: PhantomData,
            table,
            directory,
            order,
        }
    }

    /// Ends the cache, and hands its directory and its order back.
    pub fn into_parts(self) -> (D, O)
        ensures directory { result.0 ≡ self.directory }
        ensures order { result.1 ≡ self.order }
    {
        let Cache {
            kind: _,
            table: _,
            directory,
            order,
        } = self;
        (directory, order)
    }

    /// How many slots the cache has.
    pub fn slots(&self) -> usize
        ensures { result ≡ slot_count (state_of self.now) }
    {
        self.directory.size()
    }

    // Each call below is made by a private function that promises its step alone: from that the whole promise follows in one place.

    /// The value of a held region, as a part of the slab, or `None` where the key is not held. A waiting region is touched: it becomes
    /// the newest, with its full cost for its credit. A region that is out is found and left as it is.
    pub fn get<'s>(&mut self, key: &K, slab: &'s [u8]) -> Result<Option<&'s [u8]>, Refusal>
        ensures step { Makes self.old (gets key.now slab.now (seen slab.entry result)) self.new }
        ensures promise { KeepsPromise self.old (gets key.now slab.now (seen slab.entry result)) self.new }
        ensures lies { Lies slab.entry result }
    {
        self.fetch(key, slab)
    }

    /// Keeps a value under a key: a held region is refreshed, a new one is taken at an unused slot, and where there is none the first of
    /// the order leaves for it.
    pub fn keep(
        &mut self,
        key: K,
        cost: u32,
        value: &[u8],
        slab: &mut [u8],
    ) -> Result<Kept<Evicted<K>>, Refusal>
        ensures step { Makes self.old (keeps key cost value.now slab.old result slab.new) self.new }
        ensures promise { KeepsPromise self.old (keeps key cost value.now slab.old result slab.new) self.new }
    {
        self.store(key, cost, value, slab)
    }

    /// Lends a waiting region: until it is given back it is out, and it can be neither evicted nor kept nor dropped.
    pub fn lease(&mut self, key: &K) -> Result<Lease, Refusal>
        ensures step { Makes self.old (leases key.now (ticketed result)) self.new }
        ensures promise { KeepsPromise self.old (leases key.now (ticketed result)) self.new }
        ensures known { Known self.new.table result }
    {
        self.lend(key)
    }

    /// Writes a value to the region of a lease, in the place of the one before.
    pub fn write(&mut self, lease: &Lease, value: &[u8], slab: &mut [u8]) -> Result<(), Refusal>
        ensures step { Makes self.old (writes (ticket_of lease.now) value.now slab.old result slab.new) self.new }
        ensures promise { KeepsPromise self.old (writes (ticket_of lease.now) value.now slab.old result slab.new) self.new }
    {
        self.rewrite(lease, value, slab)
    }

    /// Takes a lease back: its region waits again, the newest, with its full cost for its credit. A lease that is not known comes back.
    pub fn give_back(&mut self, lease: Lease) -> Result<(), Declined<Lease>>
        ensures step { Makes self.old (gives_back (ticket_of lease) (refused_by result)) self.new }
        ensures promise { KeepsPromise self.old (gives_back (ticket_of lease) (refused_by result)) self.new }
        ensures token { HandsBack lease result }
    {
        self.take_back(lease)
    }

    /// Removes a waiting region.
    pub fn drop(&mut self, key: &K) -> Result<(), Refusal>
        ensures step { Makes self.old (drops key.now result) self.new }
        ensures promise { KeepsPromise self.old (drops key.now result) self.new }
    {
        self.remove(key)
    }

    /// Whether a region is absent, waiting or out.
    pub fn state(&self, key: &K) -> Presence
        ensures step { Makes self.now (tells key.now result) self.now }
        ensures promise { KeepsPromise self.now (tells key.now result) self.now }
    {
        self.presence(key)
    }

    // Where a region is.
    fn presence(&self, key: &K) -> Presence
        ensures { result ≡ presence_at self.now.table (held_slot K.Key.sameness (state_of self.now) key.now) }
    {
        match self.find(key) {
            None => Presence::Absent,
            Some(slot) if self.is_out(slot) => Presence::Out,
            Some(_) => Presence::Waiting,
        }
    }

    // The slot of a held key.
    fn find(&self, key: &K) -> Option<usize>
        ensures slot { result ≡ held_slot K.Key.sameness (state_of self.now) key.now }
        ensures below { IfSome result (λ i. i < 1024) }
    {
        self.directory.find(key)
    }

    // The slot of a region that is held and not out.
    fn waiting_slot(&self, key: &K) -> Result<usize, Refusal>
        ensures { FindsWaiting K.Key.sameness (state_of self.now) key.now result }
    {
        let slot = self.find(key).ok_or(Refusal::NotHeld)?;
        if self.is_out(slot) {
            return Err(Refusal::OnLease);
        }
        Ok(slot)
    }

    // Whether a slab of so many bytes has fewer than the slots own.
    fn is_short(&self, len: usize) -> bool
        ensures { result ≡ short_slab (state_of self.now) len }
    {
        len < self.slots() * self.table.chunk
    }

    // Whether the region at a slot is out.
    fn is_out(&self, slot: usize) -> bool
        ensures { result ≡ out_at self.now.table slot }
    {
        slot < MOST_SLOTS && self.table.records[slot].lending == Lending::Lent
    }
}

// The records of a cache that never held a region.
fn blank_records() -> [Record; MOST_SLOTS]
    ensures { result ≡ replicate 1024 blank }
{
    [Record {
        cost: 0,
        len: 0,
        lending: Lending::Idle,
    }; MOST_SLOTS]
}
