ghost use Rattle.std.specs.Prelude.{◌≡◌, ℕ, ◌-◌, ◌<◌, ◌≤◌, length, take};
ghost use Rattle.std.specs.List.{remove};
ghost use Rattle.orders.specs.Meaning.{fallen, some_due};
ghost use Rattle.orders.specs.FlatTable.{Neat, Found, FirstLeast, permitted};
ghost use Rattle.orders.specs.Props.{neat_prop};
ghost use Rattle.orders.specs.Wheels.{Over};
ghost use Rattle.orders.specs.FlatTables.{neat_lawful};

use crate::{Entry, Expelled, FLAT_SPAN, Order, PLACES, SLOTS};

/// The flat order: a table of the entries in the order of their placing, which is searched.
#[derive(Drop)]
pub struct FlatOrder {
    // A table with its count, so that `empty` writes one number: a vector of fixed capacity blanks each place.
    entries: [Entry; PLACES],
    count: usize,
    ghost few: { count ≤ 1024 },
    ghost neat: { Neat (take count entries) } by { neat_prop (take count entries) },
}

impl FlatOrder {
    ghost use Rattle.orders.specs.Fresh.{FreshFlat};

    /// Nothing waits.
    pub fn new() -> FlatOrder
        ensures { FreshFlat result }
    {
        FlatOrder {
            entries: [Entry { slot: 0, credit: 0 }; PLACES],
            count: 0,
        }
    }
}

// Whether a placing of that slot and credit is within the order's limits. (Each order has limits of its own, and this one tests them apart.)
fn within_limits(slot: u32, credit: u32) -> bool
    ensures { result ≡ permitted slot credit }
{
    slot < SLOTS && credit > 0 && credit <= FLAT_SPAN
}

// Where the slot stands.
fn find(entries: &[Entry], slot: u32) -> Option<usize>
    ensures { Found entries.now slot result }
{
    entries.iter().position(|entry| entry.slot == slot)
}

// The first of the entries that have the least credit.
fn first_least(entries: &[Entry]) -> usize
    requires { 0 < length entries.now }
    ensures { FirstLeast entries.now result }
{
    // A loop over the place of the best so far: `min_by_key` answers an entry, and `remove` wants its place.
    let mut best = 0;
    for (i, entry) in entries.iter().enumerate() {
        if entry.credit < entries[best].credit {
            best = i;
        }
    }
    best
}

// Whether some entry has credit 0.
fn any_due(entries: &[Entry]) -> bool
    ensures { result ≡ some_due entries.now }
{
    entries.iter().any(|entry| entry.credit == 0)
}

// Takes the entry at `at` out of the first `count`; the later ones move up.
fn close_gap(entries: &mut [Entry], count: usize, at: usize)
    requires { (at < count) × (count ≤ length entries.old) }
    ensures { take (count - 1) entries.new ≡ remove (take count entries.old) at }
{
    entries[at..count].rotate_left(1);
}

// Takes `by` off every credit.
fn lower(entries: &mut [Entry], by: u32)
    requires { Over by entries.old }
    ensures { entries.new ≡ fallen by entries.old }
{
    for entry in entries.iter_mut() {
        entry.credit -= by;
    }
}

// Takes `by` off the credits of the first `count`. (A function of its own, since a struct with a ghost field lends a field whole, and no part of it.)
fn lower_first(entries: &mut [Entry], count: usize, by: u32)
    requires within { count ≤ length entries.old }
    requires over { Over by (take count entries.old) }
    ensures { take count entries.new ≡ fallen by (take count entries.old) }
{
    lower(&mut entries[..count], by);
}

impl Order for FlatOrder {
    ghost use Rattle.orders.specs.Kinds.{flats};

    ghost meaning = { flats.meaning };

    ghost rested = { flats.rested };

    ghost lawful = { λ o. neat_lawful (take o.count o.entries) o.neat };

    fn size(&self) -> u32 {
        self.entries.len() as u32
    }

    fn span(&self) -> u32 {
        FLAT_SPAN
    }

    fn place(&mut self, slot: u32, credit: u32) -> bool {
        if !within_limits(slot, credit) {
            return false;
        }
        let count = self.count;
        match find(&self.entries[..count], slot) {
            Some(_) => false,
            None => {
                self.entries[count] = Entry { slot, credit };
                self.count = count + 1;
                true
            }
        }
    }

    fn withdraw(&mut self, slot: u32) -> bool {
        let count = self.count;
        match find(&self.entries[..count], slot) {
            None => false,
            Some(at) => {
                close_gap(&mut self.entries, count, at);
                self.count = count - 1;
                true
            }
        }
    }

    fn expel(&mut self) -> Option<Expelled> {
        let count = self.count;
        if count == 0 {
            return None;
        }
        let i = first_least(&self.entries[..count]);
        let Entry { slot, credit } = self.entries[i];
        close_gap(&mut self.entries, count, i);
        lower_first(&mut self.entries, count - 1, credit);
        self.count = count - 1;
        Some(Expelled { slot, credit })
    }

    fn due(&self) -> bool {
        any_due(&self.entries[..self.count])
    }

    fn empty(&mut self) {
        self.count = 0;
    }
}
