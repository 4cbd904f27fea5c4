// A shift: workers on one cache, and the calls that they make, each noted in a log with what came of it.
ghost use Rattle.std.specs.Prelude.{◌≡◌, true, Ok};
ghost use Rattle.promises.specs.State.{known};
ghost use Rattle.promises.specs.Events.{gives_back};
ghost use Rattle.cache.specs.Leases.{ticket_of};
ghost use Rattle.cache.specs.Whole.{state_of, Makes};
ghost use Rattle.borrowers.specs.Loans.{KeepsLeases};
ghost use Rattle.workers.specs.Shifts.{Lends};

use crate::entry::{Deed, Entry, Worker};
use crate::log::Log;
use crate::outcome::Outcome;
use crate::region::Region;
use crate::triangle::Edge;
use cache::{Cache, Lease};
use directories::Directory;
use keys::RegionNumber;
use orders::Order;

/// A cache and its slab while workers share them, with the log of what they do.
#[derive(Drop)]
pub(crate) struct Shift<'a, D: Directory<RegionNumber>, O: Order> {
    pub(crate) cache: &'a mut Cache<RegionNumber, D, O>,
    pub(crate) slab: &'a mut [u8],
    pub(crate) log: Log,
}

// Who works and on which region are given apart, since a turn mixes both as it likes. Each call leaves every lease that is out, and keeps the
// shift on the cache that it was begun with.
impl<'a, D: Directory<RegionNumber>, O: Order> Shift<'a, D, O> {
    /// Ends the shift: answers its log, and leaves the cache as it is then.
    pub(crate) fn end(self) -> Log
        ensures { self.exit.0.now ≡ self.entry.cache.now }
    {
        self.log
    }

    /// Keeps a region at a cost.
    pub(crate) fn keep(&mut self, worker: Worker, key: RegionNumber, cost: u32, bytes: &[u8])
        ensures leases { KeepsLeases (state_of self.old.cache.now) (state_of self.new.cache.now) }
        ensures same_cache { self.new.cache.ghost_name ≡ self.old.cache.ghost_name }
    {
        let kept = self.cache.keep(key, cost, bytes, self.slab);
        self.log
            .note(Entry::new(worker, Deed::Keep(cost), key, kept));
    }

    /// Gets a region.
    pub(crate) fn get(&mut self, worker: Worker, key: RegionNumber) -> Option<Region>
        ensures leases { KeepsLeases (state_of self.old.cache.now) (state_of self.new.cache.now) }
        ensures same_cache { self.new.cache.ghost_name ≡ self.old.cache.ghost_name }
    {
        let outcome = look_up(self.cache, key, self.slab);
        self.log.note(Entry::new(worker, Deed::Get, key, outcome));
        match outcome {
            Outcome::Found(region) => Some(region),
            _ => None,
        }
    }

    // As `drop_region` by its shape, with another call and another deed: one function for both would take the call as an argument.
    /// Asks where a region is.
    pub(crate) fn state(&mut self, worker: Worker, key: RegionNumber)
        ensures same { self.new.cache ≡ self.old.cache }
    {
        let presence = self.cache.state(&key);
        self.log
            .note(Entry::new(worker, Deed::State, key, presence));
    }

    /// Drops a region.
    pub(crate) fn drop_region(&mut self, worker: Worker, key: RegionNumber)
        ensures leases { KeepsLeases (state_of self.old.cache.now) (state_of self.new.cache.now) }
        ensures same_cache { self.new.cache.ghost_name ≡ self.old.cache.ghost_name }
    {
        let done = self.cache.drop(&key);
        self.log.note(Entry::new(worker, Deed::Drop, key, done));
    }

    /// Leases a region, or notes why it cannot.
    pub(crate) fn lease(&mut self, worker: Worker, key: RegionNumber) -> Option<Lease>
        ensures lends { Lends key (state_of self.old.cache.now) result (state_of self.new.cache.now) }
        ensures same_cache { self.new.cache.ghost_name ≡ self.old.cache.ghost_name }
    {
        match self.cache.lease(&key) {
            Err(refusal) => {
                self.log.note(Entry::new(worker, Deed::Lease, key, refusal));
                None
            }
            Ok(lease) => {
                self.log.note(Entry::new(worker, Deed::Lease, key, ()));
                Some(lease)
            }
        }
    }

    /// Gives a lease back to a cache that knows it, and so takes it.
    pub(crate) fn give_back(&mut self, worker: Worker, key: RegionNumber, lease: Lease)
        requires { known (state_of self.old.cache.now).table (ticket_of lease) ≡ true }
        ensures step { Makes self.old.cache.now (gives_back (ticket_of lease) (Ok tt)) self.new.cache.now }
        ensures same_cache { self.new.cache.ghost_name ≡ self.old.cache.ghost_name }
    {
        self.cache.give_back(lease).unwrap();
        self.log.note(Entry::new(worker, Deed::GiveBack, key, ()));
    }

    /// Asks for a lease and, where there is one, gives it back at once.
    pub(crate) fn ask_for(&mut self, worker: Worker, key: RegionNumber)
        ensures leases { KeepsLeases (state_of self.old.cache.now) (state_of self.new.cache.now) }
        ensures same_cache { self.new.cache.ghost_name ≡ self.old.cache.ghost_name }
    {
        if let Some(lease) = self.lease(worker, key) {
            self.cache.give_back(lease).unwrap();
        }
    }

    /// Collapses an edge of a region that is out, and writes the result to it. A collapse that fails writes nothing.
    pub(crate) fn collapse(&mut self, worker: Worker, lease: &Lease, key: RegionNumber, edge: Edge)
        ensures leases { KeepsLeases (state_of self.old.cache.now) (state_of self.new.cache.now) }
        ensures same_cache { self.new.cache.ghost_name ≡ self.old.cache.ghost_name }
    {
        let outcome = self.rewrite(lease, key, edge);
        self.log
            .note(Entry::new(worker, Deed::Collapse(edge), key, outcome));
    }

    // The same, not yet noted.
    fn rewrite(&mut self, lease: &Lease, key: RegionNumber, edge: Edge) -> Outcome
        ensures leases { KeepsLeases (state_of self.old.cache.now) (state_of self.new.cache.now) }
        ensures same_cache { self.new.cache.ghost_name ≡ self.old.cache.ghost_name }
    {
        match look_up(self.cache, key, self.slab) {
            Outcome::Found(region) => match region.collapse(edge) {
                Ok(after) => self.cache.write(lease, &after.pack(), self.slab).into(),
                Err(none) => none.into(),
            },
            other => other,
        }
    }
}

// What comes of getting a region. It takes the slab as `&mut`: the borrow check has no rule yet for a shared loan of a field of `Shift`
// while another field is lent as `&mut`.
fn look_up<D: Directory<RegionNumber>, O: Order>(
    cache: &mut Cache<RegionNumber, D, O>,
    key: RegionNumber,
    slab: &mut [u8],
) -> Outcome
    ensures leases { KeepsLeases (state_of cache.old) (state_of cache.new) }
    ensures same_slab { slab.new ≡ slab.old }
{
    cache.get(&key, slab).into()
}
