// A day's work: two workers, as calls in a line, share one cache of regions.
ghost use Rattle.std.specs.Prelude.{◌≡◌};
ghost use Rattle.cache.specs.Whole.{state_of};
ghost use Rattle.borrowers.specs.Loans.{KeepsLeases};

use crate::entry::Worker;
use crate::log::Log;
use crate::region::Region;
use crate::shift::Shift;
use crate::triangle::Edge;
use cache::{Cache, Lease};
use directories::Directory;
use keys::RegionNumber;
use orders::Order;

const FIRST: RegionNumber = RegionNumber { number: 1 };

const SECOND: RegionNumber = RegionNumber { number: 2 };

const THIRD: RegionNumber = RegionNumber { number: 3 };

/// What a day leaves: its log, and region 1 as it is then.
#[derive(Clone, Copy, Debug, PartialEq)]
pub struct Day {
    pub log: Log,
    pub left: Option<Region>,
}

/// Worker one keeps two regions, leases region 1 and collapses an edge of it. Its next collapse fails, and its cleanup path tries to drop
/// the region. Meanwhile worker two keeps a third region, for which one has to leave, and wants region 1. Once worker one has given it
/// back, worker two leases it and collapses another edge.
pub fn repair<D: Directory<RegionNumber>, O: Order>(
    cache: &mut Cache<RegionNumber, D, O>,
    slab: &mut [u8],
) -> Day
    ensures leases { KeepsLeases (state_of cache.old) (state_of cache.new) }
{
    let mut shift = Shift {
        cache,
        slab,
        log: Log::new(),
    };
    shift.begin();
    shift.first_turn();
    shift.second_turn();
    let left = shift.get(Worker::Two, FIRST);
    let log = shift.end();
    Day { log, left }
}

impl<D: Directory<RegionNumber>, O: Order> Shift<'_, D, O> {
    // Worker one keeps two regions.
    fn begin(&mut self)
        ensures leases { KeepsLeases (state_of self.old.cache.now) (state_of self.new.cache.now) }
        ensures same_cache { self.new.cache.ghost_name ≡ self.old.cache.ghost_name }
    {
        self.keep(Worker::One, FIRST, 1, &[0, 1, 2, 0, 2, 3, 0, 3, 4, 1, 5, 2]);
        self.keep(Worker::One, SECOND, 9, &[6, 7, 8]);
    }

    // Worker one has region 1 on lease, and worker two works meanwhile.
    fn first_turn(&mut self)
        ensures leases { KeepsLeases (state_of self.old.cache.now) (state_of self.new.cache.now) }
        ensures same_cache { self.new.cache.ghost_name ≡ self.old.cache.ghost_name }
    {
        if let Some(lease) = self.lease(Worker::One, FIRST) {
            self.collapse_twice(&lease);
            self.meanwhile();
            self.give_back(Worker::One, FIRST, lease);
        }
    }

    // The second collapse fails. Its cleanup path tries to drop the region, and cannot, since the region is out.
    fn collapse_twice(&mut self, lease: &Lease)
        ensures leases { KeepsLeases (state_of self.old.cache.now) (state_of self.new.cache.now) }
        ensures same_cache { self.new.cache.ghost_name ≡ self.old.cache.ghost_name }
    {
        self.collapse(Worker::One, lease, FIRST, Edge { keep: 1, remove: 2 });
        self.collapse(Worker::One, lease, FIRST, Edge { keep: 5, remove: 4 });
        self.drop_region(Worker::One, FIRST);
    }

    // Worker two keeps a third region, and then wants region 1.
    fn meanwhile(&mut self)
        ensures leases { KeepsLeases (state_of self.old.cache.now) (state_of self.new.cache.now) }
        ensures same_cache { self.new.cache.ghost_name ≡ self.old.cache.ghost_name }
    {
        self.keep(Worker::Two, THIRD, 2, &[9, 10, 11, 10, 11, 12]);
        self.ask_for(Worker::Two, FIRST);
        self.keep(Worker::Two, FIRST, 2, &[0, 1, 2]);
        self.state(Worker::Two, FIRST);
        self.get(Worker::Two, FIRST);
    }

    // Worker two leases region 1 and collapses another edge.
    fn second_turn(&mut self)
        ensures leases { KeepsLeases (state_of self.old.cache.now) (state_of self.new.cache.now) }
        ensures same_cache { self.new.cache.ghost_name ≡ self.old.cache.ghost_name }
    {
        if let Some(lease) = self.lease(Worker::Two, FIRST) {
            self.collapse(Worker::Two, &lease, FIRST, Edge { keep: 3, remove: 4 });
            self.give_back(Worker::Two, FIRST, lease);
        }
    }
}
