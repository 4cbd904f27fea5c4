// Lending a region, writing to it, and taking it back.
ghost use Rattle.std.specs.Prelude.{◌≡◌, ◌<◌, true};
ghost use Rattle.promises.specs.State.{known};
ghost use Rattle.promises.specs.Events.{leases, writes, gives_back};
ghost use Rattle.cache.specs.Leases.{ticket_of, ticketed, Known, refused_by, HandsBack};

use crate::bytes::fill;
use crate::cache::Cache;
use crate::declined::Declined;
use crate::lease::Lease;
use directories::Directory;
use keys::Key;
use orders::Order;
use promises::{Lending, Refusal, Ticket};

impl<K: Key, D: Directory<K>, O: Order> Cache<K, D, O> {
    ghost use Rattle.cache.specs.Whole.{Makes};

    // Takes a waiting region out of the order, and marks it lent.
    pub(super) fn lend(&mut self, key: &K) -> Result<Lease, Refusal>
        ensures step { Makes self.old (leases key.now (ticketed result)) self.new }
        ensures known { Known self.new.table result }
    {
        let slot = self.waiting_slot(key)?;
        self.order.withdraw(slot as u32);
        self.table.records[slot].lending = Lending::Lent;
        let mark = self.table.mark;
        Ok(Lease {
            ticket: Ticket { mark, slot },
        })
    }

    // Writes over the value of a region that is out.
    pub(super) fn rewrite(
        &mut self,
        lease: &Lease,
        value: &[u8],
        slab: &mut [u8],
    ) -> Result<(), Refusal>
        ensures { Makes self.old (writes (ticket_of lease.now) value.now slab.old result slab.new) self.new }
    {
        if value.len() > self.table.chunk {
            return Err(Refusal::LongValue);
        }
        if self.is_short(slab.len()) {
            return Err(Refusal::ShortSlab);
        }
        if !self.knows(lease) {
            return Err(Refusal::UnknownLease);
        }
        let slot = lease.ticket.slot;
        fill(slab, slot * self.table.chunk, value);
        self.table.records[slot].len = value.len();
        Ok(())
    }

    // Marks a region that is out idle, and places it at its full cost.
    pub(super) fn take_back(&mut self, lease: Lease) -> Result<(), Declined<Lease>>
        ensures step { Makes self.old (gives_back (ticket_of lease) (refused_by result)) self.new }
        ensures token { HandsBack lease result }
    {
        if !self.knows(&lease) {
            return Err(Declined {
                refusal: Refusal::UnknownLease,
                token: lease,
            });
        }
        let Lease { ticket } = lease;
        let slot = ticket.slot;
        let cost = self.table.records[slot].cost;
        self.order.place(slot as u32, cost);
        self.table.records[slot].lending = Lending::Idle;
        Ok(())
    }

    // Whether the lease is of this cache, and its slot is out.
    fn knows(&self, lease: &Lease) -> bool
        ensures answer { result ≡ known self.now.table (ticket_of lease.now) }
        ensures below { result ≡ true → lease.now.ticket.slot < 1024 }
    {
        lease.ticket.mark == self.table.mark && self.is_out(lease.ticket.slot)
    }
}
