ghost use Rattle.std.specs.Prelude.{◌≡◌};
ghost use Rattle.cache.specs.Leases.{ticket_of};

use promises::Ticket;

/// The right to a region that is out. Only a cache makes one and ends it: it can be neither built nor copied nor let go elsewhere.
pub struct Lease {
    pub(crate) ticket: Ticket,
}

impl Lease {
    /// What the lease shows: whose it is, and of which slot.
    pub fn ticket(&self) -> Ticket
        ensures { result ≡ ticket_of self.now }
    {
        self.ticket
    }
}
