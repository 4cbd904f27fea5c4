// Keeping a value under a key.
ghost use Rattle.std.specs.Prelude.{◌≡◌, ◌+◌, ◌*◌, ◌<◌, ◌≤◌, length};
ghost use Rattle.std.specs.Result.{result_err};
ghost use Rattle.orders.specs.Meaning.{placed};
ghost use Rattle.promises.specs.declared.records.Lending.TheVariants.{Idle};
ghost use Rattle.promises.specs.State.{with_record};
ghost use Rattle.promises.specs.Events.{keeps};
ghost use Rattle.promises.specs.Steps.{written};
ghost use Rattle.cache.specs.Keeping.{early_fault, Leaves};

use crate::bytes::fill;
use crate::cache::Cache;
use directories::Directory;
use keys::Key;
use orders::Order;
use promises::{Evicted, Kept, Lending, Record, Refusal, Table};

impl<K: Key, D: Directory<K>, O: Order> Cache<K, D, O> {
    ghost use Rattle.cache.specs.Whole.{state_of, Makes};

    // Refreshes a held region, or takes a new one, for which another may have to leave. Cost, value and slab come from three places of a caller, and
    // a struct of them would be made for this one call.
    pub(super) fn store(
        &mut self,
        key: K,
        cost: u32,
        value: &[u8],
        slab: &mut [u8],
    ) -> Result<Kept<Evicted<K>>, Refusal>
        ensures { Makes self.old (keeps key cost value.now slab.old result slab.new) self.new }
    {
        self.check(&key, cost, value.len(), slab.len())?;
        if let Some(slot) = self.find(&key) {
            self.order.withdraw(slot as u32);
            settle(&mut self.order, &mut self.table, slot, cost, value, slab);
            return Ok(Kept::Refreshed);
        }
        if let Some(slot) = self.directory.enter(key) {
            settle(&mut self.order, &mut self.table, slot, cost, value, slab);
            return Ok(Kept::Taken);
        }
        let Some(left) = self.evict() else {
            return Err(Refusal::AllOut);
        };
        let Some(slot) = self.directory.enter(key) else {
            unreachable()
        };
        settle(&mut self.order, &mut self.table, slot, cost, value, slab);
        Ok(Kept::TakenEvicting(Evicted { key: left }))
    }

    // The first of keep's refusals that applies, but for the last, which shows only where nobody waits.
    fn check(&self, key: &K, cost: u32, len: usize, room: usize) -> Result<(), Refusal>
        ensures { result_err result ≡ early_fault K.Key.sameness (state_of self.now) key.now cost len room }
    {
        if cost == 0 || cost > self.order.span() {
            return Err(Refusal::BadCost);
        }
        if len > self.table.chunk {
            return Err(Refusal::LongValue);
        }
        if self.is_short(room) {
            return Err(Refusal::ShortSlab);
        }
        if let Some(slot) = self.find(key) {
            if self.is_out(slot) {
                return Err(Refusal::OnLease);
            }
        }
        if !self.directory.admits(key) {
            return Err(Refusal::NotAdmitted);
        }
        Ok(())
    }

    // Lets the first of the order go, and answers its key.
    fn evict(&mut self) -> Option<K>
        ensures { Leaves (state_of self.old) result (state_of self.new) }
    {
        let first = self.order.expel()?;
        let Some(left) = self.directory.name(first.slot as usize) else {
            unreachable()
        };
        self.directory.remove(&left);
        Some(left)
    }
}

// Writes a value to a slot, and places the slot with a new cost. It is given the parts, since they do not agree before it: the slot is out of the
// order, or new.
fn settle<O: Order>(
    order: &mut O,
    table: &mut Table,
    slot: usize,
    cost: u32,
    value: &[u8],
    slab: &mut [u8],
)
    requires below { slot < 1024 }
    requires room { slot * table.old.chunk + length value.now ≤ length slab.old }
    ensures order { O.Order.meaning order.new ≡ placed (O.Order.meaning order.old) slot cost }
    ensures table { table.new ≡ with_record table.old slot (record { cost = cost; len = length value.now; lending = Idle }) }
    ensures bytes { slab.new ≡ written slab.old (slot * table.old.chunk) value.now }
{
    fill(slab, slot * table.chunk, value);
    order.place(slot as u32, cost);
    table.records[slot] = Record {
        cost,
        len: value.len(),
        lending: Lending::Idle,
    };
}
