// Getting a region's value.
ghost use Rattle.std.specs.Prelude.{◌≡◌, true, is_some};
ghost use Rattle.directories.specs.Meaning.{key_at};
ghost use Rattle.promises.specs.Events.{gets};
ghost use Rattle.promises.specs.Steps.{touched};
ghost use Rattle.cache.specs.Parts.{seen, Lies};

use crate::cache::Cache;
use directories::Directory;
use keys::Key;
use orders::Order;
use promises::Refusal;

impl<K: Key, D: Directory<K>, O: Order> Cache<K, D, O> {
    ghost use Rattle.cache.specs.Whole.{state_of, Makes};

    // Finds a value in the slab, and touches its region.
    pub(super) fn fetch<'s>(&mut self, key: &K, slab: &'s [u8]) -> Result<Option<&'s [u8]>, Refusal>
        ensures step { Makes self.old (gets key.now slab.now (seen slab.entry result)) self.new }
        ensures lies { Lies slab.entry result }
    {
        if self.is_short(slab.len()) {
            return Err(Refusal::ShortSlab);
        }
        let Some(slot) = self.find(key) else {
            return Ok(None);
        };
        let from = slot * self.table.chunk;
        let len = self.table.records[slot].len;
        self.touch(slot);
        Ok(Some(&slab[from..from + len]))
    }

    // Makes a waiting region the newest, with its full cost for its credit.
    fn touch(&mut self, slot: usize)
        requires { is_some (key_at (state_of self.old).directory slot) ≡ true }
        ensures { state_of self.new ≡ touched (state_of self.old) slot }
    {
        if self.is_out(slot) {
            return;
        }
        let cost = self.table.records[slot].cost;
        self.order.withdraw(slot as u32);
        self.order.place(slot as u32, cost);
    }
}
