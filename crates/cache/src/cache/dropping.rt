// Dropping a region.
ghost use Rattle.promises.specs.Events.{drops};

use crate::cache::Cache;
use directories::Directory;
use keys::Key;
use orders::Order;
use promises::Refusal;

impl<K: Key, D: Directory<K>, O: Order> Cache<K, D, O> {
    ghost use Rattle.cache.specs.Whole.{Makes};

    // Takes a waiting region out of the order and the directory.
    pub(super) fn remove(&mut self, key: &K) -> Result<(), Refusal>
        ensures { Makes self.old (drops key.now result) self.new }
    {
        let slot = self.waiting_slot(key)?;
        self.order.withdraw(slot as u32);
        self.directory.remove(key);
        Ok(())
    }
}
