//! Worker code over any cache, in the form that all such code has: whoever leases a region gives it back on every path, also where its
//! work with the region is refused. It depends on the cache and on the traits that the cache is built of, and on no implementation of them.
#![tactic(auto)]

ghost use Rattle.cache.specs.Whole.{state_of};
ghost use Rattle.borrowers.specs.Loans.{Rewrites, KeepsLeases};

use cache::{Cache, Refusal};
use directories::Directory;
use keys::Key;
use orders::Order;

/// Leases a region, writes a value to it and gives it back, also where the write is refused. The answer is the lease's refusal, or else
/// the write's answer. It leaves exactly those leases out that were out before.
pub fn rewrite<K: Key, D: Directory<K>, O: Order>(
    cache: &mut Cache<K, D, O>,
    key: &K,
    value: &[u8],
    slab: &mut [u8],
) -> Result<(), Refusal>
    ensures does { Rewrites K.Key.sameness (state_of cache.old) key.now value.now slab.old result (state_of cache.new) slab.new }
    ensures others { KeepsLeases (state_of cache.old) (state_of cache.new) }
{
    let lease = cache.lease(key)?;
    let answer = cache.write(&lease, value, slab);
    cache.give_back(lease).unwrap();
    answer
}
