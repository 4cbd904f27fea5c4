// The run of a cache along a table.
ghost use Rattle.cache.specs.Whole.{state_of};
ghost use Rattle.borrowers.specs.Loans.{KeepsLeases};

use crate::table::{Answer, Keys, Step, Wrong};
use cache::{Cache, Lease};
use directories::Directory;
use keys::Key;
use orders::Order;

// No value of a table is longer.
const LONGEST: usize = 8;

// A lease, given back at once.
fn lend<K: Key, D: Directory<K>, O: Order>(cache: &mut Cache<K, D, O>, key: K) -> Answer
    ensures { KeepsLeases (state_of cache.old) (state_of cache.new) }
{
    match cache.lease(&key) {
        Err(refusal) => Answer::Refused(refusal.number()),
        Ok(lease) => {
            cache.give_back(lease).unwrap();
            Answer::Done
        }
    }
}

// Makes one call, and says whether the answer is the expected one.
fn agrees<K: Key, D: Directory<K>, O: Order>(
    cache: &mut Cache<K, D, O>,
    slab: &mut [u8],
    lease: &Lease,
    keys: &Keys<K>,
    step: &Step,
) -> bool
    ensures { KeepsLeases (state_of cache.old) (state_of cache.new) }
{
    // A step is a value with the answer that is expected of it, so that a table of them is the test.
    match *step {
        Step::Get(name, len, answer) => {
            let end = len.min(slab.len());
            Answer::from(cache.get(&keys.of(name), &slab[..end])) == answer
        }
        Step::Keep(name, cost, text, len, answer) => {
            let bytes = [text.letter; LONGEST];
            let value = &bytes[..text.len.min(LONGEST)];
            let end = len.min(slab.len());
            let kept = cache.keep(keys.of(name), cost, value, &mut slab[..end]);
            Answer::of_keep(kept, keys) == answer
        }
        Step::Write(text, len, answer) => {
            let bytes = [text.letter; LONGEST];
            let value = &bytes[..text.len.min(LONGEST)];
            let end = len.min(slab.len());
            Answer::from(cache.write(lease, value, &mut slab[..end])) == answer
        }
        Step::Lease(name, answer) => lend(cache, keys.of(name)) == answer,
        Step::Drop(name, answer) => Answer::from(cache.drop(&keys.of(name))) == answer,
        Step::State(name, answer) => Answer::from(cache.state(&keys.of(name))) == answer,
    }
}

// Cache, slab and keys go from call to call apart: a struct that has the cache cannot lend its slab to a get meanwhile, and each table of steps is
// played with keys, caches and slabs of several kinds.
/// Makes the calls one after another, up to the first whose answer is not the expected one.
pub(crate) fn play<K: Key, D: Directory<K>, O: Order>(
    cache: &mut Cache<K, D, O>,
    slab: &mut [u8],
    lease: &Lease,
    keys: &Keys<K>,
    steps: &[Step],
) -> Result<(), Wrong>
    ensures { KeepsLeases (state_of cache.old) (state_of cache.new) }
{
    // A loop, and no `position`: of what a closure did to the cache nothing is known after it.
    for (i, step) in steps.iter().enumerate() {
        if !agrees(cache, slab, lease, keys, step) {
            return Err(Wrong::Answer(i));
        }
    }
    Ok(())
}
