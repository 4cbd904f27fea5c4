// Calls while regions are out.
ghost use Rattle.cache.specs.Whole.{state_of};
ghost use Rattle.borrowers.specs.Loans.{KeepsLeases};

use crate::calls::play;
use crate::table::{Keys, Name, Step, Wrong};
use cache::{Cache, Declined};
use directories::Directory;
use keys::Key;
use orders::Order;

/// Makes calls while a region is out.
pub(crate) fn play_lent<K: Key, D: Directory<K>, O: Order>(
    cache: &mut Cache<K, D, O>,
    slab: &mut [u8],
    name: Name,
    keys: &Keys<K>,
    steps: &[Step],
) -> Result<(), Wrong>
    ensures { KeepsLeases (state_of cache.old) (state_of cache.new) }
{
    let key = keys.of(name);
    let lease = cache.lease(&key)?;
    let played = play(cache, slab, &lease, keys, steps);
    cache.give_back(lease).unwrap();
    played
}

/// Makes calls while two regions are out.
pub(crate) fn play_two_lent<K: Key, D: Directory<K>, O: Order>(
    cache: &mut Cache<K, D, O>,
    slab: &mut [u8],
    first: Name,
    second: Name,
    keys: &Keys<K>,
    steps: &[Step],
) -> Result<(), Wrong> {
    let key = keys.of(first);
    let lease = cache.lease(&key)?;
    let played = play_lent(cache, slab, second, keys, steps);
    cache.give_back(lease).unwrap();
    played
}

/// Makes calls under another cache's lease of the first key, tries to give it back to this one, and gives it back to the other.
pub(crate) fn play_foreign<K: Key, D: Directory<K>, O: Order>(
    cache: &mut Cache<K, D, O>,
    slab: &mut [u8],
    other: &mut Cache<K, D, O>,
    keys: &Keys<K>,
    steps: &[Step],
) -> Result<(), Wrong> {
    let lease = other.lease(&keys.a)?;
    let played = play(cache, slab, &lease, keys, steps);
    match cache.give_back(lease) {
        Ok(()) => Err(Wrong::TakenBack),
        Err(declined) => {
            let Declined { refusal, token } = declined;
            other.give_back(token).unwrap();
            if refusal.number() == 4 {
                played
            } else {
                Err(Wrong::TakenBack)
            }
        }
    }
}
