// One ask, by the call that it wants.
// Cache, leases, slab, asks and happenings are passed side by side. A struct of them was tried: the check has no rule for a get that lends the cache
// and the slab of one struct, so that each get would need a function beside the struct that takes both as `&mut`, and be no plainer.
ghost use Rattle.std.specs.Prelude.{◌≡◌, ℕ, ◌+◌, ◌<◌, ◌≤◌, List, Vec as OneVec, vec_items, vec_len, vec_capacity};
ghost use Rattle.std.specs.declared.alloc.Global.{Global};
ghost use Rattle.cache.specs.declared.lease.Lease.{Lease as OneLease};
ghost use Rattle.runs.specs.declared.asks.Ask.TheVariants.{Get as AskGet, Lease as AskLease, Write as AskWrite, GiveBack as AskGive};
ghost use Rattle.runs.specs.Asks.{Answered, hand, in_hand};

use crate::asks::{Ask, Happening};
use cache::{Cache, Declined, Lease};
use directories::Directory;
use keys::Key;
use orders::Order;

// Leases a region, and takes the lease in hand.
fn lend<K: Key, D: Directory<K>, O: Order>(
    cache: &mut Cache<K, D, O>,
    leases: &mut Vec<Lease>,
    key: K,
) -> Happening<K>
    requires { vec_len leases.old < vec_capacity leases.old }
    ensures does { (bytes : List ℕ) → Answered cache.old (in_hand leases.old bytes) (AskLease key) result cache.new (in_hand leases.new bytes) }
    ensures capacity { vec_capacity leases.new ≡ vec_capacity leases.old }
    ensures most { vec_len leases.new ≤ vec_len leases.old + 1 }
{
    match cache.lease(&key) {
        Ok(lease) => {
            let ticket = lease.ticket();
            leases.push_reserved(lease);
            Happening::Lease(key, Ok(ticket))
        }
        Err(refusal) => Happening::Lease(key, Err(refusal)),
    }
}

// Writes under the lease at a place.
fn write<K: Key, D: Directory<K>, O: Order>(
    cache: &mut Cache<K, D, O>,
    leases: &[Lease],
    place: usize,
    value: &[u8],
    slab: &mut [u8],
) -> Happening<K>
    ensures { (whole : OneVec ℕ Global) → vec_items whole ≡ value.now → Answered cache.old (hand leases.now slab.old) (AskWrite place whole) result cache.new (hand leases.now slab.new) }
{
    if place >= leases.len() {
        return Happening::Idle;
    }
    let lease = &leases[place];
    let answer = cache.write(lease, value, slab);
    Happening::Write(lease.ticket(), answer)
}

// Gives the lease at a place back. A declined one goes to the end of the list.
pub(crate) fn give_back<K: Key, D: Directory<K>, O: Order>(
    cache: &mut Cache<K, D, O>,
    leases: &mut Vec<Lease>,
    place: usize,
) -> Happening<K>
    ensures does { (bytes : List ℕ) → Answered cache.old (in_hand leases.old bytes) (AskGive place) result cache.new (in_hand leases.new bytes) }
    ensures capacity { vec_capacity leases.new ≡ vec_capacity leases.old }
    ensures most { vec_len leases.new ≤ vec_len leases.old }
{
    if place >= leases.len() {
        return Happening::Idle;
    }
    let lease = leases.remove(place);
    let ticket = lease.ticket();
    match cache.give_back(lease) {
        Ok(()) => Happening::GiveBack(ticket, Ok(())),
        Err(declined) => {
            let Declined { refusal, token } = declined;
            leases.push_reserved(token);
            Happening::GiveBack(ticket, Err(refusal))
        }
    }
}

// Gets a value, and tells how long it is.
fn get<K: Key, D: Directory<K>, O: Order>(
    cache: &mut Cache<K, D, O>,
    key: K,
    slab: &[u8],
) -> Happening<K>
    ensures { (held : List OneLease) → Answered cache.old (hand held slab.now) (AskGet key) result cache.new (hand held slab.now) }
{
    let found = cache.get(&key, slab);
    Happening::Get(key, found.map(|held| held.map(|part| part.len())))
}

// Does what is asked, by one call at most.
pub(crate) fn answer<K: Key, D: Directory<K>, O: Order>(
    cache: &mut Cache<K, D, O>,
    leases: &mut Vec<Lease>,
    ask: &Ask<K>,
    slab: &mut [u8],
) -> Happening<K>
    requires { vec_len leases.old < vec_capacity leases.old }
    ensures does { Answered cache.old (in_hand leases.old slab.old) ask.now result cache.new (in_hand leases.new slab.new) }
    ensures capacity { vec_capacity leases.new ≡ vec_capacity leases.old }
    ensures most { vec_len leases.new ≤ vec_len leases.old + 1 }
{
    // An ask is a value, which a host makes, keeps and prints; a closure would not say what it asks.
    match ask {
        Ask::State(key) => Happening::State(*key, cache.state(key)),
        Ask::Get(key) => get(cache, *key, slab),
        Ask::Keep(key, cost, value) => Happening::Keep(
            *key,
            *cost,
            cache.keep(*key, *cost, value.as_slice(), slab),
        ),
        Ask::Lease(key) => lend(cache, leases, *key),
        Ask::Write(place, value) => write(cache, leases.as_slice(), *place, value.as_slice(), slab),
        Ask::GiveBack(place) => give_back(cache, leases, *place),
        Ask::Drop(key) => Happening::Drop(*key, cache.drop(key)),
    }
}
