// All asks, one after another, and the leases that are in hand at the end.
ghost use Rattle.std.specs.Prelude.{◌≡◌, ℕ, ◌+◌, ◌≤◌, List, length, vec_len, vec_capacity};
ghost use Rattle.runs.specs.Asks.{in_hand};
ghost use Rattle.runs.specs.Runs.{Served, tries};

use crate::asks::{Ask, Happening};
use crate::calls::{answer, give_back};
use cache::{Cache, Lease};
use directories::Directory;
use keys::Key;
use orders::Order;

// Does all that is asked, one after another, and tells of it.
pub(crate) fn serve<K: Key, D: Directory<K>, O: Order>(
    cache: &mut Cache<K, D, O>,
    leases: &mut Vec<Lease>,
    asks: &[Ask<K>],
    slab: &mut [u8],
    happenings: &mut Vec<Happening<K>>,
)
    requires hands { vec_len leases.old + length asks.now ≤ vec_capacity leases.old }
    requires room { vec_len happenings.old + length asks.now ≤ vec_capacity happenings.old }
    ensures goes { Served happenings.old.items cache.old (in_hand leases.old slab.old) asks.now happenings.new.items cache.new (in_hand leases.new slab.new) }
    ensures most { vec_len leases.new ≤ vec_len leases.old + length asks.now }
    ensures count { vec_len happenings.new ≡ vec_len happenings.old + length asks.now }
    ensures capacity { vec_capacity happenings.new ≡ vec_capacity happenings.old }
{
    for ask in asks {
        let happening = answer(cache, leases, ask, slab);
        happenings.push_reserved(happening);
    }
}

// Tries each lease in hand once: it is given back, and a declined one is kept.
pub(crate) fn settle<K: Key, D: Directory<K>, O: Order>(
    cache: &mut Cache<K, D, O>,
    leases: &mut Vec<Lease>,
    happenings: &mut Vec<Happening<K>>,
)
    requires { vec_len happenings.old + vec_len leases.old ≤ vec_capacity happenings.old }
    ensures { (bytes : List ℕ) → Served happenings.old.items cache.old (in_hand leases.old bytes) (tries leases.old.items) happenings.new.items cache.new (in_hand leases.new bytes) }
{
    // It goes by a count, and not by the leases: each is taken out as it is tried, and a declined one joins at the end.
    for tried in 0..leases.len() {
        let happening = give_back(cache, leases, 0);
        happenings.push_reserved(happening);
    }
}
