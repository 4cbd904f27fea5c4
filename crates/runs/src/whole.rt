ghost use Rattle.std.specs.Prelude.{◌≡◌, [], length, is_ok};
ghost use Rattle.runs.specs.Asks.{in_hand};
ghost use Rattle.runs.specs.Runs.{roomy, scene, Ended, Finishes};

use crate::asks::{Ask, Happening};
use crate::serving::{serve, settle};
use cache::{Cache, Lease};
use directories::Directory;
use keys::Key;
use orders::Order;
use std::alloc::Global;

// A pair has this shape too, but a refusal is read by its name.
/// A run that was not made for want of room: no call was made, and the parts are handed back.
#[derive(Drop)]
pub struct NoRoom<D, O> {
    pub directory: D,
    pub order: O,
}

/// A run that was made: the parts of its cache, and what happened.
#[derive(Drop)]
pub struct Finished<K, D, O> {
    pub directory: D,
    pub order: O,
    pub happenings: Vec<Happening<K>>,
}

// Whether there is room for what so many asks can add.
fn has_room<K: Key>(asks: usize, leases: &Vec<Lease>, happenings: &Vec<Happening<K>>) -> bool
    ensures { result ≡ roomy asks leases.now happenings.now }
{
    leases.capacity() - leases.len() >= asks
        && happenings.capacity() - happenings.len() >= asks + (leases.len() + asks)
}

// Directory, order, mark and chunk come one by one, as for a new cache: a struct of them would be filled only to be taken apart.
/// Makes a cache of its parts, does all that is asked, and at the end tries to give back each lease in hand. `leases` are those in hand,
/// of other caches at first; each accepted lease is added, and what is left there is declined by this cache: none, if none was handed in.
/// `happenings` gains one entry for each ask and one for each lease that is tried. Nothing is allocated: where the two lists might not have
/// the room, no call is made.
pub fn run_in<K: Key, D: Directory<K>, O: Order>(
    directory: D,
    order: O,
    mark: u32,
    chunk: usize,
    slab: &mut [u8],
    asks: &[Ask<K>],
    leases: &mut Vec<Lease>,
    happenings: &mut Vec<Happening<K>>,
) -> Result<(D, O), NoRoom<D, O>>
    ensures room { is_ok result ≡ roomy (length asks.now) leases.old happenings.old }
    ensures ended { Ended K.Key.sameness D.Directory O.Order mark chunk asks.now (scene directory order (in_hand leases.old slab.old) happenings.old.items) result (in_hand leases.new slab.new) happenings.new.items }
{
    if !has_room(asks.len(), leases, happenings) {
        return Err(NoRoom { directory, order });
    }
    let mut cache = Cache::new(directory, order, mark, chunk);
    serve(&mut cache, leases, asks, slab, happenings);
    settle(&mut cache, leases, happenings);
    Ok(cache.into_parts())
}

/// The same with lists that grow. Where there is not memory enough no call is made, and slab and leases are as before.
pub fn run<K: Key, D: Directory<K>, O: Order>(
    heap: Global,
    directory: D,
    order: O,
    mark: u32,
    chunk: usize,
    slab: &mut [u8],
    asks: &[Ask<K>],
    leases: &mut Vec<Lease>,
) -> Result<Finished<K, D, O>, NoRoom<D, O>>
    ensures { Finishes K.Key.sameness D.Directory O.Order mark chunk asks.now (scene directory order (in_hand leases.old slab.old) []) result (in_hand leases.new slab.new) }
{
    if leases.reserve(asks.len()).is_err() {
        return Err(NoRoom { directory, order });
    }
    let most = asks.len() + (leases.len() + asks.len());
    let Ok(mut happenings) = Vec::with_capacity(heap, most) else {
        return Err(NoRoom { directory, order });
    };
    let (directory, order) = run_in(
        directory,
        order,
        mark,
        chunk,
        slab,
        asks,
        leases,
        &mut happenings,
    )?;
    Ok(Finished {
        directory,
        order,
        happenings,
    })
}
