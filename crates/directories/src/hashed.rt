// The hashed directory: every key kind, over cells that the caller supplies.
ghost use Rattle.std.specs.Prelude.{◌≡◌, ◌<◌, ◌%◌, ◌-◌, min, true, length, is_some, None, slice_index};
ghost use Rattle.std.proofs.Props.{props};
ghost use Rattle.directories.specs.Cells.{Beyond, key_in, keys_of, frees_of};
ghost use Rattle.directories.specs.Links.{Last, Below, in_bucket};
ghost use Rattle.directories.specs.Meaning.{fresh, holds, find, emptied, Enters, removed};
ghost use Rattle.directories.specs.Tables.{Held, Located};

use crate::MOST_SLOTS;
use crate::cells::{Cell, clear, relink};
use crate::directory::Directory;
use keys::Key;

/// A directory of keys of any kind, over cells of the caller's. Each slot is a cell. There are as many buckets
/// as slots; the slots of one bucket hang in a chain, in ascending order, so a look-up visits the keys of one bucket only.
#[derive(Drop)]
pub struct HashedDirectory<'a, K: Key> {
    cells: &'a mut [Cell<K>],
    capacity: usize,
    size: usize,
    // How many slots are unused. They are the top of a stack that lies in the cells.
    free: usize,
    ghost held: { Held K.Key.sameness K.Key.place cells.now capacity size free } by { Prim.hlevel (props, K.code) },
}

impl<'a, K: Key> HashedDirectory<'a, K> {
    ghost use Rattle.directories.specs.Hashed.{hashed_meaning};

    /// An empty directory over cells of the caller's, of which it uses the first 1,024 at most: it clears those,
    /// and leaves the others as they are. What the cells held before means nothing to it.
    pub fn new(cells: &'a mut [Cell<K>]) -> HashedDirectory<'a, K>
        ensures means { hashed_meaning result ≡ fresh (min (length cells.old) 1024) (λ _. true) }
        ensures rest { Beyond (min (length cells.old) 1024) cells.old result.cells.now }
    {
        let len = cells.len();
        let capacity = len.min(MOST_SLOTS);
        clear(cells, capacity);
        HashedDirectory {
            cells,
            capacity,
            size: capacity,
            free: capacity,
        }
    }

    // The unused slot on top of the stack.
    fn top(&self) -> usize
        requires { 0 < self.now.free }
        ensures value { result ≡ slice_index (frees_of self.now.cells.now) (self.now.free - 1) }
        ensures below { result < self.now.size }
        ensures unused { key_in self.now.cells.now result ≡ None }
    {
        self.cells[self.free - 1].free as usize
    }

    // The bucket that a key belongs to.
    fn bucket(&self, key: &K) -> usize
        requires { 0 < self.now.size }
        ensures value { result ≡ K.Key.place key.now % self.now.size }
        ensures below { result < self.now.size }
    {
        key.home() as usize % self.size
    }

    // Whether a slot holds a key that is the same as this one.
    fn holds(&self, slot: usize, key: &K) -> bool
        requires { slot < self.now.size }
        ensures { result ≡ holds K.Key.sameness key.now (key_in self.now.cells.now slot) }
    {
        self.cells[slot].key.is_some_and(|k| k.same(key))
    }

    // The search along cells, for every key kind: the slot that holds a key. It visits the slots of one bucket.
    fn search(&self, key: &K) -> Option<usize>
        ensures { Located K.Key.sameness self.now.cells.now self.now.size key.now result }
    {
        let size = self.size;
        if size == 0 {
            return None;
        }
        let bucket = key.home() as usize % size;
        let mut i = self.cells[bucket].head as usize;
        while i < size {
            if self.holds(i, key) {
                return Some(i);
            }
            i = self.cells[i].next as usize;
        }
        None
    }

    // The last slot of a bucket below slot `s`.
    fn before(&self, bucket: usize, s: usize) -> Option<usize>
        requires bucket { bucket < self.now.size }
        requires below { s < self.now.size }
        ensures last { Last (in_bucket K.Key.place self.now.size (keys_of self.now.cells.now) bucket) s result }
        ensures within { Below self.now.size result }
    {
        let mut last = None;
        let mut i = self.cells[bucket].head as usize;
        while i < s {
            last = Some(i);
            i = self.cells[i].next as usize;
        }
        last
    }
}

impl<'a, K: Key> Directory<K> for HashedDirectory<'a, K> {
    ghost use Rattle.directories.specs.Hashed.{hashed_meaning, hashed_distinct, hashed_respects, hashed_admitting};

    ghost meaning = { hashed_meaning };

    ghost distinct = { hashed_distinct };

    ghost respects = { hashed_respects };

    ghost admitting = { hashed_admitting };

    fn size(&self) -> usize {
        self.size
    }

    fn empty(&mut self, size: usize)
        ensures means { hashed_meaning self.new ≡ emptied (hashed_meaning self.old) size }
        ensures rest { Beyond self.new.size self.old.cells.now self.new.cells.now }
    {
        let least = size.min(self.capacity);
        clear(self.cells, least);
        self.size = least;
        self.free = least;
    }

    fn admits(&self, _key: &K) -> bool {
        true
    }

    fn find(&self, key: &K) -> Option<usize> {
        self.search(key)
    }

    fn name(&self, slot: usize) -> Option<K> {
        if slot < self.size {
            self.cells[slot].key
        } else {
            None
        }
    }

    fn enter(&mut self, key: K) -> Option<usize>
        ensures means { Enters K.Key.sameness (hashed_meaning self.old) key result (hashed_meaning self.new) }
        ensures rest { Beyond self.old.size self.old.cells.now self.new.cells.now }
    {
        // A full directory is asked before each eviction: it has nothing to search for.
        if self.free == 0 {
            return None;
        }
        let known = self.search(&key).is_some();
        if known {
            return None;
        }
        let slot = self.top();
        let bucket = self.bucket(&key);
        let before = self.before(bucket, slot);
        let cells = &mut *self.cells;
        let next = relink(cells, bucket, before, slot as u16);
        let cell = &mut cells[slot];
        cell.key = Some(key);
        cell.next = next;
        self.free -= 1;
        Some(slot)
    }

    fn remove(&mut self, key: &K) -> bool
        ensures answer { result ≡ is_some (find K.Key.sameness (hashed_meaning self.old) key.now) }
        ensures means { hashed_meaning self.new ≡ removed K.Key.sameness (hashed_meaning self.old) key.now }
        ensures rest { Beyond self.old.size self.old.cells.now self.new.cells.now }
    {
        let Some(slot) = self.search(key) else {
            return false;
        };
        let bucket = self.bucket(key);
        let before = self.before(bucket, slot);
        let free = self.free;
        let cells = &mut *self.cells;
        let next = cells[slot].next;
        relink(cells, bucket, before, next);
        cells[slot].key = None;
        cells[free].free = slot as u16;
        self.free = free + 1;
        true
    }
}
