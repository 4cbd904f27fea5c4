// The numbered directory: region numbers below 4,096, looked up directly.
ghost use Rattle.std.specs.Prelude.{◌≡◌, ◌≤◌, min, length, replicate, None};
ghost use Rattle.std.proofs.Props.{props};
ghost use Rattle.directories.specs.Meaning.{fresh};
ghost use Rattle.directories.specs.Numbers.{Ranked, EverySlot, below, register};

use crate::MOST_SLOTS;
use crate::directory::Directory;
use arrayvec::ArrayVec;
use keys::RegionNumber;

// How many numbers are admitted: those below it.
const NUMBERS: usize = 4_096;

/// A directory of region numbers below 4,096. A table leads from each number to its slot, so that nothing is searched for.
#[derive(Drop)]
pub struct NumberedDirectory {
    // The key at each slot.
    keys: ArrayVec<Option<RegionNumber>, MOST_SLOTS>,
    // The unused slots, the next to be used last.
    frees: ArrayVec<u16, MOST_SLOTS>,
    // The slot of each number, if it has one.
    slots: [Option<u16>; NUMBERS],
    capacity: usize,
    ghost ranked: { Ranked keys.items frees.items slots capacity } by { Prim.hlevel props },
}

// A table that holds nothing.
fn nothing<T: Copy, const N: usize>() -> [Option<T>; N]
    ensures { result ≡ replicate N None }
{
    [None; N]
}

// Clears each place.
fn clear<T: Copy>(places: &mut [Option<T>])
    ensures { places.new ≡ replicate (length places.old) None }
{
    for place in places.iter_mut() {
        *place = None;
    }
}

// Puts its own index at each place.
fn count_up(places: &mut [u16])
    requires { length places.old ≤ 1024 }
    ensures { EverySlot (length places.old) places.new }
{
    for (slot, place) in places.iter_mut().enumerate() {
        *place = slot as u16;
    }
}

// Leaves that many slots, with no key at any.
fn clear_keys(keys: &mut ArrayVec<Option<RegionNumber>, MOST_SLOTS>, size: usize)
    requires { size ≤ 1024 }
    ensures { keys.new.items ≡ replicate size None }
{
    keys.truncate(size);
    clear(keys);
    for _ in keys.len()..size {
        keys.push(None);
    }
}

// Puts that many slots on the stack, and no others.
fn free_all(frees: &mut ArrayVec<u16, MOST_SLOTS>, size: usize)
    requires { size ≤ 1024 }
    ensures { EverySlot size frees.new.items }
{
    frees.truncate(size);
    // One copy makes up for what was taken, and no push for each slot. It fits.
    let blank = [0; MOST_SLOTS];
    let _ = frees.try_extend_from_slice(&blank[frees.len()..size]);
    count_up(frees);
}

impl NumberedDirectory {
    ghost use Rattle.directories.specs.Numbered.{numbered_meaning};

    /// An empty directory of this capacity, or of 1,024 if it is greater.
    pub fn new(capacity: usize) -> NumberedDirectory
        ensures means { numbered_meaning result ≡ fresh (min capacity 1024) below }
    {
        let least = capacity.min(MOST_SLOTS);
        NumberedDirectory::sized(least, least)
    }

    // An empty directory of this size and capacity.
    fn sized(size: usize, capacity: usize) -> NumberedDirectory
        requires small { capacity ≤ 1024 }
        requires within { size ≤ capacity }
        ensures { numbered_meaning result ≡ register (replicate size None) capacity }
    {
        let mut keys = ArrayVec::from(nothing());
        let mut frees = ArrayVec::from([0; MOST_SLOTS]);
        keys.truncate(size);
        free_all(&mut frees, size);
        NumberedDirectory {
            keys,
            frees,
            slots: nothing(),
            capacity,
        }
    }
}

impl Directory<RegionNumber> for NumberedDirectory {
    ghost use Rattle.directories.specs.Numbered.{numbered_meaning, numbered_distinct, numbered_respects, numbered_admitting};

    ghost meaning = { numbered_meaning };

    ghost distinct = { numbered_distinct };

    ghost respects = { numbered_respects };

    ghost admitting = { numbered_admitting };

    fn size(&self) -> usize {
        self.keys.len()
    }

    fn empty(&mut self, size: usize) {
        let least = size.min(self.capacity);
        clear_keys(&mut self.keys, least);
        free_all(&mut self.frees, least);
        clear(&mut self.slots);
    }

    fn admits(&self, key: &RegionNumber) -> bool {
        (key.number as usize) < NUMBERS
    }

    fn find(&self, key: &RegionNumber) -> Option<usize> {
        let slot = self.slots.get(key.number as usize).copied().flatten()?;
        Some(slot as usize)
    }

    fn name(&self, slot: usize) -> Option<RegionNumber> {
        self.keys.get(slot).copied().flatten()
    }

    fn enter(&mut self, key: RegionNumber) -> Option<usize> {
        if !self.admits(&key) || self.find(&key).is_some() {
            return None;
        }
        let slot = self.frees.pop()?;
        self.keys[slot as usize] = Some(key);
        self.slots[key.number as usize] = Some(slot);
        Some(slot as usize)
    }

    fn remove(&mut self, key: &RegionNumber) -> bool {
        let Some(slot) = self.find(key) else {
            return false;
        };
        self.keys[slot] = None;
        self.slots[key.number as usize] = None;
        self.frees.push(slot as u16);
        true
    }
}
