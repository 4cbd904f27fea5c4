// The one set of calls of every directory.
ghost use Rattle.std.specs.Prelude.{◌≡◌, ℕ, Bool, is_some};
ghost use Rattle.directories.specs.Meaning.{DirectoryMeaning, Distinct, Respects, AllAdmitted, key_at, find, emptied, Enters, removed, size as slot_count};

use keys::Key;

/// Pairs of a key and a slot, where no key and no slot stands twice and the slots run from 0 to the size.
pub trait Directory<K: Key> {
    // What a directory stands for.
    ghost meaning: { Self → DirectoryMeaning K };

    /// How many slots there are.
    fn size(&self) -> usize
        ensures { result ≡ slot_count (meaning self.now) };

    /// Takes every pair out; the size is then the lesser of `size` and the capacity.
    fn empty(&mut self, size: usize)
        ensures means { meaning self.new ≡ emptied (meaning self.old) size };

    /// Whether a key may be entered at all.
    fn admits(&self, key: &K) -> bool
        ensures { result ≡ (meaning self.now).admitted key.now };

    /// The slot of a key, if it is in.
    fn find(&self, key: &K) -> Option<usize>
        ensures { result ≡ find K.Key.sameness (meaning self.now) key.now };

    /// The key at a slot, as it was entered; none if the slot is unused or past the size.
    fn name(&self, slot: usize) -> Option<K>
        ensures { result ≡ key_at (meaning self.now) slot };

    /// Puts a key at an unused slot and answers that slot. Declines, and changes nothing, exactly if the key
    /// is not admitted, if it is in already, or if every slot is used.
    fn enter(&mut self, key: K) -> Option<usize>
        ensures means { Enters K.Key.sameness (meaning self.old) key result (meaning self.new) };

    /// Takes a key out, so that its slot can be used again. False, and nothing changes, exactly if it is not in.
    fn remove(&mut self, key: &K) -> bool
        ensures answer { result ≡ is_some (find K.Key.sameness (meaning self.old) key.now) }
        ensures means { meaning self.new ≡ removed K.Key.sameness (meaning self.old) key.now };

    // No key stands in it twice.
    ghost distinct: { (d : Self) → Distinct K.Key.sameness (meaning d) };

    // The admitted keys are told apart by sameness alone.
    ghost respects: { (d : Self) → Respects K.Key.sameness (meaning d) };

    // Each key that stands in it is admitted.
    ghost admitting: { (d : Self) → AllAdmitted (meaning d) };
}
