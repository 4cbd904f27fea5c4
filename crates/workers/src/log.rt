// The log of a day's work.
ghost use Rattle.std.specs.Prelude.{◌≡◌, ◌≤◌, [], length};
ghost use Rattle.workers.specs.Logs.{entries_of, noted};

use crate::entry::Entry;
use crate::few::Few;

/// What was done, in order: the first 24 entries.
#[derive(Clone, Copy, Debug, PartialEq)]
pub struct Log {
    entries: Few<Entry, 24>,
}

impl Log {
    /// A log with no entry.
    pub fn new() -> Log
        ensures { entries_of result ≡ [] }
    {
        Log {
            entries: Few::new(Entry::default()),
        }
    }

    /// Adds an entry, while there is room.
    pub fn note(&mut self, entry: Entry)
        ensures { entries_of self.new ≡ noted self.old entry }
    {
        if self.entries.has_room() {
            self.entries.push(entry);
        }
    }

    /// The entries.
    pub fn entries(&self) -> &[Entry]
        ensures entries { result.now ≡ entries_of self.now }
        ensures few { length result.now ≤ 24 }
    {
        self.entries.as_slice()
    }
}
