//! Directories: which key stands at which slot. One trait, `Directory`, and two of its kind: one over
//! cells that the caller supplies, for every key kind, and one for small region numbers that has no
//! search at all. Depends on `keys` and on the kit's `arrayvec`, which never allocates.
#![tactic(auto)]

mod cells;
mod directory;
mod hashed;
mod numbered;

pub use cells::Cell;
pub use directory::Directory;
pub use hashed::HashedDirectory;
pub use numbered::NumberedDirectory;

/// No directory has more slots.
pub const MOST_SLOTS: usize = 1_024;
