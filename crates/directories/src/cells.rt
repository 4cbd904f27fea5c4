// The cells of a hashed directory.
ghost use Rattle.std.specs.Prelude.{◌≡◌, ◌<◌, ◌≤◌, length, None, slice_set};
ghost use Rattle.directories.specs.Cells.{blank, heads_of, nexts_of, Beyond, WroteLink};
ghost use Rattle.directories.specs.Links.{Below, link_at};
ghost use Rattle.directories.specs.Tables.{vacant, Wiped};

use std::mem;

/// One cell of a hashed directory, which stands for a slot, a bucket and a place of a stack at once.
// The size ends a chain, and no `Option` does: the memory of the cells is the caller's, who would pay two bytes more for
// each link, and a walk to the end and a walk up to a slot are each one comparison of two numbers.
#[derive(Clone, Copy)]
pub struct Cell<K> {
    // The key at the slot.
    pub(crate) key: Option<K>,
    // The first slot in the chain of the bucket; the size if there is none.
    pub(crate) head: u16,
    // The next slot in the chain that the slot is in; the size if there is none.
    pub(crate) next: u16,
    // A free slot, if this is one of the places of the stack that are in use.
    pub(crate) free: u16,
}

impl<K> Cell<K> {
    /// A cell that no directory has used yet.
    pub fn new() -> Cell<K>
        ensures { result ≡ blank }
    {
        Cell {
            key: None,
            head: 0,
            next: 0,
            free: 0,
        }
    }
}

// Leads the link behind slot `p`, or the head of the bucket's chain, to `v`, and answers where it led before.
pub(crate) fn relink<K: Copy>(cells: &mut [Cell<K>], bucket: usize, p: Option<usize>, v: u16) -> u16
    requires bucket { bucket < length cells.old }
    requires below { Below (length cells.old) p }
    ensures led { result ≡ link_at (heads_of cells.old) (nexts_of cells.old) bucket p }
    ensures leads { WroteLink cells.old cells.new bucket p v }
{
    match p {
        None => mem::replace(&mut cells[bucket].head, v),
        Some(i) => mem::replace(&mut cells[i].next, v),
    }
}

// Makes a table of `size` unused slots.
pub(crate) fn clear<K: Copy>(cells: &mut [Cell<K>], size: usize)
    requires within { size ≤ length cells.old }
    requires small { size ≤ 1024 }
    ensures wiped { Wiped size size cells.new }
    ensures rest { Beyond size cells.old cells.new }
{
    for (slot, cell) in cells[..size].iter_mut().enumerate() {
        *cell = Cell {
            key: None,
            head: size as u16,
            next: size as u16,
            free: slot as u16,
        };
    }
}
