ghost use Rattle.std.specs.Prelude.{◌≡◌, ℕ, ◌+◌, ◌<◌, ◌≤◌, not, [], ◌∷◌, drop, MatchBool, MatchOption, Some, None, ◌==◌, slice_set};
ghost use Rattle.std.specs.Option.{is_some};
ghost use Rattle.orders.specs.Bits.{marked};
ghost use Rattle.orders.specs.Flat.{turned};
ghost use Rattle.orders.specs.Props.{rings_prop};
ghost use Rattle.orders.specs.Rings.{Rings, queue, at, named, nexts, prevs};
ghost use Rattle.orders.specs.Rows.{Bare, BareBetween, Joins, Loses, Filled, FirstFilled, FirstAround};

use crate::PLACES;
use crate::marks::Marks;

/// The queues of a wheel.
pub(crate) const QUEUES: usize = 256;

/// The slots, and an anchor for each queue.
const NODES: usize = PLACES + QUEUES;

/// A node of a ring: the one after it, and the one before it.
#[derive(Clone, Copy)]
pub(crate) struct Node {
    next: u16,
    prev: u16,
}

/// 256 queues of slots below 1024. Node 1024 + q anchors the ring of queue q, and a slot in no queue is a ring of its own.
/// The nodes link to each other by their places in one table of fixed size, since an order has no heap.
#[derive(Drop)]
pub(crate) struct Queues {
    pub(crate) nodes: [Node; NODES],
    /// The queue of each slot that stands in one. It is a table of its own, since an anchor has no queue.
    pub(crate) home: [Option<u8>; PLACES],
    marks: Marks,
    ghost rings: { Rings (nexts nodes) (prevs nodes) home (queue (nexts nodes)) } by { rings_prop (nexts nodes) (prevs nodes) home (queue (nexts nodes)) },
    ghost signs: { (k : ℕ) → k < 256 → marked marks.words k ≡ not (at (nexts nodes) (1024 + k) == 1024 + k) },
}

impl Queues {
    /// The slot joins queue `q` at its back.
    pub(crate) fn push(&mut self, q: usize, slot: usize)
        requires queue { q < 256 }
        requires slot { slot < 1024 }
        requires idle { named self.old.home slot ≡ None }
        ensures queues { Joins (queue (nexts self.old.nodes)) (queue (nexts self.new.nodes)) q slot }
        ensures homes { self.new.home ≡ slice_set self.old.home slot (Some q) }
    {
        let anchor = PLACES + q;
        let last = self.nodes[anchor].prev as usize;
        self.nodes[last].next = slot as u16;
        self.nodes[slot] = Node {
            next: anchor as u16,
            prev: last as u16,
        };
        self.nodes[anchor].prev = slot as u16;
        self.home[slot] = Some(q as u8);
        self.marks.mark(q);
    }

    /// The slot leaves its queue, if it stands in one.
    pub(crate) fn remove(&mut self, slot: usize)
        requires { slot < 1024 }
        ensures queues { Loses (queue (nexts self.old.nodes)) (queue (nexts self.new.nodes)) slot }
        ensures homes { self.new.home ≡ slice_set self.old.home slot None }
    {
        let Node { next, prev } = self.nodes[slot];
        let before = prev as usize;
        let after = next as usize;
        self.nodes[before].next = next;
        self.nodes[after].prev = prev;
        self.nodes[slot] = Node {
            next: slot as u16,
            prev: slot as u16,
        };
        self.home[slot] = None;
        if before == after && before >= PLACES {
            self.marks.unmark(before - PLACES);
        }
    }

    /// Whether the slot stands in a queue.
    pub(crate) fn holds(&self, slot: usize) -> bool
        requires { slot < 1024 }
        ensures { result ≡ is_some (named self.now.home slot) }
    {
        self.home[slot].is_some()
    }

    /// The first filled queue from `p` on.
    pub(crate) fn from(&self, p: usize) -> Option<usize>
        requires { p < 256 }
        ensures { MatchOption result (BareBetween (queue (nexts self.now.nodes)) p 256) (FirstFilled (nexts self.now.nodes) p) }
    {
        self.marks.from(p)
    }

    /// The oldest slot of queue `q`, which holds one, leaves it.
    pub(crate) fn pop(&mut self, q: usize) -> usize
        requires queue { q < 256 }
        requires filled { Filled (nexts self.old.nodes) q }
        ensures front { queue (nexts self.old.nodes) q ≡ result ∷ drop 1 (queue (nexts self.old.nodes) q) }
        ensures slot { result < 1024 }
        ensures queues { Loses (queue (nexts self.old.nodes)) (queue (nexts self.new.nodes)) result }
        ensures homes { self.new.home ≡ slice_set self.old.home result None }
    {
        let slot = self.nodes[PLACES + q].next as usize;
        self.remove(slot);
        slot
    }

    /// No slot in any queue.
    pub(crate) fn new() -> Queues
        ensures queues { Bare (queue (nexts result.nodes)) }
        ensures homes { (x : ℕ) → x < 1024 → named result.home x ≡ None }
    {
        let mut nodes = [Node { next: 0, prev: 0 }; NODES];
        for (i, node) in nodes.iter_mut().enumerate() {
            *node = Node {
                next: i as u16,
                prev: i as u16,
            };
        }
        let marks = Marks::none();
        Queues {
            nodes,
            home: [None; PLACES],
            marks,
        }
    }

    /// Whether queue `q` holds a slot.
    pub(crate) fn filled(&self, q: usize) -> bool
        requires { q < 256 }
        ensures { MatchBool result (Filled (nexts self.now.nodes) q) (queue (nexts self.now.nodes) q ≡ []) }
    {
        self.nodes[PLACES + q].next as usize != PLACES + q
    }

    /// How far it is from queue `p` to the first filled one, around the wheel.
    pub(crate) fn around(&self, p: usize) -> Option<usize>
        requires { p < 256 }
        ensures { MatchOption result (Bare (turned (nexts self.now.nodes) p)) (FirstAround (nexts self.now.nodes) p) }
    {
        if let Some(q) = self.from(p) {
            return Some(q - p);
        }
        let q = self.from(0)?;
        Some(q + QUEUES - p)
    }
}
