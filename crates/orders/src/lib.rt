//! Orders: which slot leaves first. A slot is placed with a credit; the slot of least credit leaves first, the oldest
//! placing first among equals, and every credit that remains falls by the credit of the one that left. This crate has the
//! meaning of an order, the trait `Order` that says it, and the orders that keep it: the flat order, the bottom wheel, a
//! wheel over any order, and the pile of the last two. It depends on `std`.
#![tactic(auto)]

ghost use Rattle.std.specs.Prelude.{◌≡◌};
ghost use Rattle.orders.specs.Meaning.{OrderMeaning, Lawful, waits, takes, placed, withdrawn, leaver, expelled, emptied, some_due};

mod bottom;
mod figures;
mod flat;
mod marks;
mod own;
mod pile;
mod queues;
mod wheel;

pub use bottom::BottomWheel;
pub use figures::figures_stand;
pub use flat::FlatOrder;
pub use pile::{Pile, new_pile};
pub use wheel::Wheel;

/// How many slots an order of this crate has: they are numbered from 0.
pub const SLOTS: u32 = 1024;

/// The slots, as places of a table.
pub(crate) const PLACES: usize = SLOTS as usize;

/// The greatest credit in a bottom wheel, one less than its queues.
pub const BOTTOM_SPAN: u32 = 255;

/// The greatest credit in a flat order.
pub const FLAT_SPAN: u32 = 65_280;

/// The most that a wheel uses of the span below: 256 times as much is its own span, and has to fit 32 bits.
pub const SPAN_BELOW: u32 = 16_777_215;

/// A slot that waits, and its credit.
#[derive(Clone, Copy, Debug, Default, PartialEq)]
pub struct Entry {
    pub slot: u32,
    pub credit: u32,
}

/// A slot that has left, and the credit it left with, by which every remaining credit fell. It is no `Entry`,
/// since a clause that speaks of one of the two says by its type which.
#[derive(Clone, Copy, Debug, PartialEq)]
pub struct Expelled {
    pub slot: u32,
    pub credit: u32,
}

/// Which slot leaves first. No call changes the size or the span, and a call that declines changes nothing.
pub trait Order {
    /// Size, span and the list of waiting entries, least credit first, oldest placing first among equals.
    ghost meaning: { Self → OrderMeaning };

    /// Every hand is at 0. An order without hands is always at rest.
    ghost rested: { Self → Type 0 };

    /// How many slots there are: they are numbered from 0.
    fn size(&self) -> u32
        ensures { result ≡ (meaning self.now).size };

    /// The greatest credit that a placing may have.
    fn span(&self) -> u32
        ensures { result ≡ (meaning self.now).span };

    // Slot and credit are given apart, and not as an `Entry`: a caller has the one from its directory and the other as a cost.
    /// The slot joins behind all of its credit or less. Declines (answers false) exactly if the slot is not below the
    /// size, waits already, or the credit is 0 or above the span.
    fn place(&mut self, slot: u32, credit: u32) -> bool
        ensures answer { result ≡ takes (meaning self.old) slot credit }
        ensures after { meaning self.new ≡ placed (meaning self.old) slot credit };

    /// The slot goes, and nothing else moves. Declines (answers false) exactly if the slot does not wait.
    fn withdraw(&mut self, slot: u32) -> bool
        ensures answer { result ≡ waits slot (meaning self.old).waiting }
        ensures after { meaning self.new ≡ withdrawn (meaning self.old) slot };

    /// The first slot leaves, and every remaining credit falls by its credit. Answers `None` exactly if no slot waits.
    fn expel(&mut self) -> Option<Expelled>
        ensures answer { result ≡ leaver (meaning self.old).waiting }
        ensures after { meaning self.new ≡ expelled (meaning self.old) };

    /// Whether some slot has credit 0. Moves nothing.
    fn due(&self) -> bool
        ensures { result ≡ some_due (meaning self.now).waiting };

    /// No slot waits any more, and the hands are at 0.
    fn empty(&mut self)
        ensures after { meaning self.new ≡ emptied (meaning self.old) }
        ensures hands { rested self.new };

    /// The list is sorted, its slots are distinct and below the size, and its credits are at most the span.
    ghost lawful: { (o : Self) → Lawful (meaning o) };
}
