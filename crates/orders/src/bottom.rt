ghost use Rattle.std.specs.Prelude.{◌≡◌, ◌<◌};
ghost use Rattle.orders.specs.Meaning.{takes, placed, waits, withdrawn, leaver, expelled};
ghost use Rattle.orders.specs.Bottoms.{bottom_lawful};

use crate::queues::{QUEUES, Queues};
use crate::{BOTTOM_SPAN, Expelled, Order, SLOTS};

/// The bottom wheel: 256 queues and a hand, where credit c is queue (hand + c) mod 256.
#[derive(Drop)]
pub struct BottomWheel {
    queues: Queues,
    hand: u8,
    ghost hand_in: { hand < 256 },
}

impl BottomWheel {
    ghost use Rattle.orders.specs.Fresh.{FreshBottom};

    /// A bottom wheel in which no slot waits, with the hand at 0.
    pub fn new() -> BottomWheel
        ensures { FreshBottom result }
    {
        BottomWheel {
            queues: Queues::new(),
            hand: 0,
        }
    }
}

impl Order for BottomWheel {
    ghost use Rattle.orders.specs.Kinds.{bottoms};
    ghost use Rattle.orders.specs.Turns.{BottomPlace, BottomWithdraw, BottomExpel};

    ghost meaning = { bottoms.meaning };

    ghost rested = { bottoms.rested };

    ghost lawful = { λ w. bottom_lawful w.queues w.hand w.hand_in };

    fn size(&self) -> u32 {
        SLOTS
    }

    fn span(&self) -> u32 {
        BOTTOM_SPAN
    }

    fn place(&mut self, slot: u32, credit: u32) -> bool
        ensures answer { result ≡ takes (bottoms.meaning self.old) slot credit }
        ensures after { bottoms.meaning self.new ≡ placed (bottoms.meaning self.old) slot credit }
        ensures went { BottomPlace result slot credit self.old self.new }
    {
        if slot >= SLOTS || credit == 0 || credit > BOTTOM_SPAN {
            return false;
        }
        if self.queues.holds(slot as usize) {
            return false;
        }
        let q = (self.hand as usize + credit as usize) % QUEUES;
        self.queues.push(q, slot as usize);
        true
    }

    fn withdraw(&mut self, slot: u32) -> bool
        ensures answer { result ≡ waits slot (bottoms.meaning self.old).waiting }
        ensures after { bottoms.meaning self.new ≡ withdrawn (bottoms.meaning self.old) slot }
        ensures went { BottomWithdraw result slot self.old self.new }
    {
        if slot >= SLOTS {
            return false;
        }
        if !self.queues.holds(slot as usize) {
            return false;
        }
        self.queues.remove(slot as usize);
        true
    }

    fn expel(&mut self) -> Option<Expelled>
        ensures answer { result ≡ leaver (bottoms.meaning self.old).waiting }
        ensures after { bottoms.meaning self.new ≡ expelled (bottoms.meaning self.old) }
        ensures went { BottomExpel result self.old self.new }
    {
        let hand = self.hand as usize;
        let far = self.queues.around(hand)?;
        let q = (hand + far) % QUEUES;
        let slot = self.queues.pop(q);
        self.hand = q as u8;
        Some(Expelled {
            slot: slot as u32,
            credit: far as u32,
        })
    }

    fn due(&self) -> bool {
        self.queues.filled(self.hand as usize)
    }

    fn empty(&mut self) {
        self.queues = Queues::new();
        self.hand = 0;
    }
}
