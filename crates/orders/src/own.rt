ghost use Rattle.std.specs.Prelude.{◌≡◌, ◌<◌, true, None};
ghost use Rattle.std.specs.Option.{is_some};
ghost use Rattle.orders.specs.Rings.{named};
ghost use Rattle.orders.specs.Rows.{Bare};
ghost use Rattle.orders.specs.Moved.{row};
ghost use Rattle.orders.specs.Steps.{SoundWith, Raised, Migrate};

use crate::queues::Queues;
use crate::{Order, PLACES};

/// What a wheel has of its own, beside the order below: a migration changes both, and the wheel hangs together again after it.
#[derive(Drop)]
pub(crate) struct OwnPart {
    pub(crate) queues: Queues,
    pub(crate) hand: u8,
    /// For each slot that waits below, the queue that it comes up to.
    pub(crate) later: [Option<u8>; PLACES],
}

impl OwnPart {
    // As `Queues::holds`, of another table: each is one look.
    /// Whether a queue is remembered for the slot.
    pub(crate) fn remembers(&self, slot: usize) -> bool
        requires { slot < 1024 }
        ensures { result ≡ is_some (named self.now.later slot) }
    {
        self.later[slot].is_some()
    }

    /// The slot comes up to the queue that is remembered for it.
    fn raise(&mut self, slot: usize)
        requires slot { slot < 1024 }
        requires below { is_some (named self.old.later slot) ≡ true }
        requires idle { named self.old.queues.home slot ≡ None }
        ensures { Raised slot self.old self.new }
    {
        if let Some(q) = self.later[slot] {
            self.queues.push(q as usize, slot);
            self.later[slot] = None;
        }
    }

    /// The order below expels, and goes on while it has slots due: each comes up, and the hand restarts from 0.
    pub(crate) fn migrate<O: Order>(&mut self, below: &mut O) -> Option<u32>
        requires sound { SoundWith self.old (O.Order.meaning below.old) }
        requires bare { Bare (row self.old) }
        ensures sound { SoundWith self.new (O.Order.meaning below.new) }
        ensures cases { Migrate result self.old self.new (O.Order.meaning below.old) (O.Order.meaning below.new) }
    {
        let first = below.expel()?;
        self.hand = 0;
        self.raise(first.slot as usize);
        // It counts nothing, and ends when the order below has no slot due.
        while below.due() {
            if let Some(next) = below.expel() {
                self.raise(next.slot as usize);
            }
        }
        Some(first.credit)
    }
}
