ghost use Rattle.std.specs.Prelude.{◌≡◌};
ghost use Rattle.orders.specs.Meaning.{takes, placed, waits, withdrawn, leaver, expelled};
ghost use Rattle.orders.specs.Props.{sound_prop};
ghost use Rattle.orders.specs.Rings.{nexts};
ghost use Rattle.orders.specs.Wheels.{Sound};

use crate::own::OwnPart;
use crate::queues::{QUEUES, Queues};
use crate::{Expelled, Order, PLACES, SLOTS, SPAN_BELOW};

/// A wheel over another order: what leaves within the hand's round stands in its own queues, and the rest waits below.
#[derive(Drop)]
pub struct Wheel<O: Order> {
    own: OwnPart,
    below: O,
    ghost sound: { Sound (nexts own.queues.nodes) own.queues.home own.later own.hand (O.Order.meaning below) } by { sound_prop (nexts own.queues.nodes) own.queues.home own.later own.hand (O.Order.meaning below) },
}

impl<O: Order> Wheel<O> {
    ghost use Rattle.orders.specs.Fresh.{FreshWheel};
    ghost use Rattle.orders.specs.Turns.{WheelPop};

    /// A wheel over `below`, which is emptied. The hands are at 0.
    pub fn new(below: O) -> Wheel<O>
        ensures { FreshWheel O O.Order (O.Order.meaning below) result }
    {
        let mut below = below;
        below.empty();
        Wheel {
            own: OwnPart {
                queues: Queues::new(),
                hand: 0,
                later: [None; PLACES],
            },
            below,
        }
    }

    /// The first of the wheel's own slots leaves: the hand goes to the first filled queue from where it is.
    fn pop(&mut self) -> Option<Expelled>
        ensures { WheelPop O O.Order result self.old self.new }
    {
        let hand = self.own.hand as usize;
        let q = self.own.queues.from(hand)?;
        let slot = self.own.queues.pop(q);
        self.own.hand = q as u8;
        Some(Expelled {
            slot: slot as u32,
            credit: (q - hand) as u32,
        })
    }
}

impl<O: Order> Order for Wheel<O> {
    ghost use Rattle.orders.specs.Kinds.{wheels};
    ghost use Rattle.orders.specs.Turns.{WheelPlace, WheelWithdraw, WheelExpel};

    ghost meaning = { (wheels O O.Order).meaning };

    ghost rested = { (wheels O O.Order).rested };

    ghost lawful = { λ w. w.sound.linked.lawful };

    fn size(&self) -> u32 {
        self.below.size().min(SLOTS)
    }

    fn span(&self) -> u32 {
        QUEUES as u32 * self.below.span().min(SPAN_BELOW)
    }

    fn place(&mut self, slot: u32, credit: u32) -> bool
        ensures answer { result ≡ takes ((wheels O O.Order).meaning self.old) slot credit }
        ensures after { (wheels O O.Order).meaning self.new ≡ placed ((wheels O O.Order).meaning self.old) slot credit }
        ensures went { WheelPlace O O.Order result slot credit self.old self.new }
    {
        if slot >= SLOTS || slot >= self.below.size() || credit == 0 {
            return false;
        }
        if credit > self.span() {
            return false;
        }
        if self.own.queues.holds(slot as usize) || self.own.remembers(slot as usize) {
            return false;
        }
        let reach = self.own.hand as usize + credit as usize;
        if reach < QUEUES {
            self.own.queues.push(reach, slot as usize);
        } else {
            self.below.place(slot, (reach / QUEUES) as u32);
            self.own.later[slot as usize] = Some((reach % QUEUES) as u8);
        }
        true
    }

    fn withdraw(&mut self, slot: u32) -> bool
        ensures answer { result ≡ waits slot ((wheels O O.Order).meaning self.old).waiting }
        ensures after { (wheels O O.Order).meaning self.new ≡ withdrawn ((wheels O O.Order).meaning self.old) slot }
        ensures went { WheelWithdraw O O.Order result slot self.old self.new }
    {
        if slot >= SLOTS {
            return false;
        }
        if self.own.queues.holds(slot as usize) {
            self.own.queues.remove(slot as usize);
            return true;
        }
        if self.own.remembers(slot as usize) {
            self.below.withdraw(slot);
            self.own.later[slot as usize] = None;
            return true;
        }
        false
    }

    fn expel(&mut self) -> Option<Expelled>
        ensures answer { result ≡ leaver ((wheels O O.Order).meaning self.old).waiting }
        ensures after { (wheels O O.Order).meaning self.new ≡ expelled ((wheels O O.Order).meaning self.old) }
        ensures went { WheelExpel O O.Order result self.old self.new }
    {
        if let Some(entry) = self.pop() {
            return Some(entry);
        }
        let hand = self.own.hand as usize;
        let turns = self.own.migrate(&mut self.below)?;
        let entry = self.pop()?;
        Some(Expelled {
            slot: entry.slot,
            credit: (QUEUES * turns as usize - hand + entry.credit as usize) as u32,
        })
    }

    fn due(&self) -> bool {
        self.own.queues.filled(self.own.hand as usize)
    }

    fn empty(&mut self) {
        self.own.queues = Queues::new();
        self.own.hand = 0;
        self.own.later = [None; PLACES];
        self.below.empty();
    }
}
