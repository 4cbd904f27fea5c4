//! The orders as another crate sees them: what follows from their contracts alone, and tests of what they do. It depends on `orders` alone.
#![tactic(auto)]

ghost use Rattle.std.specs.Prelude.{◌≡◌};
ghost use Rattle.order_tests.specs.Uses.{gone, FreshStack};

use orders::{BottomWheel, Expelled, Order, Pile, Wheel, new_pile};

#[cfg(test)]
mod tests;

/// Three wheels high: a wheel over a pile.
pub type Stack = Wheel<Pile>;

/// A stack in which no slot waits, with its three hands at 0.
pub fn new_stack() -> Stack
    ensures { FreshStack result }
{
    Wheel::new(new_pile())
}

// The two below share two calls, and differ in the type, the credit and the fact: one function for both would be longer.
/// A pile takes slot 7 with its greatest credit, and gives it back with that credit.
pub fn greatest_of_pile() -> Option<Expelled>
    ensures { result ≡ gone 7 65280 }
{
    let mut pile = new_pile();
    pile.place(7, 65_280);
    pile.expel()
}

/// So does a stack, with 256 times as much.
pub fn greatest_of_stack() -> Option<Expelled>
    ensures { result ≡ gone 7 16711680 }
{
    let mut stack = new_stack();
    stack.place(7, 16_711_680);
    stack.expel()
}
