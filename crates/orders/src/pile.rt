ghost use Rattle.orders.specs.Fresh.{FreshPile};

use crate::bottom::BottomWheel;
use crate::wheel::Wheel;

/// A wheel over a bottom wheel: 1,024 slots, credits of 1 to 65,280.
pub type Pile = Wheel<BottomWheel>;

/// A pile in which no slot waits, with both hands at 0.
pub fn new_pile() -> Pile
    ensures { FreshPile result }
{
    Wheel::new(BottomWheel::new())
}
