ghost use Rattle.orders.specs.Figures.{Figures};

/// The worked figures of a pile hold: the contract is the list of them.
pub fn figures_stand()
    ensures { Figures }
{}
