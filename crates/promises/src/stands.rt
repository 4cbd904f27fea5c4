ghost use Rattle.promises.specs.Examples.{Examples};
ghost use Rattle.promises.specs.Promises.{EveryLine};

use keys::Key;

/// Every line of calls keeps the whole promise, for every key kind and every meaning of directory and order.
pub fn promises_stand<K: Key>()
    ensures { EveryLine K.Key.sameness }
{}

/// The worked lines of calls are lines, with the figures that stand beside them.
pub fn examples_stand()
    ensures { Examples }
{}
