ghost use Rattle.replays.specs.Example.{Example};

/// The worked example of two slots and five rows comes to the figures and the text that stand beside it.
pub fn example_stands()
    ensures { Example }
{}
