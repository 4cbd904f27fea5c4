// A key kind made for tests.
ghost use Rattle.std.specs.Prelude.{ℕ, ◌==◌};
ghost use Rattle.std.proofs.Common.{rules};

use keys::Key;

/// A key with a tag that sameness does not look at, and one home for all, so that every look-up goes through one chain.
#[derive(Clone, Copy)]
pub(crate) struct Crowded {
    pub(crate) number: u32,
    pub(crate) tag: u32,
}

impl Key for Crowded {
    ghost sameness = { λ a b. (a.number == b.number) };

    ghost place = { λ _. 7 };

    ghost laws = { Prim.search rules };

    fn same(&self, other: &Crowded) -> bool {
        self.number == other.number
    }

    fn home(&self) -> u32 {
        7
    }
}
