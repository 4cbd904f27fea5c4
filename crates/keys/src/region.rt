// Region numbers.
ghost use Rattle.std.specs.Prelude.{◌≡◌};
ghost use Rattle.keys.specs.Regions.{same_number, number_home};
ghost use Rattle.std.proofs.Common.{rules};

use crate::homes::stir;
use crate::key::Key;

/// A region by its number. Two are the same if the numbers are equal.
#[derive(Clone, Copy, Debug, PartialEq, Eq)]
pub struct RegionNumber {
    pub number: u32,
}

impl Key for RegionNumber {
    ghost sameness = { same_number };

    ghost place = { number_home };

    ghost laws = { Prim.search rules };

    fn same(&self, other: &RegionNumber) -> bool {
        self.number == other.number
    }

    fn home(&self) -> u32 {
        stir(self.number, 0)
    }
}
