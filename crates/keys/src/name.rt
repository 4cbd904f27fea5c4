// Part names.
ghost use Rattle.std.specs.Prelude.{◌≡◌, ◌≤◌, true, take};
ghost use Rattle.std.specs.Option.{option_map};
ghost use Rattle.std.proofs.Common.{ap};
ghost use Rattle.keys.specs.Homes.{stirred_all};
ghost use Rattle.keys.specs.Names.{is_name, named};
ghost use Rattle.keys.specs.Texts.{bytes_refl, bytes_eq, bytes_sym, bytes_trans};

use crate::key::Key;
use crate::letters::{are_plain, home_of_bytes};

/// A part by its name: 1 to 16 bytes, each `A` to `Z`, `0` to `9` or a hyphen.
/// Two are the same if they have the same bytes.
// An array with a length beside it, since keys are `Copy` and an `ArrayVec` is not. No derived `==`:
// that would compare the bytes behind the name too.
#[derive(Clone, Copy)]
pub struct PartName {
    // The name, and behind it bytes that mean nothing.
    bytes: [u8; 16],
    len: usize,
    ghost short: { len ≤ 16 },
    ghost ok: { is_name (take len bytes) ≡ true },
}

impl PartName {
    ghost use Rattle.keys.specs.PartNames.{bytes_of};

    /// The longest name, in bytes.
    pub const LONGEST: usize = 16;

    /// The name of these bytes; none if they are not 1 to 16 bytes, each `A` to `Z`, `0` to `9` or a hyphen.
    pub fn new(bytes: &[u8]) -> Option<PartName>
        ensures { option_map bytes_of result ≡ named bytes.now }
    {
        let len = bytes.len();
        if len == 0 || len > Self::LONGEST || !are_plain(bytes) {
            return None;
        }
        let mut kept = [0; 16];
        kept[..len].copy_from_slice(bytes);
        Some(PartName { bytes: kept, len })
    }

    /// The bytes of the name.
    pub fn bytes(&self) -> &[u8]
        ensures { result.now ≡ bytes_of self.now }
    {
        &self.bytes[..self.len]
    }
}

impl Key for PartName {
    ghost use Rattle.keys.specs.PartNames.{bytes_of, same_name, name_home};

    ghost sameness = { same_name };

    ghost place = { name_home };

    ghost laws = { record {
      reflexive = λ a. bytes_refl (bytes_of a);
      symmetric = λ a b t. bytes_sym (bytes_of a) (bytes_of b) t;
      transitive = λ a b c t u. bytes_trans (bytes_of a) (bytes_of b) (bytes_of c) t u;
      one_home = λ a b t. ap (stirred_all 0) (bytes_eq (bytes_of a) (bytes_of b) t);
    } };

    fn same(&self, other: &PartName) -> bool {
        self.bytes() == other.bytes()
    }

    fn home(&self) -> u32 {
        home_of_bytes(self.bytes())
    }
}
