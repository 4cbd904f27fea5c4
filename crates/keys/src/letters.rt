// The bytes of part names: which may stand in one, and their home.
ghost use Rattle.std.specs.Prelude.{◌≡◌};
ghost use Rattle.keys.specs.Homes.{stirred_all};
ghost use Rattle.keys.specs.Names.{plain, all_plain};

use crate::homes::stir;

// Whether a byte may stand in a name.
fn is_plain(b: u8) -> bool
    ensures { result ≡ plain b }
{
    matches!(b, b'A'..=b'Z' | b'0'..=b'9' | b'-')
}

// Whether each byte may.
pub(crate) fn are_plain(text: &[u8]) -> bool
    ensures { result ≡ all_plain text.now }
{
    text.iter().all(|b| is_plain(*b))
}

// The bytes mixed into one number, first to last.
pub(crate) fn home_of_bytes(text: &[u8]) -> u32
    ensures { result ≡ stirred_all 0 text.now }
{
    text.iter().fold(0, |home, b| stir(home, *b as u32))
}
