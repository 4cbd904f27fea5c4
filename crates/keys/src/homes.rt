// The mixing that spreads homes, for every key kind.
ghost use Rattle.std.specs.Prelude.{◌≡◌};
ghost use Rattle.keys.specs.Homes.{stirred};

// Chosen by a search: docs/DIRECTORIES.md has what it was chosen for.
const MULTIPLIER: u64 = 2_410_779_157;
// The greatest prime of 32 bits: a remainder by it depends on every bit, so that multiples of a power of two do not share a bucket.
const PRIME: u64 = 4_294_967_291;

// A home with one more number mixed in.
pub(crate) fn stir(home: u32, next: u32) -> u32
    ensures { result ≡ stirred home next }
{
    ((home as u64 * MULTIPLIER + next as u64) % PRIME) as u32
}
