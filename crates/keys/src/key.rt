// What every key kind has.
ghost use Rattle.std.specs.Prelude.{◌≡◌, ℕ, Bool};
ghost use Rattle.keys.specs.Sameness.{SameLaws};

/// A kind of keys. Code over keys tells them apart by sameness alone: two keys that are the same
/// need not be equal values, and whatever one of them finds the other finds too.
pub trait Key: Copy {
    // Whether two keys are the same.
    ghost sameness: { Self → Self → Bool };

    // The home of a key.
    ghost place: { Self → ℕ };

    /// Whether this key is the same as another.
    fn same(&self, other: &Self) -> bool
        ensures { result ≡ sameness self.now other.now };

    /// Where the look-up of this key begins. Keys that are not the same should seldom share a home.
    fn home(&self) -> u32
        ensures { result ≡ place self.now };

    // Sameness is an equivalence, and same keys have one home.
    ghost laws: { SameLaws sameness place };
}
