// A list with room for a fixed number of items, which is copied as an array is.
ghost use Rattle.std.specs.Prelude.{◌≡◌, ◌≤◌, ⊤};

use std::alloc::AllocError;

/// At most `N` items. Every place that is not in use holds what `new` was given, so the derived `==` compares the items.
#[derive(Debug, PartialEq, Eq)]
pub(crate) struct Few<T, const N: usize> {
    // An array with its count: a region and a log are copied, and no vector is Copy.
    items: [T; N],
    count: usize,
    ghost few: { count ≤ N },
}

// By hand, since a struct with both a type parameter and a ghost field derives neither.
impl<T: Copy, const N: usize> Clone for Few<T, N> {
    ghost is_clone = { λ f g. g ≡ f };

    ghost is_infallible = { λ _. ⊤ };

    fn clone(&self) -> Result<Self, AllocError> {
        Ok(*self)
    }
}

impl<T: Copy, const N: usize> Copy for Few<T, N> {}

impl<T: Copy, const N: usize> Few<T, N> {
    ghost use Rattle.std.specs.Prelude.{◌≡◌, ◌<◌, ◌≤◌, [], ◌∷◌, ◌++◌, length, nat_lt};
    ghost use Rattle.workers.specs.Few.{items_of};

    /// No item yet; `unused` stands in every place.
    pub(crate) fn new(unused: T) -> Self
        ensures { items_of result ≡ [] }
    {
        Few {
            items: [unused; N],
            count: 0,
        }
    }

    /// Whether there is room for one more item.
    pub(crate) fn has_room(&self) -> bool
        ensures { result ≡ nat_lt (length (items_of self.now)) N }
    {
        self.count < N
    }

    // Lists are filled by it and not by `collect`, which may fail.
    /// Adds an item behind the others.
    pub(crate) fn push(&mut self, item: T)
        requires { length (items_of self.old) < N }
        ensures { items_of self.new ≡ items_of self.old ++ item ∷ [] }
    {
        self.items[self.count] = item;
        self.count += 1;
    }

    /// The items, in order.
    pub(crate) fn as_slice(&self) -> &[T]
        ensures items { result.now ≡ items_of self.now }
        ensures few { length result.now ≤ N }
    {
        &self.items[..self.count]
    }
}
