//! A list of at most `N` items in a value of fixed size, which is copied as a whole.
ghost use Rattle.std.specs.Prelude.{◌≡◌, ⊤, ◌≤◌, ◌<◌, [], ◌∷◌, ◌++◌, length, if◌then◌else◌, Ok, Err, ◌==◌, nat_le, nat_lt, set, slice_get};
ghost use Rattle.std.specs.Cmp.{on_equiv, on_per};
ghost use Rattle.std.specs.Cmp.Lexicographic.{pointwise, lists_per, lists_equiv};

use std::alloc::AllocError;
use std::fmt;

/// The first `count` places hold the items; what the others hold has no meaning.
/// The kit's `arrayvec` is no copy and asks its items for a default; arrangements hold such lists, and are copied.
pub struct FixedList<T, const N: usize> {
    items: [T; N],
    count: usize,
    ghost few: { count ≤ N },
    ghost long: { length items ≡ N },
}

impl<T: Copy, const N: usize> FixedList<T, N> {
    ghost use Rattle.sheets.specs.FixedLists.{held};

    /// No items; `blank` fills the places.
    pub fn new(blank: T) -> Self
        ensures { held result ≡ [] }
    {
        FixedList {
            items: [blank; N],
            count: 0,
        }
    }

    /// How many items it holds.
    pub fn len(&self) -> usize
        ensures { result ≡ length (held self.now) }
    {
        self.count
    }

    /// Whether it holds no item.
    pub fn is_empty(&self) -> bool
        ensures { result ≡ (length (held self.now) == 0) }
    {
        self.len() == 0
    }

    /// Whether it has room for no more.
    pub fn is_full(&self) -> bool
        ensures { result ≡ nat_le N (length (held self.now)) }
    {
        self.len() >= N
    }

    /// The items that it holds, in order.
    pub fn as_slice(&self) -> &[T]
        ensures { result.now ≡ held self.now }
    {
        &self.items[..self.count]
    }

    /// The item of that number, counted from 0, if there is one.
    pub fn get(&self, index: usize) -> Option<T>
        ensures { result ≡ slice_get (held self.now) index }
    {
        self.as_slice().get(index).copied()
    }

    /// Adds an item at the end, or gives it back where there is no room.
    pub fn try_push(&mut self, item: T) -> Result<(), T>
        ensures result { result ≡ (if nat_lt (length (held self.old)) N then Ok tt else Err item) }
        ensures items { held self.new ≡ (if nat_lt (length (held self.old)) N then held self.old ++ (item ∷ []) else held self.old) }
    {
        if self.is_full() {
            return Err(item);
        }
        self.push(item);
        Ok(())
    }

    /// Puts an item in the place of that number, counted from 0, if there is one.
    pub fn set(&mut self, index: usize, item: T)
        ensures { held self.new ≡ set (held self.old) index item }
    {
        if index < self.count {
            self.items[index] = item;
        }
    }

    // Adds an item at the end.
    pub(crate) fn push(&mut self, item: T)
        requires { length (held self.old) < N }
        ensures { held self.new ≡ held self.old ++ (item ∷ []) }
    {
        self.items[self.count] = item;
        self.count += 1;
    }
}

impl<T: Copy, const N: usize> Copy for FixedList<T, N> {}

// By hand: of a generic struct with a ghost field `Clone` cannot be derived, with `Copy` or without.
impl<T: Copy, const N: usize> Clone for FixedList<T, N> {
    ghost is_clone = { λ list copy. copy ≡ list };

    ghost is_infallible = { λ _. ⊤ };

    fn clone(&self) -> Result<Self, AllocError> {
        Ok(*self)
    }
}

// A derive would compare the places that hold no item too.
impl<T: PartialEq + Copy, const N: usize> PartialEq for FixedList<T, N> {
    ghost use Rattle.sheets.specs.FixedLists.{held};

    ghost eq = { λ a b. pointwise T.eq (held a) (held b) };

    ghost laws = { on_per held (lists_per T.laws) };

    fn eq(&self, other: &Self) -> bool {
        self.as_slice() == other.as_slice()
    }
}

impl<T: Eq + Copy, const N: usize> Eq for FixedList<T, N> {
    ghost use Rattle.sheets.specs.FixedLists.{held};

    ghost laws = { on_equiv held (lists_equiv T.Eq.laws) };
}

// A derive would print the places that hold no item too.
impl<T: fmt::Debug + Copy, const N: usize> fmt::Debug for FixedList<T, N> {
    fn fmt<W: fmt::Write>(&self, f: &mut fmt::Formatter<W>) -> fmt::Result {
        f.debug_list().entries(self.as_slice()).finish()
    }
}
