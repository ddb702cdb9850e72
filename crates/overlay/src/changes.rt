//! The changed properties over a store.
ghost use Rattle.std.specs.Borrow.{sem};
ghost use Rattle.std.specs.Prelude.{◌≡◌, ◌+◌, ◌<◌, ◌≤◌, length, slice_index_or, slice_set};
ghost use Rattle.store.specs.Cells.{with_value};

use store::cell::Cell;
use store::value::Value;

/// The most changed properties of an overlay, and the writes that it has when made.
pub(crate) const MAX_ENTRIES: usize = 64;

/// A store, and the entries of the properties that are changed over it: the first ones are used.
#[derive(Drop)]
pub struct Changes<S> {
    pub(crate) below: S,
    // An array and a count, and not a row: an entry is lent to be changed, and for a loan out of a row no proof was found.
    pub(crate) entries: [Cell; MAX_ENTRIES],
    pub(crate) used: usize,
    ghost within: { used ≤ 64 },
    ghost full: { length entries ≡ 64 },
}

impl<S> Changes<S> {
    ghost use Rattle.overlay.specs.Lent.{LendsEntry};

    /// Lends one entry to be changed.
    pub(crate) fn entry_mut(&mut self, i: usize) -> &mut Cell
        requires { i < 64 }
        ensures value { result.now ≡ slice_index_or self.old.entries i result.now }
        ensures* writes_back { sem 𝓛 (LendsEntry S.row self.entry i result) }
    {
        &mut self.entries[i]
    }

    /// Changes the value of an entry.
    pub(crate) fn change(&mut self, i: usize, value: Value)
        requires { i < 64 }
        ensures entries { (d : Cell) → self.new.entries ≡ slice_set self.old.entries i (with_value (slice_index_or self.old.entries i d) value) }
        ensures used { self.new.used ≡ self.old.used }
        ensures below { self.new.below ≡ self.old.below }
    {
        let entry = self.entry_mut(i);
        entry.value = value;
    }

    /// Adds an entry past the others.
    pub(crate) fn add(&mut self, entry: Cell)
        requires { self.old.used < 64 }
        ensures entries { self.new.entries ≡ slice_set self.old.entries self.old.used entry }
        ensures used { self.new.used ≡ self.old.used + 1 }
        ensures below { self.new.below ≡ self.old.below }
    {
        let used = self.used;
        self.entries[used] = entry;
        self.used = used + 1;
    }
}
