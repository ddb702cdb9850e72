//! A list of at most `N` entries, which lie in the value itself.
ghost use Rattle.std.specs.Prelude.{◌≡◌, ◌-◌, ◌≤◌, [], ◌∷◌, ◌++◌, length, take, slice_get, Ok, Err, Some, None, cond, nat_le, nat_lt, replicate, ⊤};
ghost use Rattle.std.specs.Option.{option_map};

use std::alloc::AllocError;

/// A list of at most `N` entries, which fill the places from the first on.
// It has no `Model`: of a value that holds a struct with one, no proof is made where it is passed or stored twice.
pub struct Row<T, const N: usize> {
    // An array and a count, in place of a vector: the library allocates nothing. `Bounded` has its places from a host, and so
    // its clauses tell the host what they hold.
    places: [T; N],
    used: usize,
    ghost within: { used ≤ N },
    ghost full: { length places ≡ N },
}

// Written out, since it is derived over ghost fields only where the type is `Copy` whatever its parameters.
impl<T: Copy, const N: usize> Clone for Row<T, N> {
    ghost is_clone = { λ row copy. copy ≡ row };

    ghost is_infallible = { λ _. ⊤ };

    fn clone(&self) -> Result<Row<T, N>, AllocError> {
        Ok(*self)
    }
}

impl<T: Copy, const N: usize> Copy for Row<T, N> {}

impl<T: Copy, const N: usize> Row<T, N> {
    ghost use Rattle.bounded.specs.Rows.{entries_of, spare_of};

    /// An empty row; its places hold the blank.
    pub fn new(blank: T) -> Row<T, N>
        ensures entries { entries_of result ≡ [] }
        ensures spare { spare_of result ≡ replicate N blank }
    {
        Row {
            places: [blank; N],
            used: 0,
        }
    }

    /// The row of these entries, if they fit.
    pub fn from_slice(blank: T, entries: &[T]) -> Option<Row<T, N>>
        ensures { option_map entries_of result ≡ cond (nat_le (length entries.now) N) (Some entries.now) None }
    {
        if entries.len() > N {
            return None;
        }
        let mut places = [blank; N];
        places[..entries.len()].copy_from_slice(entries);
        Some(Row {
            places,
            used: entries.len(),
        })
    }

    /// The number of entries.
    pub fn len(&self) -> usize
        ensures value { result ≡ length (entries_of self.now) }
        ensures few { result ≤ N }
    {
        self.used
    }

    /// The entries.
    pub fn as_slice(&self) -> &[T]
        ensures value { result.now ≡ entries_of self.now }
        ensures few { length result.now ≤ N }
    {
        &self.places[..self.used]
    }

    /// Adds an entry, or leaves a full row as it was and gives the entry back.
    pub fn push(&mut self, entry: T) -> Result<(), T>
        ensures room { result ≡ cond (nat_lt (length (entries_of self.old)) N) (Ok tt) (Err entry) }
        ensures entries { entries_of self.new ≡ cond (nat_lt (length (entries_of self.old)) N) (entries_of self.old ++ entry ∷ []) (entries_of self.old) }
    {
        if self.used == N {
            return Err(entry);
        }
        self.places[self.used] = entry;
        self.used += 1;
        Ok(())
    }

    /// Takes all entries away.
    pub fn clear(&mut self)
        ensures { entries_of self.new ≡ [] }
    {
        self.used = 0;
    }

    /// Takes the last entry away, if there is one.
    pub fn pop(&mut self) -> Option<T>
        ensures last { result ≡ slice_get (entries_of self.old) (length (entries_of self.old) - 1) }
        ensures entries { entries_of self.new ≡ take (length (entries_of self.old) - 1) (entries_of self.old) }
    {
        if self.used == 0 {
            return None;
        }
        self.used -= 1;
        Some(self.places[self.used])
    }
}
