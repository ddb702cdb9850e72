//! Lists of at most so many entries, which allocate nothing: one in places that a host lends, and one in the value itself.
#![tactic(auto)]

ghost use Rattle.std.specs.Prelude.{◌≡◌, ◌≤◌, [], length, Ok, Err, cond, nat_lt, slice_set};

pub mod row;

/// A list of at most as many entries as the places that a host lends; they fill the places from the first on.
#[derive(Drop)]
pub struct Bounded<'a, T> {
    // Places of the host and a count, in place of a vector: the library allocates nothing.
    places: &'a mut [T],
    used: usize,
    ghost within: { used ≤ length places.now },
}

impl<'a, T: Drop> Bounded<'a, T> {
    ghost use Rattle.bounded.specs.Filled.{places_of, filled, rest, has_room, filled_after, rest_after};

    /// An empty list in the places lent, which keep what they hold.
    pub fn new(places: &'a mut [T]) -> Bounded<'a, T>
        ensures empty { filled result ≡ [] }
        ensures places { places_of result ≡ places.old }
        ensures lender { result.places.ghost_name ≡ places.entry.ghost_name }
    {
        Bounded { places, used: 0 }
    }

    /// The number of entries.
    pub fn len(&self) -> usize
        ensures { result ≡ length (filled self.now) }
    {
        self.used
    }

    /// Adds an entry, or leaves a full list as it was and gives the entry back.
    pub fn push(&mut self, entry: T) -> Result<(), T>
        ensures room { result ≡ cond (has_room self.old) (Ok tt) (Err entry) }
        ensures filled { filled self.new ≡ filled_after self.old entry }
        ensures rest { rest self.new ≡ rest_after self.old }
        ensures size { length (places_of self.new) ≡ length (places_of self.old) }
        ensures lender { self.new.places.ghost_name ≡ self.old.places.ghost_name }
    {
        if self.used == self.places.len() {
            return Err(entry);
        }
        self.places[self.used] = entry;
        self.used += 1;
        Ok(())
    }

    /// Puts an entry in the place of another, or gives it back where there is none to replace and leaves the list as it
    /// was.
    pub fn replace(&mut self, at: usize, entry: T) -> Result<(), T>
        ensures there { result ≡ cond (nat_lt at (length (filled self.old))) (Ok tt) (Err entry) }
        ensures filled { filled self.new ≡ slice_set (filled self.old) at entry }
        ensures rest { rest self.new ≡ rest self.old }
        ensures size { length (places_of self.new) ≡ length (places_of self.old) }
        ensures lender { self.new.places.ghost_name ≡ self.old.places.ghost_name }
    {
        if at >= self.used {
            return Err(entry);
        }
        self.places[at] = entry;
        Ok(())
    }
}
