//! An overlay over a store.
ghost use Rattle.std.specs.Prelude.{◌≡◌, ◌+◌, ◌<◌, ◌≤◌, true, length, take, IfSome};
ghost use Rattle.std.proofs.Common.{rules};
ghost use Rattle.store.specs.Cells.{owner, called, CellsApart};
ghost use Rattle.store.specs.Meaning.{Meaning, inside, set_in};
ghost use Rattle.store.specs.Records.{fits, last_place};
ghost use Rattle.overlay.specs.Over.{checked as checked_of, fresh_over};

use crate::changes::{Changes, MAX_ENTRIES};
use lexer::refusal::Reason;
use store::cell::Cell;
use store::checks::{check_get, check_put};
use store::search::last_of;
use store::store::Store;
use store::value::Value;

/// A store that keeps at most 64 changed properties, each in one entry. While writes are left there is a free entry.
#[derive(Drop)]
pub struct Overlay<S> {
    changes: Changes<S>,
    left: usize,
    ghost room: { changes.used + left ≤ 64 },
    ghost apart: { CellsApart changes.entries changes.used },
}

/// A reference to an object past the others reads as nothing.
fn checked(value: Value, objects: u16) -> Value
    ensures { result ≡ checked_of objects value }
{
    if value.is_inside(objects) {
        value
    } else {
        Value::Nothing
    }
}

impl<S: Store> Overlay<S> {
    ghost use Rattle.overlay.specs.Overlays.{beneath, means_over};

    /// An overlay that changes nothing yet, with 64 writes left.
    pub fn new(below: S) -> Overlay<S>
        ensures beneath { beneath result ≡ below }
        ensures means { means_over (S.Store.means below) result ≡ fresh_over (S.Store.means below) }
    {
        Overlay {
            changes: Changes {
                below,
                entries: [Cell::blank(); MAX_ENTRIES],
                used: 0,
            },
            left: MAX_ENTRIES,
        }
    }

    /// Hands the store beneath back, which no call has changed.
    pub fn into_below(self) -> S
        ensures { result ≡ beneath self }
    {
        self.changes.below
    }
}

impl<S> Overlay<S> {
    ghost use Rattle.overlay.specs.Overlays.{beneath, means_over};

    // As short as in a table, and not one function of both: the records lie in memory of its own, and what is shared is
    // `last_of`.

    /// The entry of a property.
    fn find(&self, object: u16, name: &[u8]) -> Option<usize>
        ensures within { IfSome result (λ i. i < self.now.changes.used) }
        ensures place { result ≡ last_place (fits owner called object name.now) (take self.now.changes.used self.now.changes.entries) }
    {
        last_of(&self.changes.entries[..self.changes.used], object, name)
    }

    /// Sets a property, where a write is left.
    fn set(&mut self, object: u16, name: &[u8], value: Value)
        requires left { 0 < self.old.left }
        requires short { length name.now ≤ 24 }
        ensures beneath { beneath self.new ≡ beneath self.old }
        ensures after { (m : Meaning) → inside m.objects value ≡ true → means_over m self.new ≡ set_in (means_over m self.old) object name.now value }
    {
        self.left -= 1;
        match self.find(object, name) {
            Some(i) => self.changes.change(i, value),
            None => self.changes.add(Cell::new(object, name, value)),
        }
    }
}

impl<S: Store> Store for Overlay<S> {
    ghost use Rattle.overlay.specs.Over.{over_lawful};
    ghost use Rattle.overlay.specs.Overlays.{beneath, means_over};

    ghost means = { λ t. means_over (S.Store.means (beneath t)) t };

    // No put changes the store beneath.
    ghost stays = { λ s t. beneath t ≡ beneath s };

    fn count(&self) -> u16 {
        self.changes.below.count()
    }

    fn left(&self) -> usize {
        self.left
    }

    fn get(&self, object: u16, name: &[u8]) -> Result<Value, Reason> {
        let objects = self.changes.below.count();
        check_get(objects, object, name)?;
        match self.find(object, name) {
            Some(i) => Ok(checked(self.changes.entries[i].value, objects)),
            None => self.changes.below.get(object, name),
        }
    }

    fn put(&mut self, object: u16, name: &[u8], value: Value) -> Result<(), Reason> {
        check_put(self.changes.below.count(), self.left, object, name, value)?;
        self.set(object, name, value);
        Ok(())
    }

    ghost lawful = { λ t. over_lawful (S.Store.means (beneath t)) t.changes.entries t.changes.used t.left (S.Store.lawful (beneath t)) };

    ghost still = { Prim.search rules };

    ghost chains = { Prim.search rules };
}
