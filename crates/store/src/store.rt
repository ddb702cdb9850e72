//! The trait of stores.
ghost use Rattle.std.specs.Prelude.{◌≡◌};
ghost use Rattle.store.specs.Meaning.{Meaning, Lawful, get_answer, put_answer, put_after};

use crate::value::Value;
use lexer::refusal::Reason;

/// A store of an object graph. It means a number of objects, a graph and a number of writes left; each call says what it
/// answers and leaves by this meaning.
pub trait Store {
    /// What the store means.
    ghost means: { Self → Meaning };

    /// A relation between a store before and after, which every put keeps: with it a store that borrows says that its
    /// reference is still the one that was lent.
    ghost stays: { Self → Self → Type 0 };

    /// The number of objects.
    fn count(&self) -> u16
        ensures { result ≡ (means self.now).objects };

    /// The number of writes left.
    fn left(&self) -> usize
        ensures { result ≡ (means self.now).left };

    // An object and a name stand side by side, here and in all that serves these calls: a struct of the two would be made at
    // each call only to be taken apart in it.

    /// The value of a property. Refuses `Object`, then `Name`.
    fn get(&self, object: u16, name: &[u8]) -> Result<Value, Reason>
        ensures { result ≡ get_answer (means self.now) object name.now };

    /// Sets one property and takes one from the writes left. Refuses `Object`, then `Name`, then `Full`; a refused put
    /// leaves the meaning as it was.
    fn put(&mut self, object: u16, name: &[u8], value: Value) -> Result<(), Reason>
        ensures answer { result ≡ put_answer (means self.old) object name.now value }
        ensures after { means self.new ≡ put_after (means self.old) object name.now value }
        ensures stays { stays self.old self.new };

    // What a store means is lawful.
    ghost lawful: { (s : Self) → Lawful (means s) };

    // The relation holds where nothing was put, and over one put after another.
    ghost still: { (s : Self) → stays s s };

    ghost chains: { (s t u : Self) → stays s t → stays t u → stays s u };
}
