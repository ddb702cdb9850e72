//! What a property holds.
ghost use Rattle.std.specs.Prelude.{◌≡◌};
ghost use Rattle.store.specs.Meaning.{inside};

/// The value of a property: nothing, a number, or a reference to an object.
#[derive(Clone, Copy, PartialEq, Eq, Debug)]
pub enum Value {
    Nothing,
    Number(i32),
    Reference(u16),
}

impl Value {
    /// Whether the value, if it is a reference, is one to an object below the number of objects.
    pub fn is_inside(self, objects: u16) -> bool
        ensures { result ≡ inside objects self }
    {
        match self {
            Value::Reference(target) => target < objects,
            _ => true,
        }
    }
}
