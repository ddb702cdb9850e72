//! The tests of a store's calls.
ghost use Rattle.std.specs.Prelude.{◌≡◌};
ghost use Rattle.store.specs.Meaning.{get_test, put_test};

use crate::value::Value;
use lexer::name::is_lawful;
use lexer::refusal::Reason;

/// The tests of a get among so many objects.
pub fn check_get(objects: u16, object: u16, name: &[u8]) -> Result<(), Reason>
    ensures { result ≡ get_test objects object name.now }
{
    if object >= objects {
        return Err(Reason::Object);
    }
    if !is_lawful(name) {
        return Err(Reason::Name);
    }
    Ok(())
}

/// The tests of a put among so many objects, with so many writes left.
pub fn check_put(
    objects: u16,
    left: usize,
    object: u16,
    name: &[u8],
    value: Value,
) -> Result<(), Reason>
    ensures { result ≡ put_test objects left object name.now value }
{
    if !value.is_inside(objects) {
        return Err(Reason::Object);
    }
    check_get(objects, object, name)?;
    if left == 0 {
        return Err(Reason::Full);
    }
    Ok(())
}
