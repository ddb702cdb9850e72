//! The search that stores share: the last record of a property.
ghost use Rattle.std.specs.Prelude.{◌≡◌, ℕ, List};
ghost use Rattle.std.specs.Str.{bytes_eq};
ghost use Rattle.store.specs.Records.{fits, last_place, Found};

/// A record of a property: it tells the property's object and name.
pub trait Record {
    ghost owner: { Self → ℕ };

    ghost called: { Self → List ℕ };

    /// The object.
    fn object(&self) -> u16
        ensures { result ≡ owner self.now };

    /// The bytes of the name.
    fn name(&self) -> &[u8]
        ensures { result.now ≡ called self.now };
}

/// Whether a record's name is the one that is looked for.
fn is_same(own: &[u8], name: &[u8]) -> bool
    ensures { result ≡ bytes_eq own.now name.now }
{
    // In a function of its own, and the name before the record's: so the comparison goes by the length of the name, which is
    // one for all records.
    name == own
}

/// The place of the last record of a property, or none if there is no record of it.
pub fn last_of<R: Record>(records: &[R], object: u16, name: &[u8]) -> Option<usize>
    ensures place { result ≡ last_place (fits R.owner R.called object name.now) records.now }
    ensures last { Found (fits R.owner R.called object name.now) records.now result }
{
    records.iter().rposition(|record| record.object() == object && is_same(record.name(), name))
}
