//! Fills lent places with a bounded list, of numbers and of records, and shows what the host then finds there.
#![tactic(auto)]

ghost use Rattle.std.specs.Prelude.{◌≡◌, length, nat_lt, slice_set};

mod examples;

use bounded::Bounded;

/// Notes an entry in the first place, if there is one; the other places keep what they held.
fn note<T: Drop>(places: &mut [T], entry: T) -> bool
    ensures told { result ≡ nat_lt 0 (length places.old) }
    ensures after { places.new ≡ slice_set places.old 0 entry }
{
    let mut list = Bounded::new(places);
    list.push(entry).is_ok()
}

/// A record of more than one part.
#[derive(Clone, Copy)]
struct Mark {
    place: usize,
    layer: u8,
}

/// How many of the marks found a place.
fn mark_all(places: &mut [Mark], marks: &[Mark]) -> usize {
    let mut list = Bounded::new(places);
    for mark in marks {
        let _ = list.push(*mark);
    }
    list.len()
}

fn main(rt: HostRuntime) -> anyhow::Result<()> {
    let mut numbers = [7, 8];
    let noted = note(&mut numbers, -3);
    println!(rt; "numbers {numbers:?}, noted {noted}")?;
    let none = note(&mut numbers[0..0], 1);
    println!(rt; "numbers {numbers:?}, noted {none}")?;
    let marks = [
        Mark { place: 1, layer: 0 },
        Mark { place: 2, layer: 3 },
        Mark { place: 3, layer: 1 },
    ];
    for room in 0..5 {
        let mut places = [Mark {
            place: 99,
            layer: 9,
        }; 4];
        let told = mark_all(&mut places[0..room], &marks);
        print!(rt; "{room} places: {told} marks:")?;
        for mark in &places {
            let place = mark.place;
            let layer = mark.layer;
            print!(rt; " {place}/{layer}")?;
        }
        println!(rt; "")?;
    }
    Ok(())
}
