//! The variables of a script, and their numbers.
ghost use Rattle.std.specs.Prelude.{◌≡◌, ◌≤◌, true, [], ◌∷◌, length};
ghost use Rattle.bounded.specs.Rows.{entries_of};
ghost use Rattle.lexer.specs.Names.{lawful};
ghost use Rattle.script.specs.Reading.{plan};

use bounded::row::Row;
use lexer::name::Name;

/// The most variables that a script has.
pub const MAX_VARIABLES: usize = 16;

/// The names of a script's variables, in the order in which they first appear, `plan` before all.
#[derive(Clone, Copy)]
pub struct Variables {
    names: Row<Name, MAX_VARIABLES>,
    ghost few: { length (entries_of names) ≤ 16 },
}

impl Variables {
    ghost use Rattle.parser.specs.Numbering.{variables_of, Sought, Numbered};

    /// `plan` alone.
    #[tactic(auto, unfolding(lexer::specs::Classes::class_of))]
    pub(crate) fn new() -> Variables
        ensures { variables_of result ≡ plan ∷ [] }
    {
        let plan = Name::new(b"plan").unwrap();
        let blank = plan;
        let mut names = Row::new(blank);
        names.push(plan).unwrap();
        Variables { names }
    }

    /// How many variables there are.
    pub(crate) fn len(&self) -> usize
        ensures value { result ≡ length (variables_of self.now) }
        ensures upper_bound { result ≤ 16 }
    {
        self.names.len()
    }

    /// The number of the variable with this name, if there is one.
    fn find(&self, name: &[u8]) -> Option<usize>
        ensures { Sought (variables_of self.now) name.now result }
    {
        self.names
            .as_slice()
            .iter()
            .position(|known| known.as_bytes() == name)
    }

    /// The number of the variable with this name, which is added if it is new, unless there are too many.
    pub(crate) fn number(&mut self, name: &[u8]) -> Option<usize>
        requires { lawful name.now ≡ true }
        ensures { Numbered (variables_of self.old) name.now (variables_of self.new) result }
    {
        if let Some(known) = self.find(name) {
            return Some(known);
        }
        let place = self.names.len();
        self.names.push(Name::new(name).unwrap()).ok()?;
        Some(place)
    }
}
