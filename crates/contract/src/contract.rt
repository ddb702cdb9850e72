//! The interface of contracts.
ghost use Rattle.contract.specs.Terms.{Terms, Orderly, after};
ghost use Rattle.std.specs.Prelude.{◌≡◌, true, []};

/// A contract means, for each residue, a set of readable paths and a set of writable paths. No call changes it.
pub trait Contract {
    /// What the contract keeps of the names passed so far.
    type Residue: Copy;

    /// What a residue permits.
    ghost terms: { Self → Self.Residue → Terms };

    /// The residue before any name.
    ghost starts: { Self → Self.Residue };

    /// The starting residue.
    fn start(&self) -> Self::Residue
        ensures { result ≡ starts self.now };

    /// The residue after a name: its sets are the left quotients by the name. Bytes that are no name step to where nothing
    /// is permitted.
    fn step(&self, at: Self::Residue, name: &[u8]) -> Self::Residue
        ensures { terms self.now result ≡ after name.now (terms self.now at) };

    // Two calls, and not one that is told which: the kinds answer them by different rules.

    /// Whether the empty path is readable.
    fn readable(&self, at: Self::Residue) -> bool
        ensures { result ≡ (terms self.now at).reads [] };

    /// Whether the empty path is writable.
    fn writable(&self, at: Self::Residue) -> bool
        ensures { result ≡ (terms self.now at).writes [] };

    // Every beginning of a readable path is readable, and only lists of lawful names are in the sets.
    ghost orderly: { (c : Self) (r : Self.Residue) → Orderly (terms c r) };

    // At the start the empty path is readable.
    ghost opened: { (c : Self) → (terms c (starts c)).reads [] ≡ true };
}
