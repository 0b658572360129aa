// The entries of a region, as values in memory.
ghost use Rattle.std.specs.Prelude.{◌≡◌, ◌++◌, [], ◌∷◌, OnOk, OnErr};

use std::alloc::AllocFailed;
use std::marker::Model;

/// The bytes of one entry.
#[derive(Drop)]
pub struct ByteList {
    items: Vec<u8>,
}

impl Model for ByteList {
    ghost use Rattle.std.specs.Prelude.{List, ℕ};

    ghost Value = { List ℕ };

    ghost view = { λ it. it.items.items };
}

impl ByteList {
    /// The entry of these bytes.
    pub fn new(items: Vec<u8>) -> Self
        ensures { result ≡ items.items }
    {
        ByteList { items }
    }

    /// The bytes, from the first on.
    pub fn items(&self) -> &[u8]
        ensures { result.now ≡ self.now }
    {
        &self.items
    }
}

/// The entries of one region, oldest first.
#[derive(Drop)]
pub struct Entries {
    items: Vec<ByteList>,
}

impl Model for Entries {
    ghost use Rattle.std.specs.Prelude.{List, ℕ};

    ghost Value = { List (List ℕ) };

    ghost view = { λ it. it.items.items };
}

impl Entries {
    /// These entries, oldest first.
    pub fn new(items: Vec<ByteList>) -> Self
        ensures { result ≡ items.items }
    {
        Entries { items }
    }

    /// The entries, oldest first.
    pub fn items(&self) -> &[ByteList]
        ensures { result.now ≡ self.now }
    {
        &self.items
    }

    // Puts an entry at the end.
    pub(crate) fn push(&mut self, entry: ByteList) -> Result<(), AllocFailed<ByteList>>
        ensures ok { OnOk result (self.new ≡ self.old ++ entry ∷ []) }
        ensures err { OnErr result (self.new ≡ self.old) }
    {
        self.items.push(entry)
    }
}
