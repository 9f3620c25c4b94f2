//! The prefix of a journal, for contracts alone.

ghost use Rattle.std.specs.Prelude.{◌≡◌, ℕ, List, [], ◌++◌};
ghost use Rattle.std.specs.Borrow.{ftrue};

use std::marker::Model;

/// The bytes of a journal prefix, for contracts alone: they take no memory, and adding some does nothing at run time. A
/// clause reads them as `bytes`.
#[derive(Drop)]
pub struct JournalPrefix {
    pub ghost bytes: { List ℕ },
}

impl Model for JournalPrefix {
    ghost also_owns = { λ _. ftrue };
}

// They own nothing.
unsafe impl Send for JournalPrefix {}

impl JournalPrefix {
    /// Makes a prefix of no bytes.
    pub fn empty() -> JournalPrefix
        ensures { result.bytes ≡ [] }
    {
        JournalPrefix {}
    }

    /// Returns these bytes, with a piece behind them.
    pub fn and(&self, piece: &[u8]) -> JournalPrefix
        ensures { result.bytes ≡ self.now.bytes ++ piece.now }
    {
        JournalPrefix {}
    }
}
