//! The value that the lock keeps.
ghost use Rattle.std.specs.Prelude.{◌≡◌, List, []};
ghost use Rattle.lra_model.specs.declared.entry.Entry.{Entry};
ghost use Rattle.lra_ticket.specs.History.{entries_by};

/// A value with a history of entries.
pub trait Kept: Drop {
    /// The facts that stay the same from the making of a value on. Contracts alone see them.
    type Origin;

    ghost origin: { Self → Self.Origin };

    // The entries that led to the value, the first one first.
    ghost history: { Self → List Entry };

    // What holds of the value whenever no one has it out of the lock.
    ghost lawful: { Self → Type 0 };

    // Some origin, for the view of a pass that is spent.
    ghost blank: { Self.Origin };

    // Entries bear numbers from 1 on.
    ghost from_one: { (x : Self) → lawful x → entries_by 0 (history x) ≡ [] };
}
