//! Clerks of an office.

ghost use Rattle.std.specs.Prelude.{◌≡◌, Some, None, IsSome};

use lra_ticket::{Kept, Pass};

/// A clerk: it gives commands to an office under its number. It has the right to ask for the lock, and so what it has
/// seen of the history.
#[derive(Drop)]
pub struct Clerk<V: Kept> {
    pub(crate) number: u32,
    /// The number of bytes of the journal that cover all that it has seen.
    pub(crate) position: u64,
    /// The pass. It is missing while a command is done.
    pub(crate) pass: Option<Pass<V>>,
}

impl<V: Kept> Clerk<V> {
    /// Takes its pass, which is missing until it is put back.
    pub(crate) fn take_pass(&mut self) -> Pass<V>
        requires { IsSome self.old.pass }
        ensures taken { self.old.pass ≡ Some result }
        ensures number { self.new.number ≡ self.old.number }
        ensures position { self.new.position ≡ self.old.position }
    {
        let Some(pass) = self.pass.take() else {
            unreachable!();
        };
        pass
    }

    /// Returns how many bytes, of those that the office's writer took since the office was made, have to be durable so
    /// that all that the clerk has seen is durable.
    pub fn position(&self) -> u64
        ensures { result ≡ self.now.position }
    {
        self.position
    }
}
