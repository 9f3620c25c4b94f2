//! Five addresses in one buffer.

ghost use Rattle.std.specs.Prelude.{◌≡◌, ◌++◌, ◌≤◌, length, OnOk, IfOk};
ghost use Rattle.std.specs.Option.{option_copied};
ghost use Rattle.lra_model.specs.Addresses.{text_of};
ghost use Rattle.lra_model.specs.Joins as words;
ghost use Rattle.lra_rows.specs.inner.Pieces.{piece, read, part, IsText};

use lra_model::{Memory, Uris};
use std::alloc::Global;
use std::marker::Model;

/// The byte that stands in a buffer before the bytes of each address that is there.
const MARK: u8 = 1;

/// The five addresses that a member may have, in one buffer of just their size.
#[derive(Drop)]
pub struct PackedAddresses {
    bytes: Vec<u8>,
    /// The place in the buffer where the second address begins, if it is there; and so on.
    complete: u32,
    status: u32,
    forget: u32,
    after: u32,
}

impl Model for PackedAddresses {
    ghost use Rattle.std.specs.Prelude.{length};
    ghost use Rattle.lra_model.specs.Addresses.{Addresses};
    ghost use Rattle.lra_rows.specs.inner.Pieces.{read, part, IsPacked};

    ghost Value = { Addresses };

    ghost view = { λ p. record {
      compensate = read (part 0 p.complete p.bytes.items);
      complete = read (part p.complete p.status p.bytes.items);
      status = read (part p.status p.forget p.bytes.items);
      forget = read (part p.forget p.after p.bytes.items);
      after = read (part p.after (length p.bytes.items) p.bytes.items);
    } };

    ghost invariant = { λ p. IsPacked p.complete p.status p.forget p.after p.bytes.items };
}

/// Returns how many bytes of a buffer an address takes.
fn size_of(text: &Option<String>) -> usize {
    match text {
        Some(text) => text.len().saturating_add(1),
        None => 0,
    }
}

/// Returns how many bytes of a buffer five addresses take.
fn size_of_all(uris: &Uris) -> usize {
    size_of(&uris.compensate)
        .saturating_add(size_of(&uris.complete))
        .saturating_add(size_of(&uris.status))
        .saturating_add(size_of(&uris.forget))
        .saturating_add(size_of(&uris.after))
}

/// Adds an address to the end of a buffer, if it is there.
fn add(bytes: &mut Vec<u8>, text: &Option<String>) -> Result<(), Memory>
    ensures items { OnOk result (bytes.new.items ≡ bytes.old.items ++ piece (text_of text.now)) }
    ensures text { IsText (text_of text.now) }
{
    if let Some(text) = text {
        bytes.push(MARK)?;
        bytes.extend_from_slice(text.as_bytes())?;
    }
    Ok(())
}

/// Returns the place at the end of a buffer, or `Memory` where that exceeds a u32.
fn end_of(bytes: &Vec<u8>) -> Result<u32, Memory>
    ensures { IfOk result (λ end. end ≡ length bytes.now.items) }
{
    match u32::try_from(bytes.len()) {
        Ok(end) => Ok(end),
        Err(_) => Err(Memory),
    }
}

/// Returns the address that a buffer has from one place to another, if the places differ.
fn text_at(bytes: &[u8], begin: usize, end: usize) -> Option<&str>
    requires order { begin ≤ end }
    requires within { end ≤ length bytes.now }
    requires text { IsText (read (part begin end bytes.now)) }
    ensures { option_copied result ≡ read (part begin end bytes.now) }
{
    let (_, text) = bytes[begin..end].split_first()?;
    match str::from_utf8(text) {
        Ok(text) => Some(text),
        Err(_) => unreachable!(),
    }
}

/// Returns whether two addresses are equal, or both are absent.
fn is_same(left: Option<&str>, right: &Option<String>) -> bool
    ensures { result ≡ words.same_address (option_copied left.entry) (text_of right.now) }
{
    match (left, right) {
        (Some(left), Some(right)) => left.as_bytes() == right.as_bytes(),
        (None, None) => true,
        _ => false,
    }
}

impl PackedAddresses {
    ghost use Rattle.std.specs.Prelude.{◌≡◌, IfOk};
    ghost use Rattle.std.specs.Option.{option_copied};
    ghost use Rattle.lra_model.specs.Joins as words;

    /// Copies five addresses into one buffer.
    pub fn of(alloc: Global, uris: &Uris) -> Result<PackedAddresses, Memory>
        ensures { IfOk result (λ packed_addresses. packed_addresses ≡ uris.now) }
    {
        let mut bytes = Vec::with_capacity(alloc, size_of_all(uris))?;
        add(&mut bytes, &uris.compensate)?;
        let complete = end_of(&bytes)?;
        add(&mut bytes, &uris.complete)?;
        let status = end_of(&bytes)?;
        add(&mut bytes, &uris.status)?;
        let forget = end_of(&bytes)?;
        add(&mut bytes, &uris.forget)?;
        let after = end_of(&bytes)?;
        add(&mut bytes, &uris.after)?;
        Ok(PackedAddresses {
            bytes,
            complete,
            status,
            forget,
            after,
        })
    }

    pub fn compensate(&self) -> Option<&str>
        ensures { option_copied result ≡ self.now.compensate }
    {
        text_at(&self.bytes, 0, self.complete as usize)
    }

    pub fn complete(&self) -> Option<&str>
        ensures { option_copied result ≡ self.now.complete }
    {
        text_at(&self.bytes, self.complete as usize, self.status as usize)
    }

    pub fn status(&self) -> Option<&str>
        ensures { option_copied result ≡ self.now.status }
    {
        text_at(&self.bytes, self.status as usize, self.forget as usize)
    }

    pub fn forget(&self) -> Option<&str>
        ensures { option_copied result ≡ self.now.forget }
    {
        text_at(&self.bytes, self.forget as usize, self.after as usize)
    }

    pub fn after(&self) -> Option<&str>
        ensures { option_copied result ≡ self.now.after }
    {
        text_at(&self.bytes, self.after as usize, self.bytes.len())
    }

    /// Returns whether all five addresses are equal to these.
    pub fn is_same(&self, uris: &Uris) -> bool
        ensures { result ≡ words.same_addresses self.now uris.now }
    {
        is_same(self.compensate(), &uris.compensate)
            && is_same(self.complete(), &uris.complete)
            && is_same(self.status(), &uris.status)
            && is_same(self.forget(), &uris.forget)
            && is_same(self.after(), &uris.after)
    }
}
