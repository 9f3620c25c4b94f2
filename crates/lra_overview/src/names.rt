//! The identifiers in a text, and the writer of its pieces.

ghost use Rattle.std.specs.Prelude.{◌≡◌};

use crate::laying::{behind, has_id, put, put_json, put_number, put_span};
use crate::pieces::Piece;
use lra_ids::{Base, Instance};
use lra_model::Memory;
use std::alloc::Global;

/// Number of bytes between the base and the identifier in the URI of an action.
const BELOW_BASE: usize = 16;

/// Journal and base of the identifiers in a text.
#[derive(Clone, Copy)]
pub struct Names<'a> {
    pub alloc: Global,
    pub instance: Instance,
    pub base: &'a Base,
}

impl<'a> Names<'a> {
    /// Returns the names of a journal.
    pub fn new(alloc: Global, instance: Instance, base: &'a Base) -> Names<'a>
        ensures instance { result.instance ≡ instance }
        ensures base { result.base.now ≡ base.now }
    {
        Names {
            alloc,
            instance,
            base,
        }
    }
}

impl Names<'_> {
    ghost use Rattle.std.specs.Prelude.{◌≡◌, ◌++◌, ◌≤◌, ◌<◌, ◌^◌, OnOk};
    ghost use Rattle.std.specs.List.{flat_map};
    ghost use Rattle.lra_ids.specs.Identifiers.{id_text};
    ghost use Rattle.lra_overview.specs.Laying.{id_of, spelled};

    /// Adds the identifier of a number that has one.
    fn put_known_id(&self, page: &mut Vec<u8>, number: u64) -> Result<(), Memory>
        requires positive { 1 ≤ number }
        requires small { number < 2 ^ 62 }
        ensures { OnOk result (page.new.items ≡ page.old.items ++ id_text self.now.instance number) }
    {
        let start = self.base.as_str().len() + BELOW_BASE;
        let uri = self.base.spell_action(self.alloc, self.instance, number)?;
        page.extend_from_slice(behind(uri.as_str().as_bytes(), start))
    }

    /// Adds the identifier of a number, if it has one.
    fn put_id(&self, page: &mut Vec<u8>, number: u64) -> Result<(), Memory>
        ensures { OnOk result (page.new.items ≡ page.old.items ++ id_of self.now.instance number) }
    {
        if has_id(number) {
            self.put_known_id(page, number)
        } else {
            Ok(())
        }
    }

    /// Adds a piece.
    fn put_one(&self, page: &mut Vec<u8>, piece: Piece<'_>) -> Result<(), Memory>
        ensures { OnOk result (page.new.items ≡ page.old.items ++ spelled self.now.instance piece.entry) }
    {
        match piece {
            Piece::Own(text) => put(page, text),
            Piece::Told(text) => lra_escape::escape(page, text),
            Piece::Quoted(text) => put_json(self.alloc, page, text),
            Piece::Number(number) => put_number(page, number),
            Piece::Span(ms) => put_span(page, ms),
            Piece::Id(number) => self.put_id(page, number),
            Piece::Action(status) => put(page, status.name()),
            Piece::Member(status) => put(page, status.name()),
            Piece::Kind(kind) => put(page, kind.name()),
        }
    }

    /// Adds pieces, one after another.
    pub fn put_all(&self, page: &mut Vec<u8>, pieces: &[Piece<'_>]) -> Result<(), Memory>
        ensures { OnOk result (page.new.items ≡ page.old.items ++ flat_map (spelled self.now.instance) pieces.now) }
    {
        for piece in pieces {
            self.put_one(page, *piece)?;
        }
        Ok(())
    }
}
