//! The takers of an input besides an auditor. The input comes piece by piece.

ghost use Rattle.std.specs.Prelude.{◌≡◌, ◌+◌, ◌<◌, ◌^◌, ◌++◌, length, OnOk, IfErr};

use lra_auditor::Auditor;
use lra_audits::{RunFault, Taker, put};
use std::io::Write;

/// A taker that keeps the bytes.
#[derive(Drop)]
pub(crate) struct Kept {
    pub(crate) bytes: Vec<u8>,
}

impl Taker for Kept {
    ghost use Rattle.std.specs.Prelude.{◌≡◌, ◌++◌, length};
    ghost use Rattle.lra_audits.specs.declared.fault.RunFault.TheVariants.{Memory};
    ghost use Rattle.std.proofs.Common.{rules};

    ghost took = { λ before after bytes. after.bytes.items ≡ before.bytes.items ++ bytes };

    ghost count = { λ kept. length kept.bytes.items };

    ghost fails = { λ fault. fault ≡ Memory };

    ghost begins = { Prim.search rules };

    fn accept(&mut self, piece: &[u8]) -> Result<(), RunFault> {
        self.bytes.extend_from_slice(piece)?;
        Ok(())
    }
}

/// A taker that feeds the bytes to an auditor, and writes them.
#[derive(Drop)]
pub(crate) struct Copying<'a, W> {
    pub(crate) auditor: &'a mut Auditor,
    pub(crate) writer: &'a mut W,
}

impl<W: Write> Taker for Copying<'_, W> {
    ghost use Rattle.std.specs.Prelude.{[], ◌∷◌};
    ghost use Rattle.std.specs.Io.KnownBytes.{Appends};
    ghost use Rattle.lra_audits.specs.Faults.{IsOfOutput};
    ghost use Rattle.lra_audits.specs.inner.Fed.{IsFedOn};
    ghost use Rattle.std.proofs.Common.{rules};

    ghost took = { λ before after bytes. IsFedOn before.auditor.now after.auditor.now bytes
        × Appends (W.contents before.writer.now) (W.contents after.writer.now) bytes };

    ghost count = { λ c. c.auditor.now.fed };

    ghost lent = { λ c. c.auditor.ghost_name ∷ c.writer.ghost_name ∷ [] };

    ghost fails = { IsOfOutput };

    ghost begins = { Prim.search rules };

    fn accept(&mut self, piece: &[u8]) -> Result<(), RunFault> {
        self.auditor.feed(piece)?;
        put(self.writer, piece)
    }
}
