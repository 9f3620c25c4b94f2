//! Lines that a run writes in pages.

ghost use Rattle.std.specs.Prelude.{IfErr, OnOk};
ghost use Rattle.lra_audits.specs.Faults.{IsOfOutput};
ghost use Rattle.lra_reports.specs.Paging.{IsPaged};

use lra_audits::{RunFault, put};
use std::io::Write;

/// The number of bytes from which on a page is written.
const PAGE: usize = 65_536;

/// Adds a line to a page, and writes the page once it is full.
pub fn put_line<W: Write>(writer: &mut W, page: &mut Vec<u8>, line: &str) -> Result<(), RunFault>
    ensures written { OnOk result (IsPaged (W.contents writer.old) (W.contents writer.new) page.old.items page.new.items
        line.now) }
    ensures fault { IfErr result IsOfOutput }
{
    page.extend_from_slice(line.as_bytes())?;
    if page.len() >= PAGE {
        put(writer, page)?;
        page.clear();
    }
    Ok(())
}
