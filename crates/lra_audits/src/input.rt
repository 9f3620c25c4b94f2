//! The input of a run, piece by piece, and its audit as it comes.

ghost use Rattle.std.specs.Prelude.{◌≡◌, ◌⊎◌, ◌+◌, ◌≤◌, ◌<◌, ◌^◌, length, take, [], IfOk, IfErr, IfSome, OnOk, vec_len};
ghost use Rattle.std.specs.Io.{ReadsAtMost};
ghost use Rattle.std.specs.Io.KnownBytes.{Consumes, IsAtEnd};
ghost use Rattle.lra_auditor.specs.Feeding.{StandsFor};
ghost use Rattle.lra_auditor.specs.Verdicts.{IsVerdict};
ghost use Rattle.lra_audits.specs.Faults.{IsOfInput, IsMeasured};
ghost use Rattle.lra_audits.specs.Taking.{IsCounted};

use crate::fault::RunFault;
use crate::taking::Taker;
use lra_auditor::{Auditor, Verdict};
use std::alloc::{AllocError, Global};
use std::io::{ErrorKind, Read};

/// The greatest number of bytes that an input may have.
pub const LONGEST: usize = 1 << 30;

/// The number of bytes that are asked for at a time.
const PIECE: usize = 65_536;

/// Returns a buffer for one piece.
pub fn room(alloc: Global) -> Result<Vec<u8>, AllocError>
    ensures { IfOk result (λ piece. vec_len piece ≡ PIECE) }
{
    vec![in alloc; 0u8; PIECE]
}

/// Reads the next piece, and returns how many bytes it has: 0 at the end. Repeats a read that was interrupted.
pub fn next_piece<R: Read>(reader: &mut R, piece: &mut [u8]) -> Result<usize, RunFault>
    ensures bound { ReadsAtMost result piece.new }
    ensures bytes { IfOk result (λ count. Consumes (R.remaining reader.old) (R.remaining reader.new)
        (take count piece.new)) }
    ensures end { IfOk result (λ count. count ≡ 0 → 0 < length piece.new → IsAtEnd (R.remaining reader.new)) }
    ensures err { IfErr result (λ fault. fault ≡ RunFault.Read) }
{
    for _ in 0..u64::MAX {
        match reader.read(piece) {
            Ok(count) => return Ok(count),
            Err(error) if error.kind() == ErrorKind::Interrupted => {}
            Err(_) => return Err(RunFault::Read),
        }
    }
    Err(RunFault::Read)
}

/// Passes all that a reader gives to a taker, piece by piece, up to 2^30 bytes.
pub fn give_pieces<R: Read, T: Taker>(
    alloc: Global,
    reader: &mut R,
    taker: &mut T,
) -> Result<(), RunFault>
    requires { T.count taker.old ≤ 2 ^ 30 }
    ensures took { OnOk result (IfSome (R.remaining reader.old) (T.took taker.old taker.new)) }
    ensures within { OnOk result (T.count taker.new ≤ T.count taker.old + 2 ^ 30) }
    ensures counted { IfSome (R.remaining reader.old) (IsCounted result) }
    ensures lent { T.lent taker.new ≡ T.lent taker.old }
    ensures fault { IfErr result (λ fault. IsOfInput fault ⊎ T.fails fault) }
{
    let mut piece = room(alloc)?;
    let mut left = LONGEST;
    for _ in 0..u64::MAX {
        let count = next_piece(reader, &mut piece)?;
        if count == 0 {
            return Ok(());
        }
        if count > left {
            return Err(RunFault::TooLong);
        }
        left -= count;
        taker.accept(&piece[..count])?;
    }
    Err(RunFault::Read)
}

/// Feeds an auditor all that a reader gives, up to 2^30 bytes.
fn feed_pieces<R: Read>(
    alloc: Global,
    reader: &mut R,
    auditor: &mut Auditor,
) -> Result<(), RunFault>
    requires { StandsFor auditor.old [] }
    ensures fed { OnOk result (IfSome (R.remaining reader.old) (StandsFor auditor.new)) }
    ensures measured { IfSome (R.remaining reader.old) (IsMeasured result) }
    ensures fault { IfErr result IsOfInput }
{
    give_pieces(alloc, reader, auditor)
}

/// Returns an auditor that was fed all that a reader gives, up to 2^30 bytes.
pub fn feed_input<R: Read>(alloc: Global, reader: &mut R) -> Result<Auditor, RunFault>
    ensures fed { IfOk result (λ auditor. IfSome (R.remaining reader.old) (StandsFor auditor)) }
    ensures measured { IfSome (R.remaining reader.old) (IsMeasured result) }
    ensures fault { IfErr result IsOfInput }
{
    let mut auditor = Auditor::new(alloc);
    feed_pieces(alloc, reader, &mut auditor)?;
    Ok(auditor)
}

/// Returns the verdict on all that a reader gives, up to 2^30 bytes.
pub fn audit_input<R: Read>(alloc: Global, reader: &mut R) -> Result<Verdict, RunFault>
    ensures verdict { IfOk result (λ verdict. IfSome (R.remaining reader.old) (λ all. IsVerdict all verdict)) }
    ensures measured { IfSome (R.remaining reader.old) (IsMeasured result) }
    ensures fault { IfErr result IsOfInput }
{
    let auditor = feed_input(alloc, reader)?;
    let verdict = auditor.finish()?;
    Ok(verdict)
}
