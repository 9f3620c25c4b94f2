//! End of a service.

ghost use Rattle.std.specs.Prelude.{◌≡◌, ◌⊎◌, IfErr, OnOk};
ghost use Rattle.std.specs.Io.KnownBytes.{Appends};
ghost use Rattle.lra_opening.specs.Ends.{serving_line, IsSaid};
ghost use Rattle.lra_opening.specs.Faults.{IsOfNoScript};

use lra_audits::RunFault;
use lra_durable::{Disk, Journals, SyncGroup};
use lra_opening::ServeFault;
use lra_operators_server::Ends;
use mio::Waker;
use std::alloc::Global;
use std::io::{ErrorKind, Read, Write};
use std::marker::Send;
use std::sync::atomic::{AtomicBool, Ordering};
use std::sync::{Arc, Wait};
use std::thread::{Builder, Threads};

/// Number of bytes of an input that are read at once, and dropped.
const PIECE: usize = 256;

/// State of a service's end: whether it is to end gently, whether no connection worker answers any more, and the waker
/// of the thread that waits for connections.
#[derive(Drop)]
pub struct ServiceEnding {
    /// Flag, set once it is to end gently.
    is_asked: AtomicBool,
    /// Flag, set once no connection worker answers any more.
    is_over: AtomicBool,
    waker: Waker,
}

impl ServiceEnding {
    /// Returns the state of a service that is to go on.
    pub fn new(waker: Waker) -> ServiceEnding {
        ServiceEnding {
            is_asked: AtomicBool::new(false),
            is_over: AtomicBool::new(false),
            waker,
        }
    }

    /// Asks the service to end gently, and wakes the thread that waits for connections.
    pub fn ask(&self) {
        self.is_asked.store(true, Ordering::SeqCst);
        let _ = self.waker.wake();
    }

    /// Returns whether the service is to end gently.
    pub fn is_asked(&self) -> bool {
        self.is_asked.load(Ordering::SeqCst)
    }

    /// Notes that no connection worker answers any more, and wakes the thread that waits for connections.
    pub fn finish(&self) {
        self.is_over.store(true, Ordering::SeqCst);
        let _ = self.waker.wake();
    }

    /// Returns whether no connection worker answers any more.
    pub fn is_over(&self) -> bool {
        self.is_over.load(Ordering::SeqCst)
    }
}

impl Ends for ServiceEnding {
    fn is_over(&self) -> bool {
        ServiceEnding::is_over(self)
    }
}

/// Reads until nothing more comes.
fn read_out<I: Read>(input: &mut I) {
    let mut piece = [0u8; PIECE];
    for _ in 0..u64::MAX {
        match input.read(&mut piece) {
            Ok(0) => return,
            Ok(_) => {}
            Err(error) if error.kind() == ErrorKind::Interrupted => {}
            Err(_) => return,
        }
    }
}

/// Ends a service gently once an input has ended. A detached thread waits for the input, so that nothing waits for the
/// thread. Fails if the thread can't be started: then nothing is served.
pub fn watch<R: Threads, I: Read + Send + Drop + 'static>(
    rt: &R,
    ending: &Arc<ServiceEnding>,
    input: I,
) -> Result<(), ServeFault>
    ensures { IfErr result IsOfNoScript }
{
    let Ok(theirs) = Arc::try_clone(ending) else {
        drop(input);
        return Err(ServeFault::Run(RunFault::Memory));
    };
    let mut input = input;
    let watched = Builder::new().spawn(rt, move || {
        read_out(&mut input);
        theirs.ask();
    });
    match watched {
        Ok(thread) => {
            drop(thread);
            Ok(())
        }
        Err(_) => Err(ServeFault::Address),
    }
}

/// Writes that an address is served.
pub fn say<W: Write>(alloc: Global, address: &str, writer: &mut W) -> Result<(), ServeFault>
    ensures said { OnOk result (Appends (W.contents writer.old) (W.contents writer.new) (serving_line address.now)) }
    ensures fault { IfErr result (IsSaid address.now (W.contents writer.old) (W.contents writer.new)) }
{
    let Ok(line) = format!(in alloc; "serving {address}\n") else {
        return Err(ServeFault::Run(RunFault::Memory));
    };
    if writer.write_all(line.as_bytes()).is_err() || writer.flush().is_err() {
        return Err(ServeFault::Run(RunFault::Write));
    }
    Ok(())
}

/// Returns a fault unless a service that began has ended gently: it was asked to, no sync has failed, and all that was
/// written is durable.
pub fn end_of<R: Wait, D: Disk>(
    rt: &R,
    journals: &Journals<D>,
    ending: &Arc<ServiceEnding>,
) -> Result<(), ServeFault>
    ensures { IfErr result (λ fault. (fault ≡ ServeFault.File) ⊎ (fault ≡ ServeFault.Address)) }
{
    if journals.has_failed(rt) {
        return Err(ServeFault::File);
    }
    if !ending.is_asked() {
        return Err(ServeFault::Address);
    }
    match journals.keep_all(rt) {
        Ok(true) => Ok(()),
        Ok(false) | Err(_) => Err(ServeFault::File),
    }
}
