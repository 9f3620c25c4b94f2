//! Acceptor of connections, until the service is to end.

ghost use Rattle.std.specs.Prelude.{IfErr};
ghost use Rattle.lra_opening.specs.Faults.{IsOfNoScript};

use crate::dispatcher::PolledListener;
use crate::ending::{ServiceEnding, watch};
use lra_audits::RunFault;
use lra_opening::ServeFault;
use std::alloc::Global;
use std::io::Read;
use std::marker::Send;
use std::net::{Net, TcpListener, TcpStream};
use std::sync::Arc;
use std::thread::Threads;

/// Acceptor: the listener, and the state of the service's end.
#[derive(Drop)]
pub struct SocketAcceptor {
    pub line: PolledListener,
    /// State of the service's end.
    pub ending: Arc<ServiceEnding>,
}

/// Returns the acceptor of a listener.
fn socket_acceptor_at<R: Net>(
    rt: &R,
    alloc: Global,
    listener: TcpListener,
) -> Result<SocketAcceptor, ServeFault>
    ensures { IfErr result IsOfNoScript }
{
    let Ok((line, waker)) = PolledListener::new(rt, alloc, listener) else {
        return Err(ServeFault::Address);
    };
    match Arc::new(alloc, ServiceEnding::new(waker)) {
        Ok(ending) => Ok(SocketAcceptor { line, ending }),
        Err(_) => {
            drop(line);
            Err(ServeFault::Run(RunFault::Memory))
        }
    }
}

/// Returns the acceptor of a listener. If there is an input, the service ends gently once the input has ended.
pub fn make_socket_acceptor<
    R: Threads + Net<Stream = TcpStream, Listener = TcpListener>,
    I: Read + Send + Drop + 'static,
>(
    rt: &R,
    alloc: Global,
    listener: TcpListener,
    input: Option<I>,
) -> Result<SocketAcceptor, ServeFault>
    ensures { IfErr result IsOfNoScript }
{
    let acceptor = socket_acceptor_at(rt, alloc, listener)?;
    if let Some(input) = input {
        watch(rt, &acceptor.ending, input)?;
    }
    Ok(acceptor)
}
