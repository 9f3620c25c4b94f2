//! Polls with which the threads of a service wait.

ghost use Rattle.std.specs.Prelude.{IfErr};
ghost use Rattle.lra_opening.specs.Faults.{IsOfNoScript};

use lra_audits::RunFault;
use lra_callbacks::WorkerSlot;
use lra_event_loop::AcceptQueue;
use lra_opening::ServeFault;
use mio::Waker;
use std::alloc::Global;
use std::net::Net;
use std::sync::Arc;

/// Polls with which the threads of a service wait, by their slots: connection workers for connections, and callback
/// workers for what falls due.
#[derive(Drop)]
pub(crate) struct Polls {
    /// Accept queues of the connection workers.
    pub(crate) accept_queue: Vec<AcceptQueue>,
    /// Slots of the callback workers.
    pub(crate) worker_slots: Vec<WorkerSlot>,
    /// Wakers of the callback workers.
    pub(crate) wakers: Arc<Vec<Waker>>,
}

/// Polls that are gathered, one worker after another.
#[derive(Drop)]
struct Gathered {
    accept_queue: Vec<AcceptQueue>,
    worker_slots: Vec<WorkerSlot>,
    wakers: Vec<Waker>,
}

impl Gathered {
    /// Returns an empty collection of polls.
    fn new(alloc: Global) -> Gathered {
        Gathered {
            accept_queue: Vec::new(alloc),
            worker_slots: Vec::new(alloc),
            wakers: Vec::new(alloc),
        }
    }

    /// Adds the polls of one more connection worker, and of one more callback worker. Returns `None` if they can't be
    /// had.
    fn add<R: Net>(&mut self, rt: &R, alloc: Global) -> Option<()> {
        self.accept_queue
            .push(AcceptQueue::new(rt, alloc).ok()?)
            .ok()?;
        let (worker_slot, waker) = WorkerSlot::new(rt)?;
        self.worker_slots.push(worker_slot).ok()?;
        self.wakers.push(waker).ok()
    }

    /// Returns all polls, or a fault if memory is refused.
    fn finish(self, alloc: Global) -> Result<Polls, ServeFault>
        ensures { IfErr result IsOfNoScript }
    {
        let Gathered {
            accept_queue,
            worker_slots,
            wakers,
        } = self;
        match Arc::new(alloc, wakers) {
            Ok(wakers) => Ok(Polls {
                accept_queue,
                worker_slots,
                wakers,
            }),
            Err(wakers) => {
                drop(wakers);
                drop(accept_queue);
                drop(worker_slots);
                Err(ServeFault::Run(RunFault::Memory))
            }
        }
    }
}

/// Returns the polls of so many connection workers, and of as many callback workers.
pub(crate) fn polls_of<R: Net>(rt: &R, alloc: Global, workers: u32) -> Result<Polls, ServeFault>
    ensures { IfErr result IsOfNoScript }
{
    let mut all = Gathered::new(alloc);
    for _worker in 0..workers {
        if all.add(rt, alloc).is_none() {
            drop(all);
            return Err(ServeFault::Address);
        }
    }
    all.finish(alloc)
}
