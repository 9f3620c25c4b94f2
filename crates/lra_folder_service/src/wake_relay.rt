//! Wake relay of the callback workers.

use lra_admission::KeyFiles;
use lra_opening::Notifier;
use lra_registry::JournalRegistry;
use lra_server::{AccessPolicy, ServiceEnding};
use mio::{Events, Poll, Waker};
use std::alloc::Global;
use std::net::Net;
use std::sync::{Arc, Mutex, Wait};
use std::thread;
use std::time::{Clock, Duration};

/// Largest number of events that a poll reports.
const MOST_EVENTS: usize = 8;

/// Largest number of milliseconds between two checks.
const LOOK: u64 = 1_000;

/// Wake relay: a thread that wakes the callback workers whose journals have grown. Connection workers and resolvers
/// only know that some journal may have grown, and wake the relay.
#[derive(Drop)]
pub(crate) struct WakeRelay {
    poll: Mutex<Option<Poll>>,
    /// Wakers of the relay.
    pub(crate) wakers: Vec<Waker>,
}

/// Makes room for events. Retries until there is memory, or returns nothing once no connection worker is left.
fn find_room<R: Wait + Clock>(
    rt: &R,
    alloc: Global,
    ending: &Arc<ServiceEnding>,
) -> Option<Events> {
    for _ in rt.forever() {
        if let Ok(events) = Events::with_capacity(alloc, MOST_EVENTS) {
            return Some(events);
        }
        if ending.is_over() {
            return None;
        }
        thread::sleep(rt, Duration::from_millis(LOOK));
    }
    unreachable!()
}

impl WakeRelay {
    /// Returns a wake relay, if its poll and its waker can be made.
    pub(crate) fn new<R: Net>(rt: &R, alloc: Global) -> Option<WakeRelay> {
        let (poll, waker) = lra_callbacks::waker(rt).ok()?;
        let mut wakers = Vec::new(alloc);
        wakers.push(waker).ok()?;
        Some(WakeRelay {
            poll: Mutex::new(Some(poll)),
            wakers,
        })
    }

    /// Wakes the callback workers of journals with news, until no connection worker is left. Does so whenever the relay
    /// is woken, and once a second at least. Before that it reads the file of the members' token again if it has
    /// changed.
    pub(crate) fn run<R: KeyFiles + Wait + Clock, H: Notifier, B: Drop>(
        &self,
        rt: &R,
        alloc: Global,
        notifier: &H,
        access_policy: AccessPolicy<'_>,
        journal_registry: &JournalRegistry<B>,
        ending: &Arc<ServiceEnding>,
    ) {
        let Some(mut poll) = self.poll.lock(rt).take() else {
            return;
        };
        let Some(mut events) = find_room(rt, alloc, ending) else {
            drop(poll);
            return;
        };
        for _ in rt.forever() {
            let waited = poll.poll(&mut events, Some(Duration::from_millis(LOOK)));
            if waited.is_err() || ending.is_over() {
                return;
            }
            access_policy.look(rt, notifier);
            journal_registry.wake(rt);
        }
    }
}
