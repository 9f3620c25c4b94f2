//! Gate of a callback worker, which decides what the worker may do.

use crate::ending::ServiceEnding;
use crate::stamina::{is_longest, pause_after};
use lra_clocks::{seconds_on, time_until};
use lra_durable::SyncGroup;
use lra_ids::Instance;
use lra_logs::{Event, EventSink};
use lra_operators_server::Tallies;
use lra_workers::{Gate, Go};
use std::sync::atomic::{AtomicU64, Ordering};
use std::sync::{Arc, Wait};
use std::thread;
use std::time::{Clock, Duration, Instant};

/// Number of seconds that errands under way have once the service is to end.
const PARTING: u64 = 10;

/// Gate of a callback worker. It lets the worker make turns as long as a connection worker is left. Once the service is
/// to end, nothing is begun in a turn any more. Turns are made then until nothing is under way, for 10 s at most,
/// unless a sync has failed. If memory is refused, the worker pauses, for longer each time in a row. Once the pause is
/// the longest, the journal's callbacks are noted to stand still, until a turn goes well.
#[derive(Drop)]
pub struct CallbackWorkerGate<'a, R, G: SyncGroup, J> {
    rt: &'a R,
    ending: &'a Arc<ServiceEnding>,
    /// Group of journals that are synced with its own.
    group: &'a G,
    /// Number of errands under way.
    under_way: &'a AtomicU64,
    tallies: &'a Tallies,
    event_sink: &'a J,
    /// Journal whose callbacks the worker makes.
    journal: Instance,
    /// Moment until which turns are made once the service is to end.
    until: Option<Instant>,
    /// Number of times in a row that memory was refused, and a flag, set if it was refused since the last turn began.
    refusals: u64,
    is_refused: bool,
    /// Flag, set if the callbacks were noted to stand still.
    stands: bool,
}

impl<'a, R, G: SyncGroup, J> CallbackWorkerGate<'a, R, G, J> {
    /// Makes the gate of a callback worker for a journal. The worker stores the number of its errands under way in
    /// `under_way`.
    pub fn new(
        rt: &'a R,
        ending: &'a Arc<ServiceEnding>,
        group: &'a G,
        under_way: &'a AtomicU64,
        tallies: &'a Tallies,
        event_sink: &'a J,
        journal: Instance,
    ) -> CallbackWorkerGate<'a, R, G, J> {
        CallbackWorkerGate {
            rt,
            ending,
            group,
            under_way,
            tallies,
            event_sink,
            journal,
            until: None,
            refusals: 0,
            is_refused: false,
            stands: false,
        }
    }

    /// Notes that another turn begins. If no memory was refused in the last turn, that turn went well, and pauses begin
    /// anew.
    fn turn(&mut self) {
        if self.is_refused {
            self.is_refused = false;
            return;
        }
        self.refusals = 0;
        if self.stands {
            self.stands = false;
            self.tallies.go_on(self.journal);
        }
    }
}

impl<R, G: SyncGroup, J: EventSink> CallbackWorkerGate<'_, R, G, J> {
    /// Notes that the callbacks stand still, unless that is noted already.
    fn stand(&mut self) {
        if !self.stands {
            self.stands = true;
            self.tallies.stand(self.journal);
            self.event_sink.note(&Event::CallbacksStand {
                journal: self.journal,
            });
        }
    }
}

impl<R: Wait + Clock, G: SyncGroup, J> CallbackWorkerGate<'_, R, G, J> {
    /// Returns whether the errands under way have some time left. They have none if the clock can't be read.
    fn has_time(&mut self) -> bool {
        if self.until.is_none() {
            self.until = seconds_on(self.rt, PARTING).ok();
        }
        match self.until {
            Some(until) => time_until(self.rt, until).is_ok(),
            None => false,
        }
    }
}

impl<R: Wait + Clock, G: SyncGroup, J: EventSink> Gate for CallbackWorkerGate<'_, R, G, J> {
    fn more(&mut self) -> bool {
        self.turn();
        if !self.ending.is_asked() {
            return !self.ending.is_over();
        }
        self.under_way.load(Ordering::SeqCst) > 0
            && !self.group.has_failed(self.rt)
            && self.has_time()
    }

    fn begins(&self) -> bool {
        !self.ending.is_asked()
    }

    fn hold(&mut self, _ask: u64) -> Go {
        Go::Carry
    }

    fn answered(&mut self, _ask: u64) {}

    fn pause(&mut self) {
        self.is_refused = true;
        self.refusals = self.refusals.saturating_add(1);
        if is_longest(self.refusals) {
            self.stand();
        }
        let pause = pause_after(self.refusals);
        thread::sleep(self.rt, Duration::from_millis(pause));
    }
}
