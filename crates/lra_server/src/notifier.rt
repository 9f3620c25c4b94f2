//! Reports of a service on its threads, and the notifiers and event sinks that get them.

use lra_event_loop::EventLoopEnd;
use lra_ids::Instance;
use lra_logs::{Event, EventSink, Level, Logbook, Port};
use lra_opening::Notifier;
use lra_operators_server::{Tallies, Turned};
use lra_workers::WorkerEnd;
use std::alloc::Global;
use std::sync::Wait;
use std::time::Clock;

/// Notifier that drops all lines and events.
#[derive(Clone, Copy)]
pub struct NullNotifier;

impl Notifier for NullNotifier {
    fn notify(&self, _line: &str) {}
}

impl EventSink for NullNotifier {
    fn hears(&self, _level: Level) -> bool {
        false
    }

    fn note(&self, _event: &Event) {}
}

/// Observer of operators' requests that are refused, which notes them in the log.
#[derive(Drop)]
pub struct OperatorsRefusalLogger<'a, J> {
    pub event_sink: &'a J,
}

impl<J: EventSink> Turned for OperatorsRefusalLogger<'_, J> {
    fn turned_away(&self, code: u16) {
        self.event_sink.note(&Event::Refused {
            port: Port::Operators,
            code,
        });
    }
}

/// Log, which also gets the lines that a service reports anyway.
#[derive(Drop)]
pub struct LoggingNotifier<R> {
    pub log: Logbook<R>,
}

impl<R: Eprint + Clock + Wait> Notifier for LoggingNotifier<R> {
    fn notify(&self, line: &str) {
        self.log.tell(Level::Warn, line);
    }
}

impl<R: Eprint + Clock + Wait> EventSink for LoggingNotifier<R> {
    fn hears(&self, level: Level) -> bool {
        self.log.hears(level)
    }

    fn note(&self, event: &Event) {
        self.log.note(event);
    }
}

/// Returns a line on why a connection worker has ended, or `None` if the program's end says so.
fn why_answered(end: EventLoopEnd) -> Option<&'static str> {
    match end {
        EventLoopEnd::SyncFault | EventLoopEnd::Closed => None,
        EventLoopEnd::Refused => Some("lra: a thread that answered has ended: out of memory\n"),
        EventLoopEnd::Io => Some(
            "lra: a thread that answered has ended: the system tells no more of its connections\n",
        ),
    }
}

/// Reports that a connection worker has ended though the service goes on, and why. Reports nothing if it has ended with
/// the service.
pub fn lose_worker<H: Notifier + EventSink>(notifier: &H, tallies: &Tallies, end: EventLoopEnd) {
    if let Some(line) = why_answered(end) {
        notifier.notify(line);
        notifier.note(&Event::ThreadEnded);
        tallies.lose_worker();
    }
}

/// Reports that a callback worker has ended though the service goes on, and why. If it was a journal's last one,
/// reports that this journal's callbacks stand still. Reports nothing if it has ended with the service.
pub fn lose_callback_worker<H: Notifier + EventSink>(
    alloc: Global,
    notifier: &H,
    tallies: &Tallies,
    end: WorkerEnd,
    last_of: Option<Instance>,
) {
    let WorkerEnd::Refused(refusal) = end else {
        return;
    };
    match format!(in alloc; "lra: a thread that carried has ended: {refusal}\n") {
        Ok(line) => notifier.notify(line.as_str()),
        Err(_) => notifier.notify("lra: a thread that carried has ended\n"),
    }
    notifier.note(&Event::ThreadEnded);
    match last_of {
        Some(journal) => {
            tallies.stand(journal);
            notifier.note(&Event::CallbacksStand { journal });
        }
        None => tallies.lose_callback_worker(),
    }
}
