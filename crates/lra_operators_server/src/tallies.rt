//! The tallies of a service while it runs.

ghost use Rattle.std.specs.Prelude.{◌≡◌, IfOk};
ghost use Rattle.lra_operators_server.specs.Syncs.{limit_of};

use crate::denied::Denied;
use crate::histogram::{Measured, put_histogram};
use crate::noted_journals::NotedJournals;
use crate::operators_server::OperatorsServer;
use crate::table::{Rows, Table, Words, label_of};
use http::StatusCode;
use lra_front::{ApiError, Operation};
use lra_ids::Instance;
use lra_model::{AskKind, Memory, Outcome};
use lra_storage::{Histogram, Stopwatch, Syncs, TIMES, WRITES};
use std::alloc::{AllocError, Global};
use std::sync::Arc;
use std::sync::atomic::{AtomicU64, Ordering};
use std::time::{Clock, Instant};

/// Requests of services, by what they ask for and the status code of the answer.
const REQUESTS: Words = Words {
    name: "lra_requests_total",
    help: "Requests of services that were answered, by what they asked for and the status code.",
    row: "route",
    rows: Rows::Operations,
    column: "code",
    columns: &[
        "200", "201", "202", "204", "400", "404", "405", "409", "410", "412", "413", "500", "501",
        "503", "other",
    ],
};

/// Callbacks to members, by what they ask and their outcome.
const CALLBACKS: Words = Words {
    name: "lra_callbacks_total",
    help: "Callbacks to members that came to something, by what they ask and what it was.",
    row: "kind",
    rows: Rows::Words(&["complete", "compensate", "status", "forget", "after"]),
    column: "outcome",
    columns: &["done", "accepted", "failed", "silent"],
};

/// Number of microseconds in a second.
const SECOND: u64 = 1_000_000;

/// Times that requests took.
const REQUEST_TIMES: Measured = Measured {
    name: "lra_request_seconds",
    help: "How long the coordinator took to answer a request of a service, without the wait for the disk.",
    ends: &TIMES,
    parts: SECOND,
};

/// Times that callbacks took.
const CALLBACK_TIMES: Measured = Measured {
    name: "lra_callback_seconds",
    help: "How long a callback took from when it was due until something came of it.",
    ends: &TIMES,
    parts: SECOND,
};

/// Times that syncs took.
const SYNC_TIMES: Measured = Measured {
    name: "lra_sync_seconds",
    help: "How long a sync of the disk took that kept something new.",
    ends: &TIMES,
    parts: SECOND,
};

/// Numbers of commands that syncs made durable.
const SYNC_WRITES: Measured = Measured {
    name: "lra_commands_per_sync",
    help: "How many commands that wrote something one sync kept. The first line of a journal counts as one.",
    ends: &WRITES,
    parts: 1,
};

/// Tallies of a service while it runs.
#[derive(Drop)]
pub struct Tallies {
    requests: Table,
    request_times: Histogram,
    callbacks: Table,
    callback_times: Histogram,
    denied: Denied,
    /// Record of the disk's syncs, if there is an operators' server.
    syncs: Option<Arc<Syncs>>,
    /// Number of milliseconds that a sync may take.
    sync_limit: u64,
    /// Journals whose coordinators answered that they have stopped.
    stopped: NotedJournals,
    /// Numbers of workers and callback workers that have ended though the service goes on.
    lost_workers: AtomicU64,
    lost_callback_workers: AtomicU64,
    /// Journals whose callbacks stand still.
    standing: NotedJournals,
}

/// Returns the digits of a status code, or `other` for one that has no column.
fn code_word(status: StatusCode) -> &'static str {
    match status.as_u16() {
        200 => "200",
        201 => "201",
        202 => "202",
        204 => "204",
        400 => "400",
        404 => "404",
        405 => "405",
        409 => "409",
        410 => "410",
        412 => "412",
        413 => "413",
        500 => "500",
        501 => "501",
        503 => "503",
        _ => "other",
    }
}

/// Returns the word for the outcome of a callback.
fn outcome_word(outcome: Outcome) -> &'static str {
    match outcome {
        Outcome::Done => "done",
        Outcome::Accepted => "accepted",
        Outcome::Failed => "failed",
        Outcome::Silent => "silent",
    }
}

/// Returns how many microseconds have passed since a moment, if that is known and the clock can be read.
fn micros_since<R: Clock>(rt: &R, began: Option<Instant>) -> Option<u64> {
    let passed = Instant::now(rt).ok()?.saturating_duration_since(began?);
    u64::try_from(passed.as_micros()).ok()
}

/// Makes the record of a disk's syncs from now on.
fn new_syncs(alloc: Global, stopwatch: Stopwatch) -> Result<Arc<Syncs>, Memory> {
    match Arc::new(alloc, Syncs::new(alloc, stopwatch)?) {
        Ok(syncs) => Ok(syncs),
        Err(refused) => {
            drop(refused);
            Err(AllocError)
        }
    }
}

/// Makes the record of a disk's syncs from now on, if there is an operators' server.
fn syncs_at(
    alloc: Global,
    operators_server: Option<&OperatorsServer>,
) -> Result<Option<Arc<Syncs>>, Memory> {
    match operators_server {
        Some(operators_server) => Ok(Some(new_syncs(alloc, operators_server.stopwatch())?)),
        None => Ok(None),
    }
}

impl Tallies {
    /// Makes tallies of 0, for a service whose syncs may take so many seconds. The record of its syncs is kept only if
    /// it has an operators' server.
    pub fn new(
        alloc: Global,
        operators_server: Option<&OperatorsServer>,
        sync_seconds: u64,
    ) -> Result<Tallies, Memory>
        ensures limit { IfOk result (λ tallies. tallies.sync_limit ≡ limit_of sync_seconds) }
    {
        Ok(Tallies {
            requests: Table::new(alloc, &REQUESTS)?,
            request_times: Histogram::new(alloc, &TIMES)?,
            callbacks: Table::new(alloc, &CALLBACKS)?,
            callback_times: Histogram::new(alloc, &TIMES)?,
            denied: Denied::new(),
            syncs: syncs_at(alloc, operators_server)?,
            sync_limit: sync_seconds.saturating_mul(1_000),
            stopped: NotedJournals::new(alloc)?,
            lost_workers: AtomicU64::new(0),
            lost_callback_workers: AtomicU64::new(0),
            standing: NotedJournals::new(alloc)?,
        })
    }

    /// Returns the record of the disk's syncs, if there is one.
    pub fn syncs(&self) -> Option<Arc<Syncs>> {
        match &self.syncs {
            Some(syncs) => Arc::try_clone(syncs).ok(),
            None => None,
        }
    }

    /// Returns how many milliseconds the sync under way has taken, or 0 if none is.
    pub fn sync_age(&self) -> u64 {
        match &self.syncs {
            Some(syncs) => syncs.age(),
            None => 0,
        }
    }

    /// Returns how many milliseconds a sync may take.
    pub fn sync_limit(&self) -> u64
        ensures { result ≡ self.now.sync_limit }
    {
        self.sync_limit
    }

    /// Counts a request that was denied, for its key, its host or its origin.
    pub fn denied(&self, api_error: ApiError) {
        self.denied.add(api_error);
    }

    /// Notes that a journal's coordinator has stopped: nothing more is written to the journal.
    pub fn stop(&self, instance: Instance) {
        self.stopped.note(instance);
    }

    /// Returns whether a journal's coordinator was noted to have stopped.
    pub fn has_stopped(&self, instance: Instance) -> bool {
        self.stopped.has(instance)
    }

    /// Notes that a worker has ended though the service goes on.
    pub fn lose_worker(&self) {
        self.lost_workers.fetch_add(1, Ordering::SeqCst);
    }

    /// Notes that a callback worker has ended though the service goes on.
    pub fn lose_callback_worker(&self) {
        self.lost_callback_workers.fetch_add(1, Ordering::SeqCst);
    }

    /// Notes that a callback worker has replaced one that was lost.
    pub fn regain_callback_worker(&self) {
        self.lost_callback_workers.fetch_sub(1, Ordering::SeqCst);
    }

    /// Notes that a callback worker is lost, and that a journal's callbacks stand still without it.
    pub fn stand(&self, journal: Instance) {
        self.standing.note(journal);
        self.lose_callback_worker();
    }

    /// Notes that a journal's callbacks, which stood still, go on.
    pub fn go_on(&self, journal: Instance) {
        self.standing.forget(journal);
        self.regain_callback_worker();
    }

    /// Returns a journal whose callbacks stand still, if there is any.
    pub fn standing(&self) -> Option<Instance> {
        self.standing.any()
    }

    /// Returns how many workers have ended though the service goes on.
    pub fn lost_workers(&self) -> u64 {
        self.lost_workers.load(Ordering::SeqCst)
    }

    /// Returns how many callback workers have ended though the service goes on.
    pub fn lost_callback_workers(&self) -> u64 {
        self.lost_callback_workers.load(Ordering::SeqCst)
    }

    /// Tallies an answered request, and its time since the moment at which its handling began.
    pub(crate) fn add_request<R: Clock>(
        &self,
        rt: &R,
        operation: Option<Operation>,
        status: StatusCode,
        began: Option<Instant>,
    ) {
        self.requests
            .add(&REQUESTS, label_of(operation), code_word(status));
        if let Some(micros) = micros_since(rt, began) {
            self.request_times.add(&TIMES, micros);
        }
    }

    /// Tallies the outcome of a callback, and its time since the moment at which it began.
    pub(crate) fn add_callback<R: Clock>(
        &self,
        rt: &R,
        kind: AskKind,
        outcome: Outcome,
        began: Option<Instant>,
    ) {
        self.callbacks
            .add(&CALLBACKS, kind.name(), outcome_word(outcome));
        if let Some(micros) = micros_since(rt, began) {
            self.callback_times.add(&TIMES, micros);
        }
    }

    /// Adds the record of the disk's syncs to a page, if there is one.
    fn put_syncs(&self, page: &mut Vec<u8>) -> Result<(), Memory> {
        match &self.syncs {
            Some(syncs) => {
                put_histogram(page, &SYNC_TIMES, syncs.times())?;
                put_histogram(page, &SYNC_WRITES, syncs.writes())
            }
            None => Ok(()),
        }
    }

    /// Adds all tallies to a page, as measures in the text format 0.0.4 of Prometheus.
    pub fn put(&self, page: &mut Vec<u8>) -> Result<(), Memory> {
        self.requests.put(&REQUESTS, page)?;
        put_histogram(page, &REQUEST_TIMES, &self.request_times)?;
        self.denied.put(page)?;
        self.callbacks.put(&CALLBACKS, page)?;
        put_histogram(page, &CALLBACK_TIMES, &self.callback_times)?;
        self.put_syncs(page)
    }
}
