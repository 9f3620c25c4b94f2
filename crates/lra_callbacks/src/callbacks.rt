//! All callbacks of one callback worker.

ghost use Rattle.std.specs.Prelude.{◌≡◌, ℕ, [], IfOk, IfSome, IfNone};
ghost use Rattle.lra_courier.specs.CallbackPools.{Gains, AreSame};
ghost use Rattle.lra_callbacks.specs.Outcomes.{OfGroup};
ghost use Rattle.lra_callbacks.specs.Held.{errand_at};

use crate::attempt::Leave;
use crate::call::{Call, Seen};
use crate::hosts::Next;
use crate::names::SharedDnsCache;
use crate::quota::Quota;
use crate::resting::{SHORT_REST_MS, rest_before, rest_for};
use crate::shared_token::{SharedToken, TokenCache};
use crate::socket_set::{SocketSet, wake_workers};
use crate::sparing::Sparing;
use crate::worker_quota::WorkerQuota;
use lra_clocks::{Clock, SystemClock};
use lra_core::Errand;
use lra_courier::CallbackPool;
use lra_durable::SyncGroup;
use lra_model::{Instance, Outcome};
use lra_outcomes::{Outcomes, is_telling};
use lra_rules::Rules;
use lra_traces::{Traceparent, Traces};
use mio::{Poll, Waker};
use slab::Slab;
use std::alloc::Global;
use std::marker::Model;
use std::net::Net;
use std::sync::atomic::{AtomicU64, Ordering};
use std::sync::{Arc, Wait};
use std::time;

/// Least number of milliseconds between two polls of the office.
const PAUSE_MS: u64 = 2;

/// Number of milliseconds until a callback asks again for a socket that the system didn't have.
const SOCKET_PAUSE_MS: u64 = 1_000;

/// Callbacks to members, many at once, of one journal. The request of each is made once that journal is durable up to
/// the position that was given with the errand. A callback waits while the quota has no permit for its host. It also
/// waits while its member is in back-off after a silence. The contract says which errand is under way in each slot. The
/// owner has to call `end`, which gives the permits of the quota back.
pub struct Callbacks<'a, R, G: SyncGroup> {
    rt: &'a R,
    alloc: Global,
    group: &'a G,
    /// Instance of the journal that has the asks.
    instance: Instance,
    names: &'a SharedDnsCache,
    /// Rules for the addresses of members.
    rules: &'a Rules,
    /// Quota of callbacks that go out at once, for all callback workers.
    quota: &'a Quota,
    worker_quota: WorkerQuota,
    /// Number of callbacks under way, for others to see.
    under_way: &'a AtomicU64,
    calls: Slab<Call<G>>,
    socket_set: SocketSet,
    sparing: Sparing<'a>,
    /// Token that callbacks give to members, if there is one.
    token_cache: TokenCache<'a>,
    /// Traces of the requests that end actions, if callbacks bear them.
    traces: Option<&'a Traces>,
    /// Moment at which it polled its office last.
    looked: u64,
    /// The office's clock.
    clock: SystemClock<'a, R>,
    /// Wakers of all callback workers.
    wakers: &'a Arc<Vec<Waker>>,
    /// Moment at which it woke them last, by the office's clock.
    rang: u64,
    /// Outcomes of the members' last callbacks, for others to see.
    outcomes: &'a Outcomes,
}

/// Resumes the callbacks whose wait has ended at a moment.
fn go_on(sparing: &mut Sparing<'_>, socket_set: &mut SocketSet, now: u64) {
    for _ in 0..u64::MAX {
        let Some(key) = sparing.release(now) else {
            return;
        };
        socket_set.go_on(key);
    }
}

/// Notes the outcome of an errand, if there is one, while silent members are put in back-off.
fn note<R: time::Clock>(
    rt: &R,
    socket_set: &mut SocketSet,
    sparing: &mut Sparing<'_>,
    came: &Option<(Errand, Outcome)>,
) {
    if let Some((errand, outcome)) = came
        && sparing.is_on()
    {
        sparing.note(errand, *outcome, socket_set.moment(rt));
    }
}

/// Notes the reply of a callback that has ended, for operators who ask why a member hangs. Forgets what was noted of a
/// member that got further. If memory is refused, what was noted before stays.
fn tell_of<R: Wait + time::Clock, G: SyncGroup>(
    rt: &R,
    outcomes: &Outcomes,
    clock: &mut SystemClock<'_, R>,
    call: &Call<G>,
) {
    let Some(errand) = call.errand() else {
        return;
    };
    match call.reply() {
        Ok(Some(reply)) => {
            outcomes.note(rt, errand.member(), errand.address(), reply, clock.now());
        }
        Ok(None) => outcomes.forget(rt, errand.member()),
        Err(_) => {}
    }
}

impl<'a, R, G: SyncGroup> Model for Callbacks<'a, R, G> {
    ghost use Rattle.std.specs.Prelude.{List, Option, map};
    ghost use Rattle.std.specs.Option.{option_and_then};
    ghost use Rattle.lra_courier.specs.CallbackPools.{Handed};

    ghost Value = { List (Option Handed) };

    ghost view = { λ c. map (λ slot. option_and_then (λ call. call.attempt.errand) slot) c.calls.slots };
}

impl<'a, R: Wait + Net + time::Clock, G: SyncGroup> Callbacks<'a, R, G> {
    /// Makes the callbacks of one worker; none is under way. Returns the poll if memory is refused.
    ///
    /// `poll` is one that [`waker`](crate::waker) made. `wakers` are the wakers of all callback workers; the worker's
    /// own
    /// is at `place`. A callback is sent once the quota, which all workers share, gives a permit. An address that the
    /// rules don't allow isn't connected to: the callback is silent. The number of callbacks under way is stored in
    /// `under_way` whenever an errand is accepted or done; callbacks in back-off don't count.
    ///
    /// Members that were silent aren't asked again in the same stage until the least pause has passed, in milliseconds:
    /// 0 means no back-off, and `u64::MAX` never ends. Others may change the pause at any time; silences while it was 0
    /// aren't known. The clock is the one by which the office's moments are given. If it has ten seconds or less until
    /// the greatest moment, the pause is ten seconds at least. The outcome of each member's last callback is noted in
    /// `outcomes`, unless the callback brought the member further. A callback gives its member the token that is in
    /// force when it begins, if there is one; and bears the trace that is noted of its action or the action's parent
    /// then, if traces are passed on.
    pub fn new(
        rt: &'a R,
        alloc: Global,
        group: &'a G,
        instance: Instance,
        names: &'a SharedDnsCache,
        rules: &'a Rules,
        poll: Poll,
        quota: &'a Quota,
        worker_quota: WorkerQuota,
        under_way: &'a AtomicU64,
        least_pause: &'a AtomicU64,
        clock: SystemClock<'a, R>,
        wakers: &'a Arc<Vec<Waker>>,
        place: usize,
        outcomes: &'a Outcomes,
        token: Option<&'a SharedToken>,
        traces: Option<&'a Traces>,
    ) -> Result<Callbacks<'a, R, G>, Poll>
        ensures { IfOk result (λ made. made ≡ []) }
    {
        let Some(worker) = quota.join(rt, alloc, wakers, place) else {
            return Err(poll);
        };
        let socket_set = match SocketSet::new(alloc, poll, worker) {
            Ok(socket_set) => socket_set,
            Err(poll) => {
                quota.part(rt, worker);
                return Err(poll);
            }
        };
        Ok(Callbacks {
            rt,
            alloc,
            group,
            instance,
            names,
            rules,
            quota,
            worker_quota,
            under_way,
            calls: Slab::new(alloc),
            socket_set,
            sparing: Sparing::new(alloc, least_pause),
            token_cache: TokenCache::new(token),
            traces,
            looked: 0,
            clock,
            wakers,
            rang: 0,
            outcomes,
        })
    }

    /// Ends the worker's callbacks: discards those under way, and then gives all permits back.
    pub fn end(self) {
        let Callbacks {
            rt,
            alloc: _,
            group: _,
            instance: _,
            names: _,
            rules: _,
            quota,
            worker_quota: _,
            under_way: _,
            calls,
            mut socket_set,
            sparing,
            token_cache,
            traces: _,
            looked: _,
            clock: _,
            wakers: _,
            rang: _,
            outcomes: _,
        } = self;
        drop(calls);
        drop(sparing);
        drop(token_cache);
        socket_set.hosts.part(rt, quota);
        drop(socket_set);
    }

    /// Resumes the callbacks whose back-off has ended.
    fn go_on_all(&mut self)
        ensures { self.new ≡ self.old }
    {
        if self.sparing.count() == 0 {
            return;
        }
        let now = self.socket_set.moment(self.rt);
        go_on(&mut self.sparing, &mut self.socket_set, now);
        self.tell();
    }

    /// Defers a durable call whose member is backing off or was given up. Returns whether it was deferred.
    fn holds(&mut self, key: usize) -> bool
        ensures { self.new ≡ self.old }
    {
        let Some(call) = self.calls.get(key) else {
            return false;
        };
        let Some(errand) = call.errand() else {
            return false;
        };
        let is_given_up = is_telling(errand.kind())
            && self.outcomes.is_given_up(self.rt, errand.member());
        if !is_given_up && !self.sparing.is_on() {
            return false;
        }
        let now = self.socket_set.moment(self.rt);
        let is_held = call.is_kept(self.rt, self.group, self.instance)
            && if is_given_up {
                self.sparing.holds_until(key, u64::MAX)
            } else {
                self.sparing.holds(key, errand, now)
            };
        if is_held {
            self.tell();
        }
        is_held
    }

    /// Resumes callbacks after their back-off, and queues the callbacks for their hosts whose positions are durable.
    fn launch_all(&mut self)
        ensures { self.new ≡ self.old }
    {
        self.go_on_all();
        if !self.token_cache.renew(self.rt) {
            return;
        }
        for _ in 0..self.socket_set.awaiting_sync.len() {
            let Some(key) = self.socket_set.awaiting_sync.front().copied() else {
                return;
            };
            if !self.launch(key) {
                return;
            }
            self.socket_set.awaiting_sync.pop_front();
        }
    }

    /// Returns the trace of a call, if callbacks bear them and one is noted.
    fn trace_of(&self, key: usize) -> Option<Traceparent> {
        let Some(traces) = self.traces else {
            return None;
        };
        let Some(call) = self.calls.get(key) else {
            return None;
        };
        match call.errand() {
            Some(errand) => traces.find(self.rt, errand.action_uri(), errand.parent_uri()),
            None => None,
        }
    }

    /// Queues a call for its host with a trace, if the journal is durable up to its position. Returns whether the call
    /// no longer waits for the sync.
    fn begin_call(&mut self, key: usize, traceparent: Option<&Traceparent>) -> bool
        ensures { self.new ≡ self.old }
    {
        let Some(call) = self.calls.get_mut(key) else {
            return true;
        };
        let extra = self.token_cache.extra_fields(traceparent);
        match call.begin(self.rt, self.alloc, self.group, extra) {
            Leave::Later => return false,
            Leave::Never => self.socket_set.end(key),
            Leave::Now(socket) => self.socket_set.enlist(key, socket),
        }
        true
    }

    /// Queues a call for the end of its back-off, or for its host, if the journal is durable up to its position.
    /// Returns whether the call no longer waits for the sync.
    fn launch(&mut self, key: usize) -> bool
        ensures { self.new ≡ self.old }
    {
        if self.holds(key) {
            return true;
        }
        let traceparent = self.trace_of(key);
        self.begin_call(key, traceparent.as_ref())
    }

    /// Waits until the journal is durable up to the last position that a call waits for.
    fn settle(&mut self)
        ensures { self.new ≡ self.old }
    {
        let Some(key) = self.socket_set.awaiting_sync.back().copied() else {
            return;
        };
        if let Some(call) = self.calls.get(key) {
            // Each call asks again whether the journal is durable up to its position.
            let _ = self.group.keep(self.rt, self.instance, call.position());
        }
    }

    /// Starts the calls whose hosts may have one more. Ends those whose hosts aren't found.
    fn start_all(&mut self, now: u64)
        ensures { self.new ≡ self.old }
    {
        for _ in 0..u64::MAX {
            self.socket_set.hosts.take_calls(self.rt, self.quota);
            match self
                .socket_set
                .hosts
                .next(self.rt, self.names, self.quota, now)
            {
                Next::Goes(key, host) => self.start(key, host, now),
                Next::Fails(key) => self.miss(key),
                Next::Nothing => return,
            }
        }
    }

    /// Ends a call whose host isn't found.
    fn miss(&mut self, key: usize)
        ensures { self.new ≡ self.old }
    {
        let Some(call) = self.calls.get_mut(key) else {
            self.socket_set.end(key);
            return;
        };
        call.miss();
        self.socket_set.end(key);
    }

    /// Starts a call to a host that has a permit for it.
    fn start(&mut self, key: usize, host: usize, now: u64)
        ensures { self.new ≡ self.old }
    {
        let Some(call) = self.calls.get_mut(key) else {
            self.socket_set.hosts.leave(self.rt, self.quota, host);
            return;
        };
        call.open_socket(host, now);
        if !self.socket_set.allow(key, now.saturating_add(self.worker_quota.time_outs.connect)) {
            self.socket_set.close(self.rt, self.quota, key, host);
            self.socket_set.end(key);
            return;
        }
        self.connect(key);
    }

    /// Connects a call to the first of its host's addresses that wasn't tried and can be connected to.
    fn connect(&mut self, key: usize)
        ensures { self.new ≡ self.old }
    {
        for _ in 0..u64::MAX {
            if self.is_connecting(key) {
                return;
            }
        }
    }

    /// Begins to connect a call to the next of its host's addresses. Ends the call if there is none. Returns whether
    /// there is nothing more to try.
    fn is_connecting(&mut self, key: usize) -> bool
        ensures { self.new ≡ self.old }
    {
        let Some(call) = self.calls.get_mut(key) else {
            return true;
        };
        match self.socket_set.hosts.target(call.host(), call.tried()) {
            Some(to) => call.connect(
                self.rt,
                self.socket_set.poll.registry(),
                self.rules,
                self.names.is_proxied(),
                key,
                to,
            ),
            None => {
                call.close_socket();
                self.socket_set.close(self.rt, self.quota, key, call.host());
                self.end_unconnected(key);
                true
            }
        }
    }

    /// Ends a call that isn't connected, unless the system had no socket for it.
    fn end_unconnected(&mut self, key: usize)
        ensures { self.new ≡ self.old }
    {
        if !self.waits_for_socket(key) {
            self.socket_set.end(key);
        }
    }

    /// Defers a call that isn't connected if the system had no socket for it, which says nothing of its member. Returns
    /// whether the call was deferred.
    fn waits_for_socket(&mut self, key: usize) -> bool
        ensures { self.new ≡ self.old }
    {
        let Some(call) = self.calls.get_mut(key) else {
            return false;
        };
        if !call.lacks_socket() {
            return false;
        }
        call.start_over();
        let now = self.socket_set.moment(self.rt);
        let is_held = self
            .sparing
            .holds_until(key, now.saturating_add(SOCKET_PAUSE_MS));
        self.tell();
        is_held
    }

    /// Advances a call whose socket was reported. Once the sync group has failed, nothing more goes to any member, not
    /// even of calls that might be sent before.
    fn advance(&mut self, key: usize)
        ensures { self.new ≡ self.old }
    {
        if self.group.has_failed(self.rt) {
            return;
        }
        let Some(call) = self.calls.get_mut(key) else {
            return;
        };
        match call.advance(self.socket_set.buffer.as_mut_slice()) {
            Seen::Waits | Seen::Idle => {}
            Seen::Connected => {
                let until = call
                    .began()
                    .saturating_add(self.worker_quota.time_outs.reply);
                self.socket_set.allow(key, until);
            }
            Seen::Refused => self.connect(key),
            Seen::Ended => self.finish(key),
        }
    }

    /// Ends a call that has a socket, and closes the socket.
    fn finish(&mut self, key: usize)
        ensures { self.new ≡ self.old }
    {
        let Some(call) = self.calls.get_mut(key) else {
            return;
        };
        if call.close_socket() {
            self.socket_set.close(self.rt, self.quota, key, call.host());
            self.socket_set.end(key);
        }
    }

    /// Ends a call whose time is up, and closes its socket.
    fn give_up(&mut self, key: usize)
        ensures { self.new ≡ self.old }
    {
        let Some(call) = self.calls.get_mut(key) else {
            return;
        };
        let passed = call.passed();
        if call.give_up(self.worker_quota.time_outs) {
            self.socket_set.hosts.pass_over(call.host(), passed);
            self.socket_set.close(self.rt, self.quota, key, call.host());
            self.socket_set.end(key);
        }
    }

    /// Removes a call that has ended. Returns its errand and its outcome.
    fn remove(&mut self, key: usize) -> Option<(Errand, Outcome)>
        ensures some { IfSome result (λ came. (n : ℕ) × Gains (errand_at self.new) (errand_at self.old) (came.0, n)
            × OfGroup G.keeps n came.0.ask came.0.kind came.1) }
        ensures none { IfNone result (AreSame (errand_at self.old) (errand_at self.new)) }
    {
        let Some(call) = self.calls.try_remove(key) else {
            return None;
        };
        self.tell();
        tell_of(self.rt, self.outcomes, &mut self.clock, &call);
        let came = call.finish();
        note(self.rt, &mut self.socket_set, &mut self.sparing, &came);
        came
    }

    /// Advances the calls whose sockets were reported.
    fn advance_all(&mut self)
        ensures { self.new ≡ self.old }
    {
        for place in 0..self.socket_set.reported.len() {
            if let Some(key) = self.socket_set.reported.get(place).copied() {
                self.advance(key);
            }
        }
    }

    /// Ends the calls whose time is up.
    fn finish_late(&mut self, now: u64)
        ensures { self.new ≡ self.old }
    {
        for _ in 0..u64::MAX {
            let Some(key) = self.socket_set.late(now) else {
                return;
            };
            self.give_up(key);
        }
    }

    /// Returns the number of calls under way: calls in back-off don't count.
    fn count(&self) -> usize {
        self.calls.len().saturating_sub(self.sparing.count())
    }

    /// Reports the number of calls under way.
    fn tell(&self) {
        let count = self.count() as u64;
        self.under_way.store(count, Ordering::SeqCst);
    }

    /// Waits for sockets for so many milliseconds at most, and moves what can be moved.
    fn turn(&mut self, millis: u64)
        ensures { self.new ≡ self.old }
    {
        let now = self.socket_set.moment(self.rt);
        self.socket_set.hosts.ask_again();
        self.start_all(now);
        self.socket_set.wait(millis);
        self.advance_all();
        let now = self.socket_set.moment(self.rt);
        self.finish_late(now);
        self.start_all(now);
    }

    /// Returns how many milliseconds the worker may wait for sockets if something is due next at that moment of the
    /// office's clock. Wakes the other callback workers if it is due already.
    fn rest(&mut self, next: Option<u64>) -> u64
        ensures { self.new ≡ self.old }
    {
        let now = self.clock.now();
        self.sparing.tell_office(now);
        if next.is_some_and(|moment| moment <= now) {
            self.call_others(now);
        }
        if !self.socket_set.awaiting_sync.is_empty() || !self.socket_set.ended.is_empty() {
            return 0;
        }
        let rest = rest_for(next, now, self.is_roomy(), self.socket_set.has_to_look());
        match self.sparing.first() {
            Some(moment) => rest_before(rest, moment, self.socket_set.moment(self.rt)),
            None => rest,
        }
    }

    /// Returns whether the worker accepts one more errand.
    fn is_roomy(&self) -> bool {
        self.count() < self.worker_quota.held as usize
    }

    /// Wakes the other callback workers, since something is due that this worker didn't accept: it has no room, or too
    /// much was due at once. Does so every 50 ms at most, so that workers without room may rest.
    fn call_others(&mut self, now: u64)
        ensures { self.new ≡ self.old }
    {
        if now >= self.rang.saturating_add(SHORT_REST_MS) {
            self.rang = now;
            wake_workers(self.wakers.as_slice());
        }
    }

    /// Moves what can be moved until the office may be polled again.
    fn run_until(&mut self)
        ensures { self.new ≡ self.old }
    {
        for _ in 0..PAUSE_MS * 32 {
            let now = self.socket_set.moment(self.rt);
            let until = self.looked.saturating_add(PAUSE_MS);
            if now >= until {
                break;
            }
            self.turn(until - now);
        }
        self.looked = self.socket_set.moment(self.rt);
    }
}

impl<R: Wait + Net + time::Clock, G: SyncGroup> CallbackPool for Callbacks<'_, R, G> {
    ghost use Rattle.lra_callbacks.specs.Outcomes.{MayComeOf, coming_of_suits, silence_comes_of};
    ghost use Rattle.lra_callbacks.specs.Held.{errand_at};

    ghost held = { λ errands place. errand_at errands place };

    ghost gives = { λ ask kind outcome. MayComeOf G.keeps ask kind outcome };

    /// Returns whether the worker accepts one more errand. If it doesn't, the other callback workers accept what is
    /// due.
    fn has_room(&self) -> bool {
        self.is_roomy()
    }

    fn take(&mut self, errand: Errand, position: u64) -> Result<(), Errand> {
        if self.socket_set.make_room(self.calls.len()).is_none() {
            return Err(errand);
        }
        if self.calls.reserve(1).is_err() {
            return Err(errand);
        }
        let call = Call::new(errand, self.instance, position);
        let key = self.calls.insert_reserved(call);
        let _ = self.socket_set.awaiting_sync.push_back(key);
        self.tell();
        Ok(())
    }

    /// Rests for a second at most. Rests for 50 ms at most if it has no room, since it can't accept what is due then.
    fn carry(&mut self, next: Option<u64>) {
        self.launch_all();
        let rest = self.rest(next);
        self.turn(rest);
        if !self.socket_set.awaiting_sync.is_empty() {
            self.settle();
            self.launch_all();
            // After this, a call that still waits waits for its host.
            let now = self.socket_set.moment(self.rt);
            self.start_all(now);
        }
        self.run_until();
    }

    fn done(&mut self) -> Option<(Errand, Outcome)> {
        match self.socket_set.ended.pop_front() {
            Some(key) => self.remove(key),
            None => None,
        }
    }

    ghost suits = { λ ask kind outcome came. coming_of_suits G.keeps ask kind outcome came };

    ghost silent = { λ ask kind. silence_comes_of G.keeps ask kind };
}
