//! Errand with its socket.

ghost use Rattle.std.specs.Global.{Global};
ghost use Rattle.std.specs.Prelude.{◌≡◌, Some, IfOk, IfSome, OnOk, IsTrue, String, option_map, string_bytes};
ghost use Rattle.std.specs.Option.{ForSome};
ghost use Rattle.lra_callbacks.specs.inner.Targets.{is_let};
ghost use Rattle.lra_courier.specs.Callbacks.{extra_of};
ghost use Rattle.lra_courier.specs.Sockets.{socket_text};
ghost use Rattle.lra_callbacks.specs.Outcomes.{IsForWith, MayCome};
ghost use Rattle.lra_callbacks.specs.inner.Attempts.{outcome_of};
ghost use Rattle.lra_callbacks.specs.inner.Ends.{Replies, has_no_socket, limit_of};

use crate::attempt::{Attempt, Leave};
use crate::hosts::Target;
use crate::pumping::Moved;
use crate::replies::{End, end_of};
use crate::worker_quota::TimeOuts;
use lra_core::Errand;
use lra_courier::ExtraFields;
use lra_durable::SyncGroup;
use lra_model::{Instance, Memory, Outcome};
use lra_outcomes::Reply;
use lra_rules::Rules;
use mio::net::TcpStream;
use mio::{Interest, Registry, Token};
use std::alloc::Global;
use std::io::ErrorKind;
use std::net::Net;
use std::sync::Wait;

/// Result of advancing a callback on its socket.
#[derive(Clone, Copy, PartialEq, Eq)]
pub(crate) enum Seen {
    /// The callback waits for its socket.
    Waits,
    /// The connection was just made, and the callback waits for its socket.
    Connected,
    /// The connection couldn't be made.
    Refused,
    /// The callback has ended.
    Ended,
    /// The callback has no socket: the event was for an earlier one.
    Idle,
}

/// Errand that was accepted, and the socket of its callback once it has one.
#[derive(Drop)]
pub(crate) struct Call<G: SyncGroup> {
    attempt: Attempt<G>,
    stream: Option<TcpStream>,
    is_connected: bool,
    /// Number of the host that it goes to.
    host: usize,
    /// Number of the host's addresses that were tried.
    tried: usize,
    /// Moment at which it began to connect, in milliseconds.
    began: u64,
    /// Its end; until it ends, the end that it would have now.
    end: End,
}

impl<G: SyncGroup> Call<G> {
    /// Makes the call of an errand whose ask is in the journal of that instance.
    pub(crate) fn new(errand: Errand, instance: Instance, position: u64) -> Call<G>
        ensures errand { result.attempt.errand ≡ Some (errand, position) }
        ensures journal { result.attempt.instance ≡ instance }
    {
        Call {
            attempt: Attempt::new(errand, instance, position),
            stream: None,
            is_connected: false,
            host: 0,
            tried: 0,
            began: 0,
            end: End::NotSent,
        }
    }

    /// Makes the callback, with extra fields, if it may be sent. Returns whether it may, and if so, the host and port
    /// of the errand's address.
    pub(crate) fn begin<R: Wait>(
        &mut self,
        rt: &R,
        alloc: Global,
        group: &G,
        extra: ExtraFields<'_>,
    ) -> Leave
        ensures errand { self.new.attempt.errand ≡ self.old.attempt.errand }
        ensures socket { (socket : String Global) → result ≡ Leave.Now socket
            → ForSome self.old.attempt.errand (λ h. string_bytes socket ≡ socket_text h.0.address) }
        ensures extra { (socket : String Global) → result ≡ Leave.Now socket → ForSome self.new.attempt.flight
            (λ f. ForSome self.old.attempt.errand (λ h. IsForWith (extra_of extra.entry) f.callback_exchange h.0)) }
    {
        self.attempt.begin(rt, alloc, group, extra)
    }

    /// Returns the errand.
    pub(crate) fn errand(&self) -> Option<&Errand>
        ensures { option_map (λ errand. errand.now) result ≡ option_map (λ handed. handed.0) self.now.attempt.errand }
    {
        self.attempt.errand()
    }

    /// Returns the position up to which the journal has to be durable before the callback is sent.
    pub(crate) fn position(&self) -> u64 {
        self.attempt.position()
    }

    /// Returns whether the journal of an instance is durable up to the errand's position.
    pub(crate) fn is_kept<R: Wait>(&self, rt: &R, group: &G, instance: Instance) -> bool {
        matches!(group.kept(rt, instance, self.position()), Ok(Some(_)))
    }

    /// Returns the errand, and the outcome of its callback.
    pub(crate) fn finish(self) -> Option<(Errand, Outcome)>
        ensures errand { option_map (λ came. came.0) result ≡ option_map (λ handed. handed.0) self.attempt.errand }
        ensures came { IfSome result (λ came. ForSome self.attempt.errand
            (λ h. MayCome (G.keeps self.attempt.instance) h.1 came.0.ask came.0.kind came.1)) }
        ensures told { IfSome result
            (λ came. ForSome self.attempt.flight (λ f. came.1 ≡ outcome_of f.callback_exchange)) }
    {
        let Call { attempt, .. } = self;
        attempt.finish()
    }

    /// Returns the reply that is reported for it, or `None` if it brought its member further. Fails if memory is
    /// refused.
    pub(crate) fn reply(&self) -> Result<Option<Reply>, Memory>
        ensures { IfOk result (λ reply. Replies self.now.end self.now.attempt.flight reply) }
    {
        self.attempt.reply(self.end)
    }

    /// Notes that no address of its host was found.
    pub(crate) fn miss(&mut self)
        ensures errand { self.new.attempt.errand ≡ self.old.attempt.errand }
        ensures end { self.new.end ≡ End.NoAddress }
    {
        self.end = End::NoAddress;
    }

    pub(crate) fn host(&self) -> usize {
        self.host
    }

    pub(crate) fn tried(&self) -> usize {
        self.tried
    }

    pub(crate) fn began(&self) -> u64 {
        self.began
    }

    /// Returns how many addresses of its host didn't answer in time, if its time is up: those that were tried, unless
    /// the last of them is connected.
    pub(crate) fn passed(&self) -> usize {
        if self.is_connected { 0 } else { self.tried }
    }

    /// Directs the call to a host, and notes the moment at which it begins to connect.
    pub(crate) fn open_socket(&mut self, host: usize, now: u64)
        ensures { self.new.attempt.errand ≡ self.old.attempt.errand }
    {
        self.host = host;
        self.began = now;
    }

    /// Begins to connect to an address of its host, or to the proxy, if the rules allow that. Returns whether it could.
    pub(crate) fn connect<R: Net>(
        &mut self,
        rt: &R,
        registry: &Registry,
        rules: &Rules,
        is_proxied: bool,
        key: usize,
        to: Target<'_>,
    ) -> bool
        ensures { self.new.attempt.errand ≡ self.old.attempt.errand }
    {
        self.tried = self.tried.saturating_add(1);
        self.is_connected = false;
        let mut stream = match dial(rt, rules, is_proxied, to) {
            Ok(stream) => stream,
            Err(end) => {
                self.end = end;
                return false;
            }
        };
        self.end = End::NotSent;
        let interests = Interest::READABLE | Interest::WRITABLE;
        let is_watched = registry
            .register(&mut stream, Token(key), interests)
            .is_ok();
        self.stream = Some(stream);
        is_watched
    }

    /// Returns whether the system had no socket for it, for example since too many files are open.
    pub(crate) fn lacks_socket(&self) -> bool
        ensures { result ≡ has_no_socket self.now.end }
    {
        matches!(self.end, End::NotSent)
    }

    /// Marks all addresses of its host as ones that weren't tried.
    pub(crate) fn start_over(&mut self)
        ensures { self.new.attempt.errand ≡ self.old.attempt.errand }
    {
        self.tried = 0;
    }

    /// Closes its socket. Returns whether it had one.
    pub(crate) fn close_socket(&mut self) -> bool
        ensures { self.new.attempt.errand ≡ self.old.attempt.errand }
    {
        self.stream.take().is_some()
    }

    /// Closes its socket, since a time limit has passed. Returns whether it had one.
    pub(crate) fn give_up(&mut self, time_outs: TimeOuts) -> bool
        ensures errand { self.new.attempt.errand ≡ self.old.attempt.errand }
        ensures end { self.new.end ≡ End.TimedOut (limit_of self.old.is_connected time_outs) }
    {
        let limit = limit_of(self.is_connected, time_outs);
        let had_socket = self.close_socket();
        self.end = End::TimedOut { limit };
        had_socket
    }

    /// Moves the bytes that can be moved now, once the connection is made.
    pub(crate) fn advance(&mut self, buffer: &mut [u8]) -> Seen
        ensures { self.new.attempt.errand ≡ self.old.attempt.errand }
    {
        let Some(stream) = &mut self.stream else {
            return Seen::Idle;
        };
        let was_connected = self.is_connected;
        if !was_connected {
            match connection_of(stream) {
                Connection::Made => self.is_connected = true,
                Connection::Pending => return Seen::Waits,
                Connection::Failed => {
                    self.end = End::NotConnected;
                    return Seen::Refused;
                }
            }
        }
        self.end = End::Heard;
        match self.attempt.pump(stream, buffer) {
            Moved::Ended => Seen::Ended,
            Moved::Waits => {
                if was_connected {
                    Seen::Waits
                } else {
                    Seen::Connected
                }
            }
        }
    }
}

/// Returns whether the rules allow a callback to a target: at the address that its host resolves to; or by the proxy,
/// as far as its host and port are written, since the proxy resolves them.
fn is_let(rules: &Rules, is_proxied: bool, to: Target<'_>) -> bool
    ensures { result ≡ is_let rules.now is_proxied to.entry.socket.now to.entry.address }
{
    let socket = to.socket.as_bytes();
    if is_proxied {
        rules.let_written(socket)
    } else {
        rules.let_socket(socket, to.address)
    }
}

/// Begins to connect to a target if the rules allow it. Returns the callback's end otherwise.
fn dial<R: Net>(rt: &R, rules: &Rules, is_proxied: bool, to: Target<'_>) -> Result<TcpStream, End>
    ensures { OnOk result (IsTrue (is_let rules.now is_proxied to.entry.socket.now to.entry.address)) }
{
    if !is_let(rules, is_proxied, to) {
        return Err(End::NotAllowed);
    }
    match TcpStream::connect(rt, to.address) {
        Ok(stream) => Ok(stream),
        Err(error) => Err(end_of(&error)),
    }
}

/// Returns the time limit of a callback that has passed: that to connect, or that for the whole reply.
fn limit_of(is_connected: bool, time_outs: TimeOuts) -> u64
    ensures { result ≡ limit_of is_connected time_outs }
{
    if is_connected {
        time_outs.reply
    } else {
        time_outs.connect
    }
}

/// State of a socket's connection.
#[derive(Clone, Copy, PartialEq, Eq)]
enum Connection {
    Made,
    Pending,
    Failed,
}

fn connection_of(stream: &TcpStream) -> Connection {
    if !matches!(stream.take_error(), Ok(None)) {
        return Connection::Failed;
    }
    match stream.peer_addr() {
        Ok(_) => {
            // Bytes that are written go out at once, even if this can't be set.
            let _ = stream.set_nodelay(true);
            Connection::Made
        }
        Err(error) => match error.kind() {
            ErrorKind::NotConnected => Connection::Pending,
            _ => Connection::Failed,
        },
    }
}
