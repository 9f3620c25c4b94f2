//! All settings.

ghost use Rattle.std.specs.Prelude.{◌≡◌};
ghost use Rattle.lra_settings.specs.Settings.{usual, value_of, is_limit_fit, is_retry_fit, are_in_range, are_fit};

use crate::parameter::Parameter;

/// The settings of a service: how much it handles at once, its time-outs, when a folder's journals are rotated, the
/// default limit of starts, when refused requests may be sent again, and whether traces are passed on.
#[derive(Clone, Copy, PartialEq, Eq)]
pub struct Settings {
    /// The number of connections at once.
    pub connections: u64,
    /// The number of callbacks at once.
    pub callbacks: u64,
    /// The number of callbacks at once to one host and port.
    pub host_share: u64,
    /// The seconds until a client has to begin its next request.
    pub idle_seconds: u64,
    /// The seconds that a client has for a whole request, from its first byte on.
    pub request_seconds: u64,
    /// The seconds that a client has to read the replies that wait for it.
    pub reply_seconds: u64,
    /// The seconds that a member has to accept a connection.
    pub connect_seconds: u64,
    /// The seconds that a member has for a whole callback, the connection included.
    pub callback_seconds: u64,
    /// The seconds that a sync of the disk may take before the service counts as not ready.
    pub sync_seconds: u64,
    /// The milliseconds of the first back-off, until a member is asked again for the first time.
    pub retry_first_ms: u64,
    /// The milliseconds of the longest back-off.
    pub retry_last_ms: u64,
    /// The number of actions that a folder's journal accepts before the next journal is begun.
    pub roll_after: u64,
    /// The seconds that a folder's journal stays after all its actions have ended, before it is archived.
    pub remember_seconds: u64,
    /// The number of the site, with which the identifiers of a folder's journals begin.
    pub site: u64,
    /// The milliseconds of the limit of a start that gives none. 0 is no limit.
    pub default_limit_ms: u64,
    /// The seconds after which a request may be sent again, in replies to those refused for what goes away by itself.
    /// With 0 no reply says it.
    pub retry_after_seconds: u64,
    /// The mark that the service ends gently once standard input has ended.
    pub stop_at_eof: bool,
    /// The mark that callbacks bear the trace of the request that ended their action.
    pub trace_context: bool,
    /// The mark that chunked bodies of requests are accepted, and `100 Continue` is sent.
    pub chunked: bool,
}

impl Settings {
    /// Returns the default settings.
    pub const fn usual() -> Settings
        ensures { result ≡ usual }
    {
        Settings {
            connections: 10_000,
            callbacks: 1_024,
            host_share: 64,
            idle_seconds: 30,
            request_seconds: 10,
            reply_seconds: 10,
            connect_seconds: 5,
            callback_seconds: 30,
            sync_seconds: 5,
            retry_first_ms: 100,
            retry_last_ms: 60_000,
            roll_after: 50_000,
            remember_seconds: 3_600,
            site: 0,
            default_limit_ms: 0,
            retry_after_seconds: 0,
            stop_at_eof: false,
            trace_context: false,
            chunked: false,
        }
    }

    /// Returns the value of a parameter.
    pub fn get(&self, parameter: Parameter) -> u64
        ensures { result ≡ value_of self.now parameter }
    {
        match parameter {
            Parameter::Connections => self.connections,
            Parameter::Callbacks => self.callbacks,
            Parameter::HostShare => self.host_share,
            Parameter::IdleTimeout => self.idle_seconds,
            Parameter::RequestTimeout => self.request_seconds,
            Parameter::ReplyTimeout => self.reply_seconds,
            Parameter::ConnectTimeout => self.connect_seconds,
            Parameter::CallbackTimeout => self.callback_seconds,
            Parameter::SyncSeconds => self.sync_seconds,
            Parameter::RetryFirst => self.retry_first_ms,
            Parameter::RetryLast => self.retry_last_ms,
            Parameter::RollAfter => self.roll_after,
            Parameter::Remember => self.remember_seconds,
            Parameter::Site => self.site,
            Parameter::DefaultLimit => self.default_limit_ms,
            Parameter::RetryAfter => self.retry_after_seconds,
        }
    }

    /// Returns whether there is no default limit, or its value is in its range.
    fn is_limit_fit(&self) -> bool
        ensures { result ≡ is_limit_fit self.now }
    {
        self.default_limit_ms == 0 || Parameter::DefaultLimit.fits(self.default_limit_ms)
    }

    /// Returns whether no reply says when to send again, or the seconds are in their range.
    fn is_retry_fit(&self) -> bool
        ensures { result ≡ is_retry_fit self.now }
    {
        self.retry_after_seconds == 0 || Parameter::RetryAfter.fits(self.retry_after_seconds)
    }

    /// Returns whether each parameter's value is in its range.
    fn are_in_range(&self) -> bool
        ensures { result ≡ are_in_range self.now }
    {
        Parameter::Connections.fits(self.connections)
            && Parameter::Callbacks.fits(self.callbacks)
            && Parameter::HostShare.fits(self.host_share)
            && Parameter::IdleTimeout.fits(self.idle_seconds)
            && Parameter::RequestTimeout.fits(self.request_seconds)
            && Parameter::ReplyTimeout.fits(self.reply_seconds)
            && Parameter::ConnectTimeout.fits(self.connect_seconds)
            && Parameter::CallbackTimeout.fits(self.callback_seconds)
            && Parameter::SyncSeconds.fits(self.sync_seconds)
            && Parameter::RetryFirst.fits(self.retry_first_ms)
            && Parameter::RetryLast.fits(self.retry_last_ms)
            && Parameter::RollAfter.fits(self.roll_after)
            && Parameter::Remember.fits(self.remember_seconds)
            && Parameter::Site.fits(self.site)
            && self.is_limit_fit()
            && self.is_retry_fit()
    }

    /// Returns whether a service can run with these settings: each parameter's value is in its range, and the first
    /// back-off is no longer than the last.
    pub fn are_fit(&self) -> bool
        ensures { result ≡ are_fit self.now }
    {
        self.are_in_range() && self.retry_first_ms <= self.retry_last_ms
    }
}
