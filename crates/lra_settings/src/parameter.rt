//! The settings that are numbers.

ghost use Rattle.std.specs.Prelude.{◌≡◌, ◌&&◌, IfSome, nat_le};
ghost use Rattle.lra_settings.specs.Parameters.{name_of, least_of, most_of, fits};

/// A setting that is a number.
#[derive(Clone, Copy, PartialEq, Eq)]
pub enum Parameter {
    Connections,
    Callbacks,
    HostShare,
    IdleTimeout,
    RequestTimeout,
    ReplyTimeout,
    ConnectTimeout,
    CallbackTimeout,
    SyncSeconds,
    RetryFirst,
    RetryLast,
    RollAfter,
    Remember,
    Site,
    DefaultLimit,
    RetryAfter,
}

impl Parameter {
    /// All parameters.
    pub const ALL: [Parameter; 16] = [
        Parameter::Connections,
        Parameter::Callbacks,
        Parameter::HostShare,
        Parameter::IdleTimeout,
        Parameter::RequestTimeout,
        Parameter::ReplyTimeout,
        Parameter::ConnectTimeout,
        Parameter::CallbackTimeout,
        Parameter::SyncSeconds,
        Parameter::RetryFirst,
        Parameter::RetryLast,
        Parameter::RollAfter,
        Parameter::Remember,
        Parameter::Site,
        Parameter::DefaultLimit,
        Parameter::RetryAfter,
    ];

    /// Returns the parameter's name on a command line and in a file.
    pub const fn name(self) -> &'static str
        ensures { result.now ≡ name_of self }
    {
        match self {
            Parameter::Connections => "connections",
            Parameter::Callbacks => "callbacks",
            Parameter::HostShare => "host-share",
            Parameter::IdleTimeout => "idle-timeout",
            Parameter::RequestTimeout => "request-timeout",
            Parameter::ReplyTimeout => "reply-timeout",
            Parameter::ConnectTimeout => "connect-timeout",
            Parameter::CallbackTimeout => "callback-timeout",
            Parameter::SyncSeconds => "sync-seconds",
            Parameter::RetryFirst => "retry-first",
            Parameter::RetryLast => "retry-last",
            Parameter::RollAfter => "roll-after",
            Parameter::Remember => "remember",
            Parameter::Site => "site",
            Parameter::DefaultLimit => "default-limit",
            Parameter::RetryAfter => "retry-after",
        }
    }

    /// Returns the parameter of a name, if there is one.
    pub fn from_name(text: &str) -> Option<Parameter>
        ensures { IfSome result (λ parameter. text.now ≡ name_of parameter) }
    {
        for parameter in &Parameter::ALL {
            if text == parameter.name() {
                return Some(*parameter);
            }
        }
        None
    }

    /// Returns the least value that the parameter may have.
    pub const fn least(self) -> u64
        ensures { result ≡ least_of self }
    {
        match self {
            Parameter::Site => 0,
            _ => 1,
        }
    }

    /// Returns the largest value that the parameter may have.
    pub const fn most(self) -> u64
        ensures { result ≡ most_of self }
    {
        match self {
            Parameter::Connections => 1_000_000,
            Parameter::Callbacks => 65_536,
            Parameter::HostShare => 65_536,
            Parameter::IdleTimeout => 86_400,
            Parameter::RequestTimeout => 86_400,
            Parameter::ReplyTimeout => 86_400,
            Parameter::ConnectTimeout => 86_400,
            Parameter::CallbackTimeout => 86_400,
            Parameter::SyncSeconds => 86_400,
            Parameter::RetryFirst => 86_400_000,
            Parameter::RetryLast => 86_400_000,
            Parameter::RollAfter => 50_000,
            Parameter::Remember => 31_536_000,
            Parameter::Site => 65_535,
            Parameter::DefaultLimit => 9_007_199_254_740_992,
            Parameter::RetryAfter => 3_600,
        }
    }

    /// Returns whether the parameter may have that value.
    pub fn fits(self, value: u64) -> bool
        ensures { result ≡ fits self value }
    {
        self.least() <= value && value <= self.most()
    }
}
