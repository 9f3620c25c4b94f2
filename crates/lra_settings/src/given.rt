//! The values that one source, the command line or a file, gives to the settings.

ghost use Rattle.std.specs.Prelude.{◌≡◌};
ghost use Rattle.lra_settings.specs.Settings.{usual};
ghost use Rattle.lra_settings.specs.Given.{applied, nothing};

use crate::parameter::Parameter;
use crate::settings::Settings;

/// The values that one source gives to the settings. A setting that it doesn't give is `None`.
#[derive(Clone, Copy, PartialEq, Eq)]
pub struct Given {
    pub connections: Option<u64>,
    pub callbacks: Option<u64>,
    pub host_share: Option<u64>,
    pub idle_seconds: Option<u64>,
    pub request_seconds: Option<u64>,
    pub reply_seconds: Option<u64>,
    pub connect_seconds: Option<u64>,
    pub callback_seconds: Option<u64>,
    pub sync_seconds: Option<u64>,
    pub retry_first_ms: Option<u64>,
    pub retry_last_ms: Option<u64>,
    pub roll_after: Option<u64>,
    pub remember_seconds: Option<u64>,
    pub site: Option<u64>,
    pub default_limit_ms: Option<u64>,
    pub retry_after_seconds: Option<u64>,
    pub stop_at_eof: Option<bool>,
    pub trace_context: Option<bool>,
    pub chunked: Option<bool>,
}

impl Given {
    /// Returns the values of a source that gives none.
    pub fn nothing() -> Given
        ensures { result ≡ nothing }
    {
        Given {
            connections: None,
            callbacks: None,
            host_share: None,
            idle_seconds: None,
            request_seconds: None,
            reply_seconds: None,
            connect_seconds: None,
            callback_seconds: None,
            sync_seconds: None,
            retry_first_ms: None,
            retry_last_ms: None,
            roll_after: None,
            remember_seconds: None,
            site: None,
            default_limit_ms: None,
            retry_after_seconds: None,
            stop_at_eof: None,
            trace_context: None,
            chunked: None,
        }
    }

    /// Sets the value of a parameter.
    pub fn put(&mut self, parameter: Parameter, value: u64) {
        let place = match parameter {
            Parameter::Connections => &mut self.connections,
            Parameter::Callbacks => &mut self.callbacks,
            Parameter::HostShare => &mut self.host_share,
            Parameter::IdleTimeout => &mut self.idle_seconds,
            Parameter::RequestTimeout => &mut self.request_seconds,
            Parameter::ReplyTimeout => &mut self.reply_seconds,
            Parameter::ConnectTimeout => &mut self.connect_seconds,
            Parameter::CallbackTimeout => &mut self.callback_seconds,
            Parameter::SyncSeconds => &mut self.sync_seconds,
            Parameter::RetryFirst => &mut self.retry_first_ms,
            Parameter::RetryLast => &mut self.retry_last_ms,
            Parameter::RollAfter => &mut self.roll_after,
            Parameter::Remember => &mut self.remember_seconds,
            Parameter::Site => &mut self.site,
            Parameter::DefaultLimit => &mut self.default_limit_ms,
            Parameter::RetryAfter => &mut self.retry_after_seconds,
        };
        *place = Some(value);
    }

    /// Returns the settings with the values that are given here in place of theirs.
    fn applied(&self, settings: Settings) -> Settings
        ensures { result ≡ applied self.now settings }
    {
        Settings {
            connections: self.connections.unwrap_or(settings.connections),
            callbacks: self.callbacks.unwrap_or(settings.callbacks),
            host_share: self.host_share.unwrap_or(settings.host_share),
            idle_seconds: self.idle_seconds.unwrap_or(settings.idle_seconds),
            request_seconds: self.request_seconds.unwrap_or(settings.request_seconds),
            reply_seconds: self.reply_seconds.unwrap_or(settings.reply_seconds),
            connect_seconds: self.connect_seconds.unwrap_or(settings.connect_seconds),
            callback_seconds: self.callback_seconds.unwrap_or(settings.callback_seconds),
            sync_seconds: self.sync_seconds.unwrap_or(settings.sync_seconds),
            retry_first_ms: self.retry_first_ms.unwrap_or(settings.retry_first_ms),
            retry_last_ms: self.retry_last_ms.unwrap_or(settings.retry_last_ms),
            roll_after: self.roll_after.unwrap_or(settings.roll_after),
            remember_seconds: self.remember_seconds.unwrap_or(settings.remember_seconds),
            site: self.site.unwrap_or(settings.site),
            default_limit_ms: self.default_limit_ms.unwrap_or(settings.default_limit_ms),
            retry_after_seconds: self
                .retry_after_seconds
                .unwrap_or(settings.retry_after_seconds),
            stop_at_eof: self.stop_at_eof.unwrap_or(settings.stop_at_eof),
            trace_context: self.trace_context.unwrap_or(settings.trace_context),
            chunked: self.chunked.unwrap_or(settings.chunked),
        }
    }
}

/// Returns the settings from a command line and a file. The line's values have precedence over the file's. A setting
/// that neither gives has its default.
pub fn settings_of(line: &Given, file: &Given) -> Settings
    ensures { result ≡ applied line.now (applied file.now usual) }
{
    line.applied(file.applied(Settings::usual()))
}
