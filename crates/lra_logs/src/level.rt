//! The levels of lines, by the kit's `log`.

ghost use Rattle.std.specs.Prelude.{◌≡◌, ◌≢◌, IfSome, Some};
ghost use Rattle.log.specs.declared.level.Level.{Level as LevelValue};
ghost use Rattle.lra_logs.specs.Levels as spec;
ghost use Rattle.lra_logs.specs.inner.Urgent as urgent;

pub use log::{Level, LevelFilter};

/// Returns the word of a level in an option and in a line.
pub fn level_word(level: Level) -> &'static str
    ensures { result.now ≡ spec.level_word level }
{
    match level {
        Level::Error => "error",
        Level::Warn => "warn",
        Level::Info => "info",
        Level::Debug => "debug",
        Level::Trace => "trace",
    }
}

/// Returns the level that an option names. Nothing is logged at `trace`, so no option names it.
pub fn level_named(text: &[u8]) -> Option<Level>
    ensures found { IfSome result (λ level. (text.now ≡ spec.level_word level) × (level ≢ Level.Trace)) }
    ensures only { (level : LevelValue) → level ≢ Level.Trace → text.now ≡ spec.level_word level → result ≡ Some level }
{
    match text {
        b"error" => Some(Level::Error),
        b"warn" => Some(Level::Warn),
        b"info" => Some(Level::Info),
        b"debug" => Some(Level::Debug),
        _ => None,
    }
}

/// Returns whether a line at a level is written even where the limit is reached. A warning and an error are.
pub(crate) fn is_urgent(level: Level) -> bool
    ensures { result ≡ urgent.is_urgent level }
{
    match level {
        Level::Error | Level::Warn => true,
        Level::Info | Level::Debug | Level::Trace => false,
    }
}

/// Returns the prefix of a line at that level for systemd's journal.
pub(crate) fn priority(level: Level) -> &'static str
    ensures { result.now ≡ spec.priority level }
{
    match level {
        Level::Error => "<3>",
        Level::Warn => "<4>",
        Level::Info => "<6>",
        Level::Debug | Level::Trace => "<7>",
    }
}
