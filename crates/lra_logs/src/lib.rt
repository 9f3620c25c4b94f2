//! Log of a running service on standard error. Events are lines, in text or in JSON, each at a level. A rate limiter
//! bounds how many lines a second has.
#![tactic(auto)]

mod ask_tracker;
mod escaping;
mod event;
mod event_sink;
mod file_tail;
mod format;
mod journal_events;
mod laws;
mod level;
mod line;
mod logbook;
mod rate_limiter;
mod saying;
mod time;

pub use event::{Event, Field, Key, Port, Shown, level_of};
pub use event_sink::{EventSink, NullSink};
pub use file_tail::FileTail;
pub use format::Format;
pub use journal_events::JournalEvents;
pub use laws::lines_are_few;
pub use level::{Level, LevelFilter, level_named, level_word};
pub use line::{line_of, told_line};
pub use logbook::{Logbook, has_priorities};
pub use rate_limiter::{RateLimiter, Verdict};
pub use time::time_text;
