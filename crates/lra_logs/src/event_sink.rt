//! Event sinks.

ghost use Rattle.std.specs.Prelude.{◌≡◌, false};

use crate::event::Event;
use log::Level;
use std::sync::Arc;

/// Event sink.
pub trait EventSink {
    /// Returns whether the sink uses events at that level.
    fn hears(&self, level: Level) -> bool;

    /// Records an event.
    fn note(&self, event: &Event);
}

/// Event sink that drops each event.
#[derive(Clone, Copy)]
pub struct NullSink;

impl EventSink for NullSink {
    fn hears(&self, _level: Level) -> bool
        ensures { result ≡ false }
    {
        false
    }

    fn note(&self, _event: &Event) {}
}

impl<J: EventSink> EventSink for &J {
    fn hears(&self, level: Level) -> bool {
        (**self).hears(level)
    }

    fn note(&self, event: &Event) {
        (**self).note(event);
    }
}

impl<J: EventSink> EventSink for Arc<J> {
    fn hears(&self, level: Level) -> bool {
        (**self).hears(level)
    }

    fn note(&self, event: &Event) {
        (**self).note(event);
    }
}
