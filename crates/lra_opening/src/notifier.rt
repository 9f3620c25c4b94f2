//! Notifiers, which get lines about a service and its threads.

/// Notifier, which gets lines about what a service does.
pub trait Notifier {
    /// Reports a line.
    fn notify(&self, line: &str);
}

/// Notifier that drops all lines.
#[derive(Clone, Copy)]
pub struct SilentNotifier;

impl Notifier for SilentNotifier {
    fn notify(&self, _line: &str) {}
}

/// Notifier that writes to standard error.
#[derive(Drop)]
pub struct StandardErrorNotifier<'a, R> {
    pub rt: &'a R,
}

impl<R: Eprint> Notifier for StandardErrorNotifier<'_, R> {
    fn notify(&self, line: &str) {
        // If standard error can't be written, nothing else can be done.
        let _ = eprint!(self.rt; "{line}");
    }
}

/// Notifier that writes to standard error if that is a terminal.
#[derive(Drop)]
pub struct TerminalNotifier<'a, R> {
    pub rt: &'a R,
    pub is_terminal: bool,
}

impl<R: Eprint> Notifier for TerminalNotifier<'_, R> {
    fn notify(&self, line: &str) {
        if self.is_terminal {
            let _ = eprint!(self.rt; "{line}");
        }
    }
}
