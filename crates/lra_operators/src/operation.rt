//! The operations of the operators' port, in one table.

ghost use Rattle.std.specs.Prelude.{◌≡◌};
ghost use Rattle.lra_operators.specs.Operations as spec;

use lra_front::Path;

/// Operation that a request asks for. Each operation has a path of its own.
#[derive(Clone, Copy, PartialEq, Eq, Drop)]
pub enum Operation {
    /// Reads a service's whole health.
    Health,
    /// Reads whether the service has to be started anew.
    Live,
    /// Reads whether the service is ready for requests that begin something.
    Ready,
    /// Reads whether the service has started.
    Started,
    /// Reads the measures.
    Metrics,
    /// Lists actions.
    Actions,
    /// Reads an action with its members.
    Action,
    /// Closes an action.
    Close,
    /// Cancels an action.
    Cancel,
    /// Gives a member up.
    GiveUp,
    /// Shows the first page.
    Home,
    /// Shows an action's page.
    Tree,
}

impl Path for Operation {
    ghost use Rattle.lra_operators.specs.Operations.{operations, path as path_at};

    ghost all = { operations };

    ghost path_of = { path_at };

    fn all() -> &'static [Operation] {
        &[
            Operation::Health,
            Operation::Live,
            Operation::Ready,
            Operation::Started,
            Operation::Metrics,
            Operation::Actions,
            Operation::Action,
            Operation::Close,
            Operation::Cancel,
            Operation::GiveUp,
            Operation::Home,
            Operation::Tree,
        ]
    }

    fn path(self) -> &'static str {
        match self {
            Operation::Health => "/health",
            Operation::Live => "/health/live",
            Operation::Ready => "/health/ready",
            Operation::Started => "/health/started",
            Operation::Metrics => "/metrics",
            Operation::Actions => "/actions",
            Operation::Action => "/actions/{id}",
            Operation::Close => "/actions/{id}/close",
            Operation::Cancel => "/actions/{id}/cancel",
            Operation::GiveUp => "/members/{id}/give-up",
            Operation::Home => "/",
            Operation::Tree => "/page/actions/{id}",
        }
    }
}

impl Operation {
    /// Returns the operation's method: the only one that its path accepts.
    pub fn method(self) -> &'static str
        ensures { result.now ≡ spec.method self }
    {
        match self {
            Operation::Close | Operation::Cancel | Operation::GiveUp => "POST",
            _ => "GET",
        }
    }

    /// Returns whether the operation gives an order.
    pub fn is_order(self) -> bool
        ensures { result ≡ spec.is_order self }
    {
        matches!(
            self,
            Operation::Close | Operation::Cancel | Operation::GiveUp
        )
    }

    /// Returns a sentence that says what the operation does.
    pub fn summary(self) -> &'static str
        ensures { result.now ≡ spec.summary self }
    {
        match self {
            Operation::Health =>
                "Returns whether it takes requests and keeps what it answers, by MicroProfile Health 4.0",
            Operation::Live => "Returns whether it has to be started anew",
            Operation::Ready => "Returns whether it takes what is begun",
            Operation::Started => "Returns whether it has started",
            Operation::Metrics => "Returns the measures, in Prometheus' text format 0.0.4",
            Operation::Actions => "Lists the actions of a journal, page by page",
            Operation::Action => "Returns an action, with its members and the actions nested in it",
            Operation::Close => "Closes an action, as a service does",
            Operation::Cancel => "Cancels an action, as a service does",
            Operation::GiveUp =>
                "Makes a member's report that it has failed, on its behalf; or ends \
                 what a member that has ended is asked",
            Operation::Home => "Shows counts, and what hasn't ended or has a status",
            Operation::Tree => "Shows an action",
        }
    }

    /// Returns the status codes of the operation's replies when it is done. Health has 503 too, for a service that is
    /// down. An order has 303, for an order that a form gave.
    pub fn success(self) -> &'static [u16]
        ensures { result.now ≡ spec.success self }
    {
        match self {
            Operation::Health | Operation::Live | Operation::Ready | Operation::Started => {
                &[200, 503]
            }
            Operation::Close | Operation::Cancel | Operation::GiveUp => &[200, 303],
            Operation::Metrics
            | Operation::Actions
            | Operation::Action
            | Operation::Home
            | Operation::Tree => &[200],
        }
    }
}
