//! The operations: what a request may ask for, in one table.

ghost use Rattle.std.specs.Prelude.{◌≡◌};
ghost use Rattle.lra_front.specs.Operations as spec;

use crate::paths::Path;

/// Resource that a path names.
#[derive(Clone, Copy, Debug, PartialEq, Eq, Drop)]
pub enum Resource {
    /// Resource at which actions are started.
    Actions,
    /// Action.
    Action,
    /// Resource at which an action is closed.
    Close,
    /// Resource at which an action is cancelled.
    Cancel,
    /// Resource at which a member leaves its action.
    Remove,
    /// Resource at which an action's limit is set anew.
    Renew,
    /// Member.
    Member,
}

/// Operation that a request asks for.
#[derive(Clone, Copy, Debug, PartialEq, Eq)]
pub enum Operation {
    /// Start of an action.
    Start,
    /// Query of an action's status.
    Status,
    /// Joining of a member to an action.
    Join,
    /// Close of an action.
    Close,
    /// Cancellation of an action.
    Cancel,
    /// Leaving of a member from its action.
    Remove,
    /// Renewal of an action's limit.
    Renew,
    /// Query of a member's status.
    MemberStatus,
    /// Report of a member on its own end.
    Report,
}

impl Path for Resource {
    ghost use Rattle.lra_front.specs.Operations.{resources, path_of as path_at};

    ghost all = { resources };

    ghost path_of = { path_at };

    fn all() -> &'static [Resource] {
        &[
            Resource::Actions,
            Resource::Action,
            Resource::Close,
            Resource::Cancel,
            Resource::Remove,
            Resource::Renew,
            Resource::Member,
        ]
    }

    fn path(self) -> &'static str {
        match self {
            Resource::Actions => "/lra-coordinator",
            Resource::Action => "/lra-coordinator/{id}",
            Resource::Close => "/lra-coordinator/{id}/close",
            Resource::Cancel => "/lra-coordinator/{id}/cancel",
            Resource::Remove => "/lra-coordinator/{id}/remove",
            Resource::Renew => "/lra-coordinator/{id}/renew",
            Resource::Member => "/lra-recovery/{id}",
        }
    }
}

impl Resource {
    /// Returns the operation that a method asks for at this resource, if there is one.
    pub(crate) fn operation(self, method: &str) -> Option<Operation>
        ensures { result ≡ spec.operation_at method.now self }
    {
        for operation in Operation::ALL {
            if operation.is_asked(method, self) {
                return Some(operation);
            }
        }
        None
    }

    /// Returns the methods that the resource accepts, as `Allow` lists them (RFC 9110, section 10.2.1).
    pub fn allowed(self) -> &'static str
        ensures { result.now ≡ spec.allowed self }
    {
        match self {
            Resource::Actions => "POST",
            Resource::Action | Resource::Member => "GET, PUT",
            Resource::Close | Resource::Cancel | Resource::Remove | Resource::Renew => "PUT",
        }
    }
}

impl Operation {
    /// All operations, in the order in which docs/use/http.md lists them.
    pub const ALL: [Operation; 9] = [
        Operation::Start,
        Operation::Status,
        Operation::Join,
        Operation::Close,
        Operation::Cancel,
        Operation::Remove,
        Operation::Renew,
        Operation::MemberStatus,
        Operation::Report,
    ];

    /// Returns the resource that the operation's path names.
    pub fn resource(self) -> Resource
        ensures { result ≡ spec.named_resource self }
    {
        match self {
            Operation::Start => Resource::Actions,
            Operation::Status | Operation::Join => Resource::Action,
            Operation::Close => Resource::Close,
            Operation::Cancel => Resource::Cancel,
            Operation::Remove => Resource::Remove,
            Operation::Renew => Resource::Renew,
            Operation::MemberStatus | Operation::Report => Resource::Member,
        }
    }

    /// Returns the operation's path, with `{id}` in place of the ID.
    pub fn path(self) -> &'static str
        ensures { result.now ≡ spec.path self }
    {
        self.resource().path()
    }

    /// Returns the operation's method.
    pub fn method(self) -> &'static str
        ensures { result.now ≡ spec.method self }
    {
        match self {
            Operation::Start => "POST",
            Operation::Status | Operation::MemberStatus => "GET",
            Operation::Join
            | Operation::Close
            | Operation::Cancel
            | Operation::Remove
            | Operation::Renew
            | Operation::Report => "PUT",
        }
    }

    /// Returns the operation's label in metrics.
    pub fn label(self) -> &'static str
        ensures { result.now ≡ spec.label self }
    {
        match self {
            Operation::Start => "start",
            Operation::Status => "status",
            Operation::Join => "join",
            Operation::Close => "close",
            Operation::Cancel => "cancel",
            Operation::Remove => "remove",
            Operation::Renew => "renew",
            Operation::MemberStatus => "member",
            Operation::Report => "report",
        }
    }

    /// Returns a sentence that says what the operation does.
    pub fn summary(self) -> &'static str
        ensures { result.now ≡ spec.summary self }
    {
        match self {
            Operation::Start => "Starts an action, at the top or nested in another",
            Operation::Status => "Returns an action's status",
            Operation::Join => "Lets a member join an action",
            Operation::Close => "Closes an action, so that its members complete",
            Operation::Cancel => "Cancels an action, so that its members compensate",
            Operation::Remove => "Lets a member leave its action",
            Operation::Renew => "Sets an action's limit anew, from now",
            Operation::MemberStatus => "Returns a member's status",
            Operation::Report => "Takes down how a member ended",
        }
    }

    /// Returns the status codes of the replies where the operation is done.
    pub fn success(self) -> &'static [u16]
        ensures { result.now ≡ spec.success self }
    {
        match self {
            Operation::Start => &[201],
            Operation::Close | Operation::Cancel => &[200, 202],
            Operation::Status
            | Operation::Join
            | Operation::Remove
            | Operation::Renew
            | Operation::MemberStatus
            | Operation::Report => &[200],
        }
    }

    /// Returns the status codes by which a request for the operation is refused once it was read, admitted and routed.
    pub fn refusals(self) -> &'static [u16]
        ensures { result.now ≡ spec.refusals self }
    {
        match self {
            Operation::Start | Operation::Renew => &[400, 404, 409, 412, 500, 503],
            Operation::Status | Operation::MemberStatus => &[404, 500, 503],
            Operation::Join | Operation::Close | Operation::Cancel => &[400, 404, 412, 500, 503],
            Operation::Remove => &[400, 404, 409, 410, 412, 500, 503],
            Operation::Report => &[400, 404, 410, 412, 500, 503],
        }
    }

    /// Returns whether a method asks for the operation at a resource.
    fn is_asked(self, method: &str, resource: Resource) -> bool
        ensures { result ≡ spec.is_asked method.now resource self }
    {
        self.path() == resource.path() && method == self.method()
    }
}
