//! The operations of the dialect, in one table.

ghost use Rattle.std.specs.Prelude.{◌≡◌};
ghost use Rattle.lra_narayana.specs.Operations as spec;

use lra_front::{DialectMethods, Path};

/// Resource that a path of the dialect names.
#[derive(Clone, Copy, Debug, PartialEq, Eq, Drop)]
pub enum DialectResource {
    /// Resource at which actions are started.
    Start,
    /// All actions.
    Actions,
    /// Action.
    Action,
    /// Resource at which an action is closed.
    Close,
    /// Resource at which an action is cancelled.
    Cancel,
    /// Resource at which a member leaves its action.
    Remove,
    /// Resource at which an action's limit is set anew.
    Renew,
    /// Status of an action.
    Status,
    /// Actions that are ending.
    Recovery,
    /// Actions that failed.
    Failed,
    /// Member, as the dialect names it.
    Member,
    /// Member, by its recovery URI.
    RecoveryUri,
    /// Status of a nested action.
    NestedStatus,
    /// Resource at which a nested action is completed.
    NestedComplete,
    /// Resource at which a nested action is compensated.
    NestedCompensate,
    /// Resource at which a nested action is forgotten.
    NestedForget,
}

/// Operation of the dialect.
#[derive(Clone, Copy, Debug, PartialEq, Eq)]
pub enum DialectOperation {
    /// Start of an action.
    Start,
    /// List of actions.
    List,
    /// Details of an action.
    Details,
    /// Joining of a member to an action.
    Join,
    /// Close of an action.
    Close,
    /// Cancellation of an action.
    Cancel,
    /// Leaving of a member from its action.
    Leave,
    /// Renewal of an action's limit.
    Renew,
    /// Query of an action's status.
    Status,
    /// List of the actions that are ending.
    Recovering,
    /// List of the actions that failed.
    Failed,
    /// Query of a member's links.
    Links,
    /// Move of a member to other links.
    Move,
    /// The same query by the recovery URI.
    LinksByUri,
    /// The same move by the recovery URI.
    MoveByUri,
    /// Query of a nested action's status as a member's.
    NestedStatus,
    /// Completion of a nested action as a member.
    NestedComplete,
    /// Compensation of a nested action as a member.
    NestedCompensate,
    /// Forgetting of a nested action as a member.
    NestedForget,
}

impl Path for DialectResource {
    ghost use Rattle.lra_narayana.specs.Operations.{resources, path_of as path_at};

    ghost all = { resources };

    ghost path_of = { path_at };

    fn all() -> &'static [DialectResource] {
        &[
            DialectResource::Start,
            DialectResource::Actions,
            DialectResource::Action,
            DialectResource::Close,
            DialectResource::Cancel,
            DialectResource::Remove,
            DialectResource::Renew,
            DialectResource::Status,
            DialectResource::Recovery,
            DialectResource::Failed,
            DialectResource::Member,
            DialectResource::RecoveryUri,
            DialectResource::NestedStatus,
            DialectResource::NestedComplete,
            DialectResource::NestedCompensate,
            DialectResource::NestedForget,
        ]
    }

    fn path(self) -> &'static str {
        match self {
            DialectResource::Start => "/lra-coordinator/start",
            DialectResource::Actions => "/lra-coordinator",
            DialectResource::Action => "/lra-coordinator/{id}",
            DialectResource::Close => "/lra-coordinator/{id}/close",
            DialectResource::Cancel => "/lra-coordinator/{id}/cancel",
            DialectResource::Remove => "/lra-coordinator/{id}/remove",
            DialectResource::Renew => "/lra-coordinator/{id}/renew",
            DialectResource::Status => "/lra-coordinator/{id}/status",
            DialectResource::Recovery => "/lra-coordinator/recovery",
            DialectResource::Failed => "/lra-coordinator/recovery/failed",
            DialectResource::Member => "/lra-coordinator/recovery/{id}/{member}",
            DialectResource::RecoveryUri => "/lra-recovery/{id}",
            DialectResource::NestedStatus => "/lra-coordinator/nested/{id}/status",
            DialectResource::NestedComplete => "/lra-coordinator/nested/{id}/complete",
            DialectResource::NestedCompensate => "/lra-coordinator/nested/{id}/compensate",
            DialectResource::NestedForget => "/lra-coordinator/nested/{id}/forget",
        }
    }
}

impl DialectResource {
    /// Returns the operation that a method asks for at this resource, if there is one.
    #[tactic(auto, unfolding(crate::specs::Operations::operation_at))]
    pub(crate) fn operation(self, method: &str) -> Option<DialectOperation>
        ensures { result ≡ spec.operation_at method.now self }
    {
        for operation in DialectOperation::ALL {
            if operation.is_asked(method, self) {
                return Some(operation);
            }
        }
        None
    }

    /// Returns the methods that the resource accepts.
    pub fn methods(self) -> DialectMethods
        ensures { result ≡ spec.methods_of self }
    {
        match self {
            DialectResource::Start => DialectMethods::Post,
            DialectResource::Action | DialectResource::Member | DialectResource::RecoveryUri => {
                DialectMethods::GetPut
            }
            DialectResource::Actions
            | DialectResource::Status
            | DialectResource::Recovery
            | DialectResource::Failed
            | DialectResource::NestedStatus => DialectMethods::Get,
            DialectResource::Close
            | DialectResource::Cancel
            | DialectResource::Remove
            | DialectResource::Renew
            | DialectResource::NestedComplete
            | DialectResource::NestedCompensate
            | DialectResource::NestedForget => DialectMethods::Put,
        }
    }
}

impl DialectOperation {
    /// All operations, in the order in which docs/use/narayana.md lists them.
    pub const ALL: [DialectOperation; 19] = [
        DialectOperation::Start,
        DialectOperation::List,
        DialectOperation::Details,
        DialectOperation::Join,
        DialectOperation::Close,
        DialectOperation::Cancel,
        DialectOperation::Leave,
        DialectOperation::Renew,
        DialectOperation::Status,
        DialectOperation::Recovering,
        DialectOperation::Failed,
        DialectOperation::Links,
        DialectOperation::Move,
        DialectOperation::LinksByUri,
        DialectOperation::MoveByUri,
        DialectOperation::NestedStatus,
        DialectOperation::NestedComplete,
        DialectOperation::NestedCompensate,
        DialectOperation::NestedForget,
    ];

    /// Returns the resource that the operation's path names.
    pub fn resource(self) -> DialectResource
        ensures { result ≡ spec.named_resource self }
    {
        match self {
            DialectOperation::Start => DialectResource::Start,
            DialectOperation::List => DialectResource::Actions,
            DialectOperation::Details | DialectOperation::Join => DialectResource::Action,
            DialectOperation::Close => DialectResource::Close,
            DialectOperation::Cancel => DialectResource::Cancel,
            DialectOperation::Leave => DialectResource::Remove,
            DialectOperation::Renew => DialectResource::Renew,
            DialectOperation::Status => DialectResource::Status,
            DialectOperation::Recovering => DialectResource::Recovery,
            DialectOperation::Failed => DialectResource::Failed,
            DialectOperation::Links | DialectOperation::Move => DialectResource::Member,
            DialectOperation::LinksByUri | DialectOperation::MoveByUri => {
                DialectResource::RecoveryUri
            }
            DialectOperation::NestedStatus => DialectResource::NestedStatus,
            DialectOperation::NestedComplete => DialectResource::NestedComplete,
            DialectOperation::NestedCompensate => DialectResource::NestedCompensate,
            DialectOperation::NestedForget => DialectResource::NestedForget,
        }
    }

    /// Returns the operation's path, with `{id}` in place of the ID.
    pub fn path(self) -> &'static str
        ensures { result.now ≡ spec.path self }
    {
        self.resource().path()
    }

    /// Returns the operation's method.
    pub fn method(self) -> &'static str
        ensures { result.now ≡ spec.method self }
    {
        match self {
            DialectOperation::Start => "POST",
            DialectOperation::List
            | DialectOperation::Details
            | DialectOperation::Status
            | DialectOperation::Recovering
            | DialectOperation::Failed
            | DialectOperation::Links
            | DialectOperation::LinksByUri
            | DialectOperation::NestedStatus => "GET",
            DialectOperation::Join
            | DialectOperation::Close
            | DialectOperation::Cancel
            | DialectOperation::Leave
            | DialectOperation::Renew
            | DialectOperation::Move
            | DialectOperation::MoveByUri
            | DialectOperation::NestedComplete
            | DialectOperation::NestedCompensate
            | DialectOperation::NestedForget => "PUT",
        }
    }

    /// Returns whether the operation takes a word in its query.
    pub fn takes(self, word: &[u8]) -> bool
        ensures { result ≡ spec.takes self word.now }
    {
        match self {
            DialectOperation::Start => {
                word == "ClientID".as_bytes()
                    || word == "TimeLimit".as_bytes()
                    || word == "ParentLRA".as_bytes()
            }
            DialectOperation::Join | DialectOperation::Renew => word == "TimeLimit".as_bytes(),
            DialectOperation::List => word == "Status".as_bytes(),
            _ => false,
        }
    }

    /// Returns a sentence that says what the operation does.
    pub fn summary(self) -> &'static str
        ensures { result.now ≡ spec.summary self }
    {
        match self {
            DialectOperation::Start => "Starts an action, at the top or nested in another",
            DialectOperation::List => "Lists actions",
            DialectOperation::Details => "Returns an action's details",
            DialectOperation::Join => "Lets a member join an action",
            DialectOperation::Close => "Closes an action, so that its members complete",
            DialectOperation::Cancel => "Cancels an action, so that its members compensate",
            DialectOperation::Leave => "Lets a member leave its action",
            DialectOperation::Renew => "Sets an action's limit anew, from now",
            DialectOperation::Status => "Returns an action's status",
            DialectOperation::Recovering => "Lists the actions that are ending",
            DialectOperation::Failed => "Lists the actions that failed",
            DialectOperation::Links => "Returns a member's links",
            DialectOperation::Move => "Moves a member to other links",
            DialectOperation::LinksByUri => "Returns a member's links, by its recovery URI",
            DialectOperation::MoveByUri => "Moves a member to other links, by its recovery URI",
            DialectOperation::NestedStatus => "Returns a nested action's status as a member's",
            DialectOperation::NestedComplete => "Completes a nested action as a member",
            DialectOperation::NestedCompensate => "Compensates a nested action as a member",
            DialectOperation::NestedForget => "Forgets a nested action as a member",
        }
    }

    /// Returns the status codes of the replies where the operation is done.
    pub fn success(self) -> &'static [u16]
        ensures { result.now ≡ spec.success self }
    {
        match self {
            DialectOperation::Start => &[201],
            DialectOperation::List
            | DialectOperation::Details
            | DialectOperation::Recovering
            | DialectOperation::Failed
            | DialectOperation::Links
            | DialectOperation::Move
            | DialectOperation::LinksByUri
            | DialectOperation::MoveByUri
            | DialectOperation::NestedStatus
            | DialectOperation::NestedComplete
            | DialectOperation::NestedCompensate
            | DialectOperation::NestedForget => &[],
            DialectOperation::Join
            | DialectOperation::Leave
            | DialectOperation::Renew
            | DialectOperation::Status => &[200],
            DialectOperation::Close | DialectOperation::Cancel => &[200, 202],
        }
    }

    /// Returns the status codes by which a request for the operation is refused once it was read, admitted and routed.
    pub fn refusals(self) -> &'static [u16]
        ensures { result.now ≡ spec.refusals self }
    {
        match self {
            DialectOperation::Start | DialectOperation::Renew => &[
                400, 404, 409, 412, 417, 500, 503,
            ],
            DialectOperation::List
            | DialectOperation::Details
            | DialectOperation::Recovering
            | DialectOperation::Failed
            | DialectOperation::Links
            | DialectOperation::Move
            | DialectOperation::LinksByUri
            | DialectOperation::MoveByUri
            | DialectOperation::NestedStatus
            | DialectOperation::NestedComplete
            | DialectOperation::NestedCompensate
            | DialectOperation::NestedForget => &[400, 417, 501],
            DialectOperation::Join | DialectOperation::Close | DialectOperation::Cancel => &[
                400, 404, 412, 417, 500, 503,
            ],
            DialectOperation::Leave => &[400, 404, 412, 417, 500, 501, 503],
            DialectOperation::Status => &[400, 404, 417, 500, 503],
        }
    }

    /// Returns whether a method asks for the operation at a resource.
    fn is_asked(self, method: &str, resource: DialectResource) -> bool
        ensures { result ≡ spec.is_asked method.now resource self }
    {
        self.path() == resource.path() && method == self.method()
    }
}
