//! API requests: what a request asks of the coordinator, and how it is read.

ghost use Rattle.std.specs.Prelude.{◌≡◌, IsTrue, IfSome, IfOk, Ok, option_map};
ghost use Rattle.serde_json.specs.Find.{as_object};
ghost use Rattle.serde_json.specs.View.{view};
ghost use Rattle.lra_model.specs.Addresses.{text_of};
ghost use Rattle.lra_ids.specs.Identifiers.{id_text, action_uri, recovery_uri};
ghost use Rattle.lra_front.specs.Bodies.{addresses_given};
ghost use Rattle.lra_front.specs.ApiRequests as spec;
ghost use Rattle.lra_front.specs.inner.Finds.{IsFound, is_of_action, is_of_member, OrMemory};

use crate::api_error::ApiError;
use crate::body::{ending_told, number_under, text_under};
use crate::operation::Operation;
use crate::route::id_in;
use crate::routed_request::RoutedRequest;
use lra_commands::{Order, Refusal};
use lra_ids::{Base, Instance, read_id};
use lra_model::{Ending, Memory, Uris};
use serde_json::Value;
use std::alloc::Global;

/// API request: what a request asks of the coordinator.
#[derive(Debug, Drop)]
pub enum ApiRequest {
    /// Start of an action. The limit is in milliseconds, and 0 means none.
    Start { parent: Option<u64>, limit: u64 },
    /// Joining of a member to an action.
    Join { action: u64, uris: Uris },
    /// Leaving of a member from its action.
    Leave { action: u64, member: u64 },
    /// Close of an action.
    Close { action: u64 },
    /// Cancellation of an action.
    Cancel { action: u64 },
    /// Renewal of an action's limit, in milliseconds from now.
    Renew { action: u64, limit: u64 },
    /// Query of an action's status.
    Status { action: u64 },
    /// Report of a member on its own end.
    Report { member: u64, ending: Ending },
    /// Query of a member's status.
    MemberStatus { member: u64 },
}

impl ApiRequest {
    /// Returns the order that the coordinator is given for the API request.
    pub fn order(&self) -> Order<'_>
        ensures { spec.IsOrder self.now result }
    {
        match self {
            ApiRequest::Start { parent, limit } => Order::Start {
                parent: *parent,
                limit: *limit,
            },
            ApiRequest::Join { action, uris } => Order::Join {
                action: *action,
                uris,
            },
            ApiRequest::Leave { action, member } => Order::Leave {
                action: *action,
                member: *member,
            },
            ApiRequest::Close { action } => Order::Close { action: *action },
            ApiRequest::Cancel { action } => Order::Cancel { action: *action },
            ApiRequest::Renew { action, limit } => Order::Renew {
                action: *action,
                limit: *limit,
            },
            ApiRequest::Status { action } => Order::Status { action: *action },
            ApiRequest::Report { member, ending } => Order::Report {
                member: *member,
                ending: *ending,
            },
            ApiRequest::MemberStatus { member } => Order::MemberStatus { member: *member },
        }
    }
}

/// Returns the action of a path's ID, or `NoSuchAction`.
fn find_action(id: &str, instance: Instance) -> Result<u64, ApiError>
    ensures { IsFound (id_text instance) id.now spec.no_action result }
{
    match read_id(id, instance) {
        Some(action) => Ok(action),
        None => Err(ApiError::Refused(Refusal::NoSuchAction)),
    }
}

/// Returns the member of a path's ID, or `NoSuchMember`.
fn find_member(id: &str, instance: Instance) -> Result<u64, ApiError>
    ensures { IsFound (id_text instance) id.now spec.no_member result }
{
    match read_id(id, instance) {
        Some(member) => Ok(member),
        None => Err(ApiError::Refused(Refusal::NoSuchMember)),
    }
}

/// Copies a text, if there is one.
fn owned(alloc: Global, text: Option<&str>) -> Result<Option<String>, Memory>
    ensures { IfOk result (λ copy. text_of copy ≡ option_map (λ t. t.now) text.entry) }
{
    match text {
        Some(text) => Ok(Some(String::from_str(alloc, text)?)),
        None => Ok(None),
    }
}

/// Copies the addresses that a member gives in a body.
fn uris_in(alloc: Global, body: &Value) -> Result<Uris, Memory>
    ensures { IfSome (as_object (view body.now)) (λ members. IfOk result (λ uris. uris ≡ addresses_given members)) }
{
    Ok(Uris {
        compensate: owned(alloc, text_under(body, "compensate"))?,
        complete: owned(alloc, text_under(body, "complete"))?,
        status: owned(alloc, text_under(body, "status"))?,
        forget: owned(alloc, text_under(body, "forget"))?,
        after: owned(alloc, text_under(body, "after"))?,
    })
}

/// Returns the limit in a body, or 0 where it has none.
fn limit_in(body: &Value) -> u64
    ensures { IfSome (as_object (view body.now)) (λ members. result ≡ spec.limit_in members) }
{
    number_under(body, "limit").unwrap_or(0)
}

/// Returns the end that a body names. A body that fits the operation names one.
fn ending_in(body: &Value) -> Ending
    ensures { IfSome (as_object (view body.now)) (λ members. result ≡ spec.ending_in members) }
{
    ending_told(body).unwrap_or(Ending::Completed)
}

/// Returns the start of an action: at the top, or under the parent whose URI the body has.
fn start(instance: Instance, base: &Base, body: &Value) -> Result<ApiRequest, ApiError>
    ensures { IfSome (as_object (view body.now)) (λ members. spec.IsStart instance base.now members result) }
{
    let limit = limit_in(body);
    let Some(uri) = text_under(body, "parent") else {
        return Ok(ApiRequest::Start {
            parent: None,
            limit,
        });
    };
    match base.read_action(uri, instance) {
        Some(parent) => Ok(ApiRequest::Start {
            parent: Some(parent),
            limit,
        }),
        None => Err(ApiError::Refused(Refusal::NoSuchAction)),
    }
}

/// Returns the leaving of the member whose recovery URI the body has.
fn leave(instance: Instance, base: &Base, action: u64, body: &Value) -> Result<ApiRequest, ApiError>
    ensures { IfSome (as_object (view body.now)) (λ members. spec.IsOfAction instance base.now members Operation.Remove
        action result) }
{
    let uri = text_under(body, "recovery").unwrap_or("");
    match base.read_recovery(uri, instance) {
        Some(member) => Ok(ApiRequest::Leave { action, member }),
        None => Err(ApiError::Refused(Refusal::NoSuchMember)),
    }
}

impl Operation {
    /// Returns the API request that the operation makes of an action.
    fn of_action(
        self,
        alloc: Global,
        instance: Instance,
        base: &Base,
        action: u64,
        body: &Value,
    ) -> Result<ApiRequest, ApiError>
        requires { IsTrue (is_of_action self) }
        ensures { IfSome (as_object (view body.now)) (λ members. OrMemory self
            (spec.IsOfAction instance base.now members self action) result) }
    {
        match self {
            Operation::Status => Ok(ApiRequest::Status { action }),
            Operation::Join => match uris_in(alloc, body) {
                Ok(uris) => Ok(ApiRequest::Join { action, uris }),
                Err(_) => Err(ApiError::Refused(Refusal::Memory)),
            },
            Operation::Close => Ok(ApiRequest::Close { action }),
            Operation::Cancel => Ok(ApiRequest::Cancel { action }),
            Operation::Renew => Ok(ApiRequest::Renew {
                action,
                limit: limit_in(body),
            }),
            Operation::Remove => leave(instance, base, action, body),
            Operation::Start | Operation::MemberStatus | Operation::Report => unreachable!(),
        }
    }

    /// Returns the API request that the operation makes of a member.
    fn of_member(self, member: u64, body: &Value) -> ApiRequest
        requires { IsTrue (is_of_member self) }
        ensures { IfSome (as_object (view body.now)) (λ members. spec.IsOfMember members self member (Ok result)) }
    {
        match self {
            Operation::Report => ApiRequest::Report {
                member,
                ending: ending_in(body),
            },
            _ => ApiRequest::MemberStatus { member },
        }
    }

    /// Returns the API request that the operation makes at a path with that ID.
    fn api_request(
        self,
        alloc: Global,
        instance: Instance,
        base: &Base,
        id: &str,
        body: &Value,
    ) -> Result<ApiRequest, ApiError>
        ensures { IfSome (as_object (view body.now)) (λ members. OrMemory self
            (spec.IsApiRequest instance base.now id.now members self) result) }
    {
        match self {
            Operation::Start => start(instance, base, body),
            Operation::MemberStatus | Operation::Report => match find_member(id, instance) {
                Ok(member) => Ok(self.of_member(member, body)),
                Err(unread) => Err(unread),
            },
            _ => match find_action(id, instance) {
                Ok(action) => self.of_action(alloc, instance, base, action, body),
                Err(api_error) => Err(api_error),
            },
        }
    }
}

/// Returns the API request of a request, or why there is none.
pub(crate) fn read_request(
    alloc: Global,
    instance: Instance,
    base: &Base,
    request: &RoutedRequest<'_>,
) -> Result<ApiRequest, ApiError>
    ensures { spec.MayAsk instance base.now request.now result }
{
    let operation = request.operation()?;
    let body = request.fitting_body(operation)?;
    let id = id_in(request.request().target.as_str());
    operation.api_request(alloc, instance, base, id, body)
}
