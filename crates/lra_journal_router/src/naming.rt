//! The instance that a request names.

ghost use Rattle.std.specs.Prelude.{◌≡◌, IfOk, OnErr, Ok};
ghost use Rattle.serde_json.specs.Find.{as_object};
ghost use Rattle.serde_json.specs.View.{view};
ghost use Rattle.lra_front.specs.ApiRequests.{LacksMemory};
ghost use Rattle.lra_front.specs.Routes.{operation_of};
ghost use Rattle.lra_journal_router.specs.Naming as spec;

use lra_front::{Operation, RoutedRequest, id_in};
use lra_ids::{instance_at_end, instance_in};
use lra_model::{Instance, Memory};
use serde_json::Value;

/// Returns the instance of the parent that a body names.
fn parent_under(body: &Value) -> Option<Instance>
    ensures { result ≡ spec.parent_of (as_object (view body.now)) }
{
    instance_at_end(body.get("parent")?.as_str()?.as_bytes())
}

/// Returns the instance of the parent that the body of a start names.
fn parent_in(request: &RoutedRequest<'_>) -> Result<Option<Instance>, Memory>
    requires { operation_of request.now.method request.now.target ≡ Ok Operation.Start }
    ensures { IfOk result (λ parent. parent ≡ spec.parent_in request.now.body) }
{
    match request.body() {
        Ok(Some(body)) => Ok(parent_under(body)),
        Ok(None) => Ok(None),
        Err(Memory) => Err(Memory),
    }
}

/// Returns the instance that a request names at the operation that was found.
fn named_at(operation: Operation, request: &RoutedRequest<'_>) -> Result<Option<Instance>, Memory>
    requires { operation_of request.now.method request.now.target ≡ Ok operation }
    ensures ok { IfOk result (λ named. named ≡ spec.named_at request.now operation) }
    ensures err { OnErr result (operation ≡ Operation.Start) }
{
    if operation == Operation::Start {
        return parent_in(request);
    }
    Ok(instance_in(id_in(request.request().target.as_str()).as_bytes()))
}

/// Returns the instance that a request names: by the identifier in its path, or by the parent in the body of a start,
/// for which memory may have been refused.
pub fn instance_of(request: &RoutedRequest<'_>) -> Result<Option<Instance>, Memory>
    ensures ok { IfOk result (λ named. named ≡ spec.instance_of request.now) }
    ensures err { OnErr result (LacksMemory request.now) }
{
    match request.operation() {
        Ok(operation) => named_at(operation, request),
        Err(_) => Ok(None),
    }
}
