//! Starts that give no limit, and mean the default limit.

ghost use Rattle.std.specs.Prelude.{◌≡◌, IsTrue, IfOk, IfSome};
ghost use Rattle.serde_json.specs.View.{view};
ghost use Rattle.lra_rewrite.specs.Limits as spec;
ghost use Rattle.lra_rewrite.specs.Requests.{MeansParts};
ghost use Rattle.lra_rewrite.specs.inner.Limited.{lacks_limit};
ghost use Rattle.lra_rewrite.specs.inner.Made.{IsMade, meant_by};

use crate::requests::{Meant, meant_with};
use lra_front::{Operation, RoutedRequest};
use lra_model::Memory;
use serde_json::Value;
use std::alloc::Global;

/// Returns whether a request is a start, and there is a default limit.
pub(crate) fn may_mean(limit: u64, request: &RoutedRequest<'_>) -> bool
    ensures { result ≡ spec.may_mean limit request.now }
{
    limit != 0 && matches!(request.operation(), Ok(Operation::Start))
}

/// Returns whether a value is an object that gives no limit.
fn lacks_limit(value: &Value) -> bool
    ensures { result ≡ lacks_limit (view value.now) }
{
    value.is_object() && value.get("limit").is_none()
}

/// Returns the start that a start means under a default limit, if that isn't itself.
pub(crate) fn limited_request(
    alloc: Global,
    limit: u64,
    start: &RoutedRequest<'_>,
) -> Result<Option<Meant>, Memory>
    requires { IsTrue (spec.may_mean limit start.now) }
    ensures ok { IfOk result (λ other. MeansParts start.now.target (spec.limited_at limit start.now.body) start.now
        (meant_by start.now other)) }
    ensures made { IfOk result (λ other. IfSome other (IsMade start.now)) }
{
    let Some(value) = start.body()? else {
        return Ok(None);
    };
    if !lacks_limit(value) {
        return Ok(None);
    }
    let meant = meant_with(alloc, start, value, "limit", Value::from(limit))?;
    Ok(Some(meant))
}
