//! Why a request of the dialect isn't taken.

ghost use Rattle.std.specs.Prelude.{◌≡◌};
ghost use Rattle.lra_wire.specs.Request.{request_of};
ghost use Rattle.lra_narayana.specs.Meant as spec;

use crate::links::{begins_links, is_links};
use crate::operation::DialectOperation;
use crate::query::{has_other_version, limit_in, takes_all};
use crate::texts::text_of;
use lra_front::DialectRefusal;
use lra_wire::RequestRead;

/// Returns the links of a join.
#[tactic(auto, unfolding(crate::specs::Meant::links_of))]
pub(crate) fn links_of(request: &RequestRead) -> &str
    ensures { result.now ≡ spec.links_of (request_of request.now) }
{
    match &request.fields.link {
        Some(link) => text_of(link.as_slice()),
        None => text_of(request.body.as_slice()),
    }
}

/// Returns whether a body is beside the links of a field, and isn't the same.
#[tactic(auto, unfolding(crate::specs::Meant::is_beside))]
fn is_beside(body: &[u8], link: &[u8]) -> bool
    ensures { result ≡ spec.is_beside body.now link.now }
{
    !body.is_empty() && body != link
}

/// Returns whether a join brings data of the member's own.
#[tactic(auto, unfolding(crate::specs::Meant::brings_data))]
fn brings_data(request: &RequestRead) -> bool
    ensures { result ≡ spec.brings_data (request_of request.now) }
{
    if request.fields.has_data {
        return true;
    }
    match &request.fields.link {
        Some(link) => is_beside(request.body.as_slice(), link.as_slice()),
        None => false,
    }
}

/// Returns whether a text tells where a member is.
#[tactic(auto, unfolding(crate::specs::Meant::is_told))]
fn is_told(text: &str) -> bool
    ensures { result ≡ spec.is_told text.now }
{
    if begins_links(text) {
        is_links(text)
    } else {
        !text.is_empty()
    }
}

/// Returns why a limit isn't taken.
fn limit_refusal(limit: Option<u64>) -> Option<DialectRefusal>
    ensures { result ≡ spec.limit_refusal limit }
{
    match limit {
        Some(_) => None,
        None => Some(DialectRefusal::BadQuery),
    }
}

/// Returns why a join's limit isn't taken.
fn join_limit_refusal(limit: Option<u64>) -> Option<DialectRefusal>
    ensures { result ≡ spec.join_limit_refusal limit }
{
    match limit {
        Some(limit) => {
            if limit == 0 {
                None
            } else {
                Some(DialectRefusal::MemberLimit)
            }
        }
        None => Some(DialectRefusal::BadQuery),
    }
}

/// Returns why what a join brings isn't taken.
#[tactic(auto, unfolding(crate::specs::Meant::join_body_refusal))]
fn join_body_refusal(request: &RequestRead) -> Option<DialectRefusal>
    ensures { result ≡ spec.join_body_refusal (request_of request.now) }
{
    if brings_data(request) {
        return Some(DialectRefusal::MemberData);
    }
    if is_told(links_of(request)) {
        None
    } else {
        Some(DialectRefusal::BadLinks)
    }
}

/// Returns why a join isn't taken.
#[tactic(auto, unfolding(crate::specs::Meant::operation_refusal))]
fn join_refusal(query: &[u8], request: &RequestRead) -> Option<DialectRefusal>
    ensures { result ≡ spec.operation_refusal DialectOperation.Join query.now (request_of request.now) }
{
    match join_limit_refusal(limit_in(query)) {
        Some(refusal) => Some(refusal),
        None => join_body_refusal(request),
    }
}

/// Returns why a leave isn't taken.
#[tactic(auto, unfolding(crate::specs::Meant::leave_refusal))]
fn leave_refusal(request: &RequestRead) -> Option<DialectRefusal>
    ensures { result ≡ spec.leave_refusal (request_of request.now) }
{
    if begins_links(text_of(request.body.as_slice())) {
        Some(DialectRefusal::LeaveByLinks)
    } else {
        None
    }
}

/// Returns why an operation isn't asked for by a request with that query.
#[tactic(auto, unfolding(crate::specs::Meant::operation_refusal))]
fn operation_refusal(
    operation: DialectOperation,
    query: &[u8],
    request: &RequestRead,
) -> Option<DialectRefusal>
    ensures { result ≡ spec.operation_refusal operation query.now (request_of request.now) }
{
    match operation {
        DialectOperation::Start => limit_refusal(limit_in(query)),
        DialectOperation::Renew => limit_refusal(limit_in(query)),
        DialectOperation::Join => join_refusal(query, request),
        DialectOperation::Leave => leave_refusal(request),
        DialectOperation::Close => None,
        DialectOperation::Cancel => None,
        DialectOperation::Status => None,
        DialectOperation::List => Some(DialectRefusal::Lists),
        DialectOperation::Details => Some(DialectRefusal::Lists),
        DialectOperation::Recovering => Some(DialectRefusal::Lists),
        DialectOperation::Failed => Some(DialectRefusal::Lists),
        DialectOperation::Links => Some(DialectRefusal::MemberLinks),
        DialectOperation::LinksByUri => Some(DialectRefusal::MemberLinks),
        DialectOperation::Move => Some(DialectRefusal::Moves),
        DialectOperation::MoveByUri => Some(DialectRefusal::Moves),
        DialectOperation::NestedStatus => Some(DialectRefusal::Nested),
        DialectOperation::NestedComplete => Some(DialectRefusal::Nested),
        DialectOperation::NestedCompensate => Some(DialectRefusal::Nested),
        DialectOperation::NestedForget => Some(DialectRefusal::Nested),
    }
}

/// Returns why a request for an operation, with that query, isn't taken.
#[tactic(auto, unfolding(crate::specs::Meant::refusal_of))]
pub fn refusal_of(
    operation: DialectOperation,
    query: &[u8],
    request: &RequestRead,
) -> Option<DialectRefusal>
    ensures { result ≡ spec.refusal_of operation query.now (request_of request.now) }
{
    if has_other_version(&request.fields) {
        return Some(DialectRefusal::BadVersion);
    }
    if takes_all(operation, query) {
        operation_refusal(operation, query, request)
    } else {
        Some(DialectRefusal::BadQuery)
    }
}
