//! The answers to own requests, as the dialect tells them.

ghost use Rattle.std.specs.Prelude.{◌≡◌};
ghost use Rattle.lra_wire.specs.Request.{request_of};
ghost use Rattle.lra_front.specs.Replies.{HasIdentifiers, HasNumber};
ghost use Rattle.lra_narayana.specs.Spelled as spec;

use crate::query::{is_json, version_in};
use lra_commands::Refusal;
use lra_front::{Answer, ApiError, DialectAnswer, DialectRefusal, DialectTold};
use lra_wire::RequestRead;

/// Returns an API error as the dialect knows it: it has no code for a member that has left, or is another action's.
fn renamed(api_error: ApiError) -> ApiError
    ensures { result ≡ spec.renamed api_error }
{
    match api_error {
        ApiError::Refused(Refusal::HasLeft) => ApiError::Refused(Refusal::NoSuchMember),
        ApiError::Refused(Refusal::WrongAction) => ApiError::Refused(Refusal::NoSuchMember),
        _ => api_error,
    }
}

/// Returns what the dialect tells of an answer.
fn told_of(answer: Answer) -> DialectTold
    requires { HasIdentifiers answer }
    ensures told { result ≡ spec.told_of answer }
    ensures numbers { HasNumber result }
{
    match answer {
        Answer::Started(action) => DialectTold::Started(action),
        Answer::Found { action: _, status } => DialectTold::Status(status),
        Answer::Joined(member) => DialectTold::Joined(member),
        Answer::Turned(status) => DialectTold::Turned(status),
        Answer::Left => DialectTold::Done,
        Answer::Renewed => DialectTold::Done,
        Answer::Member(_) => DialectTold::Done,
        Answer::Denied(api_error) => DialectTold::Denied(renamed(api_error)),
        Answer::Retry { refusal, .. } => DialectTold::Denied(renamed(ApiError::Refused(refusal))),
        Answer::Dialect(answer) => answer.told,
    }
}

/// Returns an answer as the dialect tells it to a request.
pub fn spelled(request: &RequestRead, answer: Answer) -> Answer
    requires { HasIdentifiers answer }
    ensures spelled { result ≡ spec.spelled (request_of request.now) answer }
    ensures identifiers { HasIdentifiers result }
{
    Answer::Dialect(DialectAnswer {
        told: told_of(answer),
        is_json: is_json(&request.fields),
        version: version_in(&request.fields),
    })
}

/// Returns the answer to a request that the dialect refuses.
pub fn refused(request: &RequestRead, refusal: DialectRefusal) -> Answer
    ensures refused { result ≡ spec.refused (request_of request.now) refusal }
    ensures identifiers { HasIdentifiers result }
{
    Answer::Dialect(DialectAnswer {
        told: DialectTold::Refused(refusal),
        is_json: is_json(&request.fields),
        version: version_in(&request.fields),
    })
}
