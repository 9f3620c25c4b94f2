//! The request of the coordinator's own interface that a request of the dialect means.

ghost use Rattle.std.specs.Prelude.{◌≡◌, ◌≤◌, ◌++◌, codes, unwrap_or, option_map, string_bytes, IfOk, OnOk, Some};
ghost use Rattle.serde_json.specs.Data.{object, depth, put as put_member, string, number, unsigned, no_members};
ghost use Rattle.serde_json.specs.Read.{max_depth};
ghost use Rattle.serde_json.specs.View.{members_view};
ghost use Rattle.lra_wire.specs.Request.{request_of};
ghost use Rattle.lra_front.specs.Bodies.{object_in};
ghost use Rattle.lra_narayana.specs.Meant as spec;
ghost use Rattle.lra_narayana.specs.Queries.{limit_in, parent_in};

use crate::asked::links_of;
use crate::links::{Relation, begins_links, uri_of};
use crate::operation::DialectOperation;
use crate::query::{decoded, limit_in, parent_in};
use crate::texts::{after_mark, before_mark, last_part, text_of};
use lra_front::id_in;
use lra_model::Memory;
use lra_wire::RequestRead;
use serde_json::Value;
use serde_json::value::Map;
use std::alloc::Global;

/// Returns the method of the own request.
fn own_method(operation: DialectOperation) -> &'static str
    ensures { result.now ≡ spec.own_method operation }
{
    match operation {
        DialectOperation::Start => "POST",
        DialectOperation::Status => "GET",
        _ => "PUT",
    }
}

/// Returns the last piece of its path.
fn suffix(operation: DialectOperation) -> &'static str
    ensures { result.now ≡ spec.suffix operation }
{
    match operation {
        DialectOperation::Close => "/close",
        DialectOperation::Cancel => "/cancel",
        DialectOperation::Leave => "/remove",
        DialectOperation::Renew => "/renew",
        _ => "",
    }
}

/// Makes a text of three parts.
fn joined(alloc: Global, front: &str, middle: &str, back: &str) -> Result<String, Memory>
    ensures { IfOk result (λ text. string_bytes text ≡ front.now ++ middle.now ++ back.now) }
{
    let mut text = String::from_str(alloc, front)?;
    text.push_str(middle)?;
    text.push_str(back)?;
    Ok(text)
}

/// Makes the target of an action with the ID in a target of the dialect.
#[tactic(auto, unfolding(crate::specs::Meant::id_of))]
fn target_of(
    alloc: Global,
    base: &str,
    operation: DialectOperation,
    target: &str,
) -> Result<String, Memory>
    ensures { IfOk result (λ text. string_bytes text
        ≡ codes "/lra-coordinator/" ++ spec.id_of base.now target.now ++ spec.suffix operation) }
{
    let id = decoded(alloc, id_in(before_mark(target)).as_bytes())?;
    joined(
        alloc,
        "/lra-coordinator/",
        last_part(base, id.as_str()),
        suffix(operation),
    )
}

/// Makes the target of the own request.
#[tactic(auto, unfolding(crate::specs::Meant::own_target))]
fn own_target(
    alloc: Global,
    base: &str,
    operation: DialectOperation,
    target: &str,
) -> Result<String, Memory>
    ensures { IfOk result (λ text. string_bytes text ≡ spec.own_target base.now operation target.now) }
{
    match operation {
        DialectOperation::Start => String::from_str(alloc, "/lra-coordinator"),
        _ => target_of(alloc, base, operation, target),
    }
}

/// Puts a text under a key.
fn put_text(
    alloc: Global,
    members: &mut Map<String, Value>,
    key: &str,
    text: &str,
) -> Result<(), Memory>
    ensures { OnOk result (members_view members.new.entries
        ≡ put_member key.now (string text.now) (members_view members.old.entries)) }
{
    let value = Value::try_from_str(alloc, text)?;
    serde_json::put(members, alloc, key, value)
}

/// Puts a text under a key, if there is one.
fn put_some(
    alloc: Global,
    members: &mut Map<String, Value>,
    key: &str,
    text: Option<&str>,
) -> Result<(), Memory>
    ensures { OnOk result (members_view members.new.entries
        ≡ spec.put_some key.now (option_map (λ text. text.now) text.entry) (members_view members.old.entries)) }
{
    match text {
        Some(text) => put_text(alloc, members, key, text),
        None => Ok(()),
    }
}

/// Puts a limit under its key.
fn put_number(alloc: Global, members: &mut Map<String, Value>, limit: u64) -> Result<(), Memory>
    ensures { OnOk result (members_view members.new.entries
        ≡ put_member (codes "limit") (number (unsigned limit)) (members_view members.old.entries)) }
{
    serde_json::put(members, alloc, "limit", Value::from(limit))
}

/// Puts a limit under its key, if it is one.
fn put_limit(alloc: Global, members: &mut Map<String, Value>, limit: u64) -> Result<(), Memory>
    ensures { OnOk result (members_view members.new.entries
        ≡ spec.put_limit limit (members_view members.old.entries)) }
{
    if limit == 0 {
        return Ok(());
    }
    put_number(alloc, members, limit)
}

/// Returns the key of an address.
fn key_of(relation: Relation) -> &'static str
    ensures { result.now ≡ spec.key_of relation }
{
    match relation {
        Relation::Compensate => "compensate",
        Relation::Complete => "complete",
        Relation::Status => "status",
        Relation::Forget => "forget",
        Relation::Leave => "leave",
        Relation::After => "after",
    }
}

/// Puts the address that a member's links give for a relation.
fn put_uri(
    alloc: Global,
    members: &mut Map<String, Value>,
    links: &str,
    relation: Relation,
) -> Result<(), Memory>
    ensures { OnOk result (members_view members.new.entries
        ≡ spec.put_uri links.now relation (members_view members.old.entries)) }
{
    put_some(alloc, members, key_of(relation), uri_of(relation, links))
}

/// Puts the addresses that links give.
#[tactic(auto, unfolding(crate::specs::Meant::linked))]
fn put_linked(alloc: Global, members: &mut Map<String, Value>, links: &str) -> Result<(), Memory>
    requires { members_view members.old.entries ≡ no_members }
    ensures { OnOk result (members_view members.new.entries ≡ spec.linked links.now) }
{
    put_uri(alloc, members, links, Relation::Compensate)?;
    put_uri(alloc, members, links, Relation::Complete)?;
    put_uri(alloc, members, links, Relation::Status)?;
    put_uri(alloc, members, links, Relation::Forget)?;
    put_uri(alloc, members, links, Relation::After)
}

/// Puts the addresses of a member at one URI.
#[tactic(auto, unfolding(crate::specs::Meant::located))]
fn put_located(alloc: Global, members: &mut Map<String, Value>, uri: &str) -> Result<(), Memory>
    requires { members_view members.old.entries ≡ no_members }
    ensures { OnOk result (members_view members.new.entries ≡ spec.located uri.now) }
{
    let compensate = joined(alloc, uri, "/compensate", "")?;
    put_text(alloc, members, "compensate", compensate.as_str())?;
    let complete = joined(alloc, uri, "/complete", "")?;
    put_text(alloc, members, "complete", complete.as_str())?;
    put_text(alloc, members, "status", uri)?;
    put_text(alloc, members, "forget", uri)
}

/// Puts the addresses that a text tells.
#[tactic(auto, unfolding(crate::specs::Meant::addresses_in))]
fn put_addresses(alloc: Global, members: &mut Map<String, Value>, text: &str) -> Result<(), Memory>
    requires { members_view members.old.entries ≡ no_members }
    ensures { OnOk result (members_view members.new.entries ≡ spec.addresses_in text.now) }
{
    if begins_links(text) {
        put_linked(alloc, members, text)
    } else {
        put_located(alloc, members, text)
    }
}

/// Puts the parent that a query names, if it names one.
fn put_parent(alloc: Global, members: &mut Map<String, Value>, query: &[u8]) -> Result<(), Memory>
    ensures { OnOk result (members_view members.new.entries
        ≡ spec.put_some (codes "parent") (parent_in query.now) (members_view members.old.entries)) }
{
    match parent_in(alloc, query)? {
        Some(parent) => put_text(alloc, members, "parent", parent.as_str()),
        None => Ok(()),
    }
}

/// Puts the members of a start's body.
fn put_start(alloc: Global, members: &mut Map<String, Value>, query: &[u8]) -> Result<(), Memory>
    ensures { OnOk result (members_view members.new.entries ≡ spec.put_some (codes "parent") (parent_in query.now)
        (spec.put_limit (unwrap_or (limit_in query.now) 0) (members_view members.old.entries))) }
{
    put_limit(alloc, members, limit_in(query).unwrap_or(0))?;
    put_parent(alloc, members, query)
}

/// Puts the members of the own request's body.
#[tactic(auto, unfolding(crate::specs::Meant::own_members))]
fn put_members(
    alloc: Global,
    members: &mut Map<String, Value>,
    operation: DialectOperation,
    query: &[u8],
    request: &RequestRead,
) -> Result<(), Memory>
    requires { members_view members.old.entries ≡ no_members }
    ensures { OnOk result (members_view members.new.entries
        ≡ spec.own_members operation query.now (request_of request.now)) }
{
    match operation {
        DialectOperation::Start => put_start(alloc, members, query),
        DialectOperation::Renew => put_number(alloc, members, limit_in(query).unwrap_or(0)),
        DialectOperation::Join => put_addresses(alloc, members, links_of(request)),
        DialectOperation::Leave => put_text(
            alloc,
            members,
            "recovery",
            text_of(request.body.as_slice()),
        ),
        _ => Ok(()),
    }
}

/// Makes the body of the own request.
fn own_body(
    alloc: Global,
    operation: DialectOperation,
    query: &[u8],
    request: &RequestRead,
) -> Result<String, Memory>
    ensures { IfOk result (λ body.
        depth (object (spec.own_members operation query.now (request_of request.now))) ≤ max_depth
        → object_in (string_bytes body) ≡ Some (spec.own_members operation query.now (request_of request.now))) }
{
    let mut members = Map::new(alloc);
    put_members(alloc, &mut members, operation, query, request)?;
    body_of(alloc, members)
}

/// Makes the text of an object.
fn body_of(alloc: Global, members: Map<String, Value>) -> Result<String, Memory>
    ensures { IfOk result (λ body. depth (object (members_view members.entries)) ≤ max_depth
        → object_in (string_bytes body) ≡ Some (members_view members.entries)) }
{
    let value = Value::Object(members);
    let text = value.to_string(alloc)?;
    Ok(text)
}

/// Makes the own request that a request with that target means, for the operation that was found.
pub fn own_request(
    alloc: Global,
    base: &str,
    operation: DialectOperation,
    target: &str,
    request: &RequestRead,
) -> Result<RequestRead, Memory>
    ensures { IfOk result (λ own.
        spec.IsOwn base.now target.now operation (request_of request.now) (request_of own)) }
{
    let body = own_body(alloc, operation, after_mark(target).as_bytes(), request)?;
    Ok(RequestRead {
        method: String::from_str(alloc, own_method(operation))?,
        target: own_target(alloc, base, operation, target)?,
        minor: request.minor,
        close: request.close,
        body: body.into_bytes(),
        fields: request.fields.copy(alloc)?,
    })
}
