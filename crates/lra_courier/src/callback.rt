//! An errand's request on the wire.

ghost use Rattle.std.specs.Prelude.{◌≡◌, ◌∷◌, [], ◌++◌, length, decimal, option_map, OnOk, IfOk};
ghost use Rattle.lra_ids.specs.Addresses.{authority_of};
ghost use Rattle.lra_courier.specs.Callbacks as spec;
ghost use Rattle.lra_courier.specs.inner.Fields.{seen};

use crate::extra_fields::ExtraFields;
use lra_core::Errand;
use lra_model::{ActionStatus, AskKind, Direction};
use std::alloc::{AllocError, Global};
use std::marker::Model;

/// Contents of an errand to its member, and their direction. A contract sees the texts, and not where they lie in
/// memory.
#[derive(Drop)]
pub struct Callback<'a> {
    pub kind: AskKind,
    pub direction: Direction,
    /// Address at which the member is asked.
    pub address: &'a str,
    /// URI of the member's action.
    pub action_uri: &'a str,
    /// URI of that action's parent, if it has one.
    pub parent_uri: Option<&'a str>,
    /// Member's recovery URI.
    pub recovery_uri: &'a str,
    /// Status in which the action ended, at an after notice.
    pub ended: Option<ActionStatus>,
    /// Fields of the request besides these.
    pub extra: ExtraFields<'a>,
}

impl<'a> Model for Callback<'a> {
    ghost use Rattle.std.specs.Prelude.{option_map};
    ghost use Rattle.lra_courier.specs.Callbacks.{Calling, extra_of};

    ghost Value = { Calling };

    ghost view = { λ c. record {
      kind = c.kind;
      direction = c.direction;
      address = c.address.now;
      action_uri = c.action_uri.now;
      parent_uri = option_map (λ uri. uri.now) c.parent_uri;
      recovery_uri = c.recovery_uri.now;
      ended = c.ended;
      extra = extra_of c.extra;
    } };
}

// Returns the name of the field with the action's URI.
fn context_name(kind: AskKind) -> &'static str
    ensures { result.now ≡ spec.context_name kind }
{
    match kind {
        AskKind::After => "Long-Running-Action-Ended",
        _ => "Long-Running-Action",
    }
}

// Returns the method of a request.
pub(crate) fn method_of(kind: AskKind) -> &'static str
    ensures { result.now ≡ spec.method_of kind }
{
    match kind {
        AskKind::Complete | AskKind::Compensate | AskKind::After => "PUT",
        AskKind::Status => "GET",
        AskKind::Forget => "DELETE",
    }
}

// Appends a field.
fn push<'a>(
    fields: &mut Vec<(&'a str, &'a str)>,
    name: &'a str,
    value: &'a str,
) -> Result<(), AllocError>
    ensures { OnOk result (seen fields.new.items ≡ seen fields.old.items ++ (name.now, value.now) ∷ []) }
{
    fields.push((name, value))?;
    Ok(())
}

// Appends the fields that describe the request's body.
fn push_content<'a>(
    fields: &mut Vec<(&'a str, &'a str)>,
    kind: AskKind,
    size: &'a str,
) -> Result<(), AllocError>
    ensures { OnOk result (seen fields.new.items ≡ seen fields.old.items ++ spec.content_fields kind size.now) }
{
    match kind {
        AskKind::Complete => push(fields, "Content-Length", size),
        AskKind::Compensate => push(fields, "Content-Length", size),
        AskKind::After => {
            push(fields, "Content-Type", "text/plain")?;
            push(fields, "Content-Length", size)?;
            Ok(())
        }
        AskKind::Status | AskKind::Forget => Ok(()),
    }
}

// Appends the field with the parent's URI, if there is one.
fn push_parent<'a>(
    fields: &mut Vec<(&'a str, &'a str)>,
    parent_uri: Option<&'a str>,
) -> Result<(), AllocError>
    ensures { OnOk result (seen fields.new.items ≡ seen fields.old.items
        ++ spec.parent_fields (option_map (λ uri. uri.now) parent_uri.entry)) }
{
    match parent_uri {
        Some(uri) => push(fields, "Long-Running-Action-Parent", uri),
        None => Ok(()),
    }
}

// Appends the field with the credentials of a token, if there is one.
fn push_token<'a>(
    fields: &mut Vec<(&'a str, &'a str)>,
    credentials: Option<&'a str>,
) -> Result<(), AllocError>
    ensures { OnOk result (seen fields.new.items ≡ seen fields.old.items
        ++ spec.token_fields (option_map (λ text. text.now) credentials.entry)) }
{
    match credentials {
        Some(text) => push(fields, "Authorization", text),
        None => Ok(()),
    }
}

// Appends the field with a trace, if there is one.
fn push_trace<'a>(
    fields: &mut Vec<(&'a str, &'a str)>,
    trace: Option<&'a str>,
) -> Result<(), AllocError>
    ensures { OnOk result (seen fields.new.items ≡ seen fields.old.items
        ++ spec.trace_fields (option_map (λ text. text.now) trace.entry)) }
{
    match trace {
        Some(text) => push(fields, "traceparent", text),
        None => Ok(()),
    }
}

impl<'a> Callback<'a> {
    /// Returns the callback of an errand, with no extra fields.
    pub fn of(errand: &'a Errand) -> Callback<'a>
        ensures { result ≡ spec.calling_of errand.now }
    {
        Callback::of_with(errand, ExtraFields::none())
    }

    /// Returns the callback of an errand, with extra fields.
    pub fn of_with(errand: &'a Errand, extra: ExtraFields<'a>) -> Callback<'a>
        ensures { result ≡ spec.calling_with (spec.extra_of extra.entry) (spec.calling_of errand.now) }
    {
        Callback {
            kind: errand.kind(),
            direction: errand.direction(),
            address: errand.address(),
            action_uri: errand.action_uri(),
            parent_uri: errand.parent_uri(),
            recovery_uri: errand.recovery_uri(),
            ended: errand.ended(),
            extra,
        }
    }

    // Returns the body of the request.
    pub(crate) fn body(&self) -> &'static str
        ensures { result.now ≡ spec.body_of self.now.kind self.now.ended }
    {
        match self.kind {
            AskKind::After => match self.ended {
                Some(status) => status.name(),
                None => "",
            },
            _ => "",
        }
    }

    // Makes the fields of the request. `host` is the address's host and port, and `size` the length of the body in
    // digits.
    pub(crate) fn fields<'b>(
        &'b self,
        alloc: Global,
        host: &'b str,
        size: &'b str,
    ) -> Result<Vec<(&'b str, &'b str)>, AllocError>
        requires host { host.now ≡ authority_of self.now.address }
        requires size { size.now ≡ decimal (length (spec.body_of self.now.kind self.now.ended)) }
        ensures { IfOk result (λ fields. seen fields.items ≡ spec.fields_of self.now) }
    {
        let mut fields = Vec::new(alloc);
        push(&mut fields, "Host", host)?;
        push(&mut fields, context_name(self.kind), self.action_uri)?;
        push_parent(&mut fields, self.parent_uri)?;
        push(
            &mut fields,
            "Long-Running-Action-Recovery",
            self.recovery_uri,
        )?;
        push_content(&mut fields, self.kind, size)?;
        push_token(&mut fields, self.extra.credentials())?;
        push_trace(&mut fields, self.extra.trace())?;
        push(&mut fields, "Connection", "close")?;
        Ok(fields)
    }
}
