//! Admission of requests.

ghost use Rattle.std.specs.Prelude.{◌≡◌, IfOk, bytes_eq, string_bytes, option_map};
ghost use Rattle.std.specs.List.{before_first, after_first, list_all};
ghost use Rattle.lra_wire.specs.Request.{request_of, what_fields};
ghost use Rattle.lra_operators.specs.Access as spec;
ghost use Rattle.lra_operators.specs.Forms.{form_value};

use crate::forms::in_form;
use crate::operation::Operation;
use base64::DecodeAllocError;
use base64::engine::general_purpose::STANDARD;
use lra_model::Memory;
use lra_wire::{RequestFields, RequestRead};
use std::alloc::Global;

/// Secrets that a request has to give to be admitted.
#[derive(Clone, Copy)]
pub struct Access<'a> {
    /// Key that each request has to give, if there is one.
    pub key: Option<&'a str>,
    /// Token that the forms of the pages carry, and that nobody else knows.
    pub token: &'a str,
}

/// Decision whether a request may be made.
#[derive(Clone, Copy, PartialEq, Eq)]
pub enum Admission {
    Admitted,
    /// No key was given, or another.
    WrongKey,
    /// The request came by a host name that isn't the machine's own, as a page of another site would send it.
    WrongHost,
    /// The request is an order that may come from a page of another site.
    Forged,
    /// The request is an order that needs a key, and there is none.
    NeedsKey,
    /// Another key was typed into the form.
    MistypedKey,
}

/// Facts of a request that decide whether it may be made.
#[derive(Clone, Copy)]
pub struct Seen {
    /// Flag, set if each request has to give a key.
    pub wants_key: bool,
    /// Flag, set if the request came by a name of the machine's own.
    pub is_own: bool,
    /// Flags, set if the request asks for an order, and if that order gives a member up.
    pub is_order: bool,
    pub is_give_up: bool,
    /// Flags for the secrets that the request gives: the key in its head, as `Bearer` or as the password of `Basic`;
    /// the key as `Bearer`, which no browser sends by itself; the key in the form that its body is; and the token in
    /// that form.
    pub head_has_key: bool,
    pub bearer_has_key: bool,
    pub form_has_key: bool,
    pub form_has_token: bool,
    /// Flag, set if the form has another key, which isn't empty.
    pub form_mistakes_key: bool,
    /// Flag, set if the request says that its body is JSON.
    pub is_json: bool,
}

impl Seen {
    ghost use Rattle.std.specs.Prelude.{◌≡◌};
    ghost use Rattle.lra_operators.specs.Access.{order_admission, admission_of};

    /// Returns whether an order may be given, or else why not.
    fn order_admission(self) -> Admission
        ensures { result ≡ order_admission self }
    {
        if self.is_give_up && !self.wants_key {
            return Admission::NeedsKey;
        }
        if self.bearer_has_key {
            return Admission::Admitted;
        }
        if self.form_mistakes_key {
            return Admission::MistypedKey;
        }
        if self.wants_key && !self.head_has_key && !self.form_has_key {
            return Admission::WrongKey;
        }
        if self.form_has_token || self.is_json {
            return Admission::Admitted;
        }
        Admission::Forged
    }

    /// Returns whether the request may be made, or else why not.
    pub fn admission(self) -> Admission
        ensures { result ≡ admission_of self }
    {
        if !self.wants_key && !self.is_own {
            return Admission::WrongHost;
        }
        if self.is_order {
            return self.order_admission();
        }
        if self.wants_key && !self.head_has_key {
            return Admission::WrongKey;
        }
        Admission::Admitted
    }
}

/// Returns whether two texts are the same, in a time that depends only on the length of the given one.
fn is_same(given: &[u8], wanted: &[u8]) -> bool
    ensures { result ≡ bytes_eq given.now wanted.now }
{
    let mut same = given.len() == wanted.len();
    for (place, byte) in given.iter().enumerate() {
        let other = wanted.get(place).copied().unwrap_or(0);
        same &= *byte == other;
    }
    same
}

/// Returns the key that a value of `Authorization` gives as `Bearer`, or nothing.
fn bearer_in(authorization: &str) -> &str
    ensures { result.now ≡ spec.bearer_in authorization.now }
{
    if before_space(authorization).eq_ignore_ascii_case("bearer") {
        after_space(authorization)
    } else {
        ""
    }
}

/// Returns what a value of `Authorization` has as `Basic`, or nothing: a name, a colon and a password, in base64.
fn basic_in(authorization: &str) -> &str
    ensures { result.now ≡ spec.basic_in authorization.now }
{
    if before_space(authorization).eq_ignore_ascii_case("basic") {
        after_space(authorization)
    } else {
        ""
    }
}

/// Decodes base64. Returns no bytes if the text isn't base64.
fn decoded(alloc: Global, spelled: &str) -> Result<Vec<u8>, Memory>
    ensures { IfOk result (λ bytes. bytes.items ≡ spec.decoded spelled.now) }
{
    match STANDARD.decode(alloc, spelled.as_bytes()) {
        Ok(bytes) => Ok(bytes),
        Err(DecodeAllocError::OutOfMemory) => Err(Memory),
        Err(DecodeAllocError::DecodeError(_)) => Ok(Vec::new(alloc)),
    }
}

/// Returns the text that bytes are, or an empty one if they aren't UTF-8.
fn text_of(bytes: &[u8]) -> &str
    ensures { result.now ≡ spec.text_of bytes.now }
{
    match str::from_utf8(bytes) {
        Ok(text) => text,
        Err(_) => "",
    }
}

/// Returns what stands before the first space, or all of the text.
fn before_space(text: &str) -> &str
    ensures { result.now ≡ before_first spec.is_space text.now }
{
    match text.split_once(' ') {
        Some((before, _)) => before,
        None => text,
    }
}

/// Returns what follows the first space, or nothing.
fn after_space(text: &str) -> &str
    ensures { result.now ≡ after_first spec.is_space text.now }
{
    match text.split_once(' ') {
        Some((_, after)) => after,
        None => "",
    }
}

/// Returns what stands before the first colon, or all of the text.
fn before_colon(text: &str) -> &str
    ensures { result.now ≡ before_first spec.is_colon text.now }
{
    match text.split_once(':') {
        Some((before, _)) => before,
        None => text,
    }
}

/// Returns what follows the first colon, or nothing.
fn after_colon(text: &str) -> &str
    ensures { result.now ≡ after_first spec.is_colon text.now }
{
    match text.split_once(':') {
        Some((_, after)) => after,
        None => "",
    }
}

/// Returns whether a name has only digits and points.
fn is_numeric(name: &[u8]) -> bool
    ensures { result ≡ list_all spec.is_numeric name.now }
{
    name.iter()
        .all(|byte| byte.is_ascii_digit() || *byte == b'.')
}

/// Returns whether a name is an address of the machine's own: one of `127.0.0.0/8`.
fn is_loopback(name: &[u8]) -> bool
    ensures { result ≡ spec.is_loopback name.now }
{
    name.starts_with(b"127.") && is_numeric(name)
}

/// Returns whether a host name without its port is the machine's own.
fn is_own_host(name: &[u8]) -> bool
    ensures { result ≡ spec.is_own_host name.now }
{
    name == b"localhost".as_slice() || is_loopback(name)
}

/// Returns whether a host is the machine's own, as clients on the machine itself name it.
fn is_own_name(host: &str) -> bool
    ensures { result ≡ spec.is_own_name host.now }
{
    let bytes = host.as_bytes();
    is_own_host(before_colon(host).as_bytes())
        || bytes == b"[::1]".as_slice()
        || bytes.starts_with(b"[::1]:")
}

/// Returns whether a request came by a name of the machine's own.
fn is_own(host: &Option<Vec<u8>>) -> bool
    ensures { result ≡ spec.is_own (option_map (λ value. value.items) host.now) }
{
    match host {
        Some(host) => is_own_name(text_of(host.as_slice())),
        None => false,
    }
}

/// Returns whether a request says that its body is JSON.
fn is_json(kind: &Option<Vec<u8>>) -> bool
    ensures { result ≡ spec.is_json (option_map (λ value. value.items) kind.now) }
{
    match kind {
        Some(kind) => kind.as_slice().starts_with(b"application/json"),
        None => false,
    }
}

/// Returns whether an operation gives a member up.
fn is_give_up(operation: Operation) -> bool
    ensures { result ≡ spec.is_give_up operation }
{
    matches!(operation, Operation::GiveUp)
}

/// Returns whether a text is the one that is wanted, if one is.
fn is_wanted(given: &str, wanted: Option<&str>) -> bool
    ensures { result ≡ spec.gives (Some given.now) (option_map (λ text. text.now) wanted.entry) }
{
    match wanted {
        Some(wanted) => is_same(given.as_bytes(), wanted.as_bytes()),
        None => false,
    }
}

/// Returns whether a text differs from the one that is wanted, if one is. An empty text doesn't count.
fn is_mistaken(given: &str, wanted: Option<&str>) -> bool
    ensures { result ≡ spec.mistakes (Some given.now) (option_map (λ text. text.now) wanted.entry) }
{
    match wanted {
        Some(wanted) => !given.is_empty() && !is_same(given.as_bytes(), wanted.as_bytes()),
        None => false,
    }
}

/// Returns whether the head of a request gives the key as `Bearer`, if there is a key.
fn bearer_gives(fields: &RequestFields, key: Option<&str>) -> bool
    ensures { result ≡ spec.gives (spec.bearer_of (what_fields fields.now)) (option_map (λ text. text.now) key.entry) }
{
    match &fields.authorization {
        Some(value) => is_wanted(bearer_in(text_of(value.as_slice())), key),
        None => false,
    }
}

/// Returns whether a value of `Authorization` gives the key as the password of `Basic`, if there is a key.
fn is_password(alloc: Global, authorization: &str, key: Option<&str>) -> Result<bool, Memory>
    ensures { IfOk result (λ b. b ≡ spec.gives (Some (spec.password_in authorization.now))
        (option_map (λ text. text.now) key.entry)) }
{
    let bytes = decoded(alloc, basic_in(authorization))?;
    let password = after_colon(text_of(bytes.as_slice()));
    Ok(is_wanted(password, key))
}

/// Returns whether the head of a request gives the key as the password of `Basic`, if there is a key.
fn basic_gives(alloc: Global, fields: &RequestFields, key: Option<&str>) -> Result<bool, Memory>
    ensures { IfOk result (λ b. b ≡ spec.gives (spec.password_of (what_fields fields.now))
        (option_map (λ text. text.now) key.entry)) }
{
    match &fields.authorization {
        Some(value) => is_password(alloc, text_of(value.as_slice()), key),
        None => Ok(false),
    }
}

/// Returns whether a field of a form gives the text that is wanted, if one is.
fn form_gives(alloc: Global, form: &[u8], name: &str, wanted: Option<&str>) -> Result<bool, Memory>
    ensures { IfOk result (λ b. b ≡ spec.gives (form_value name.now form.now)
        (option_map (λ text. text.now) wanted.entry)) }
{
    match in_form(alloc, form, name)? {
        Some(given) => Ok(is_wanted(given.as_str(), wanted)),
        None => Ok(false),
    }
}

/// Returns whether a field of a form gives another text than the one that is wanted, if one is. An empty text doesn't
/// count.
fn form_mistakes(
    alloc: Global,
    form: &[u8],
    name: &str,
    wanted: Option<&str>,
) -> Result<bool, Memory>
    ensures { IfOk result (λ b. b ≡ spec.mistakes (form_value name.now form.now)
        (option_map (λ text. text.now) wanted.entry)) }
{
    match in_form(alloc, form, name)? {
        Some(given) => Ok(is_mistaken(given.as_str(), wanted)),
        None => Ok(false),
    }
}

impl<'a> Access<'a> {
    ghost use Rattle.std.specs.Prelude.{◌≡◌, string_bytes, option_map, IfOk};
    ghost use Rattle.lra_wire.specs.Request.{request_of};
    ghost use Rattle.lra_operators.specs.Access.{key_of, seen, admission_of};

    /// Makes the access by a key, if there is one, and by the token of the forms.
    pub fn new(key: &'a Option<String>, token: &'a str) -> Access<'a>
        ensures key { key_of result ≡ option_map string_bytes key.now }
        ensures token { result.token.now ≡ token.now }
    {
        Access {
            key: key.as_deref(),
            token,
        }
    }

    /// Returns the facts of a request for an operation that decide whether it may be made.
    fn see(
        &self,
        alloc: Global,
        request: &RequestRead,
        operation: Operation,
    ) -> Result<Seen, Memory>
        ensures { IfOk result (λ s. s ≡ seen self.now (request_of request.now) operation) }
    {
        let form = request.body.as_slice();
        let fields = &request.fields;
        let basic_gives = basic_gives(alloc, fields, self.key)?;
        let form_has_key = form_gives(alloc, form, "key", self.key)?;
        let form_mistakes_key = form_mistakes(alloc, form, "key", self.key)?;
        let form_has_token = form_gives(alloc, form, "token", Some(self.token))?;
        let bearer_has_key = bearer_gives(fields, self.key);
        Ok(Seen {
            wants_key: self.key.is_some(),
            is_own: is_own(&fields.host),
            is_order: operation.is_order(),
            is_give_up: is_give_up(operation),
            head_has_key: bearer_has_key || basic_gives,
            bearer_has_key,
            form_has_key,
            form_mistakes_key,
            form_has_token,
            is_json: is_json(&fields.content_type),
        })
    }

    /// Returns whether a request for an operation may be made, or else why not.
    pub fn admit(
        &self,
        alloc: Global,
        request: &RequestRead,
        operation: Operation,
    ) -> Result<Admission, Memory>
        ensures { IfOk result (λ a. a ≡ admission_of (seen self.now (request_of request.now) operation)) }
    {
        let seen = self.see(alloc, request, operation)?;
        Ok(seen.admission())
    }
}
