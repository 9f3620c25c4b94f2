//! The port, which handles each request.

ghost use Rattle.std.specs.Prelude.{◌≡◌, ◌⊎◌, true, false, [], ◌∷◌, IfOk, string_bytes};
ghost use Rattle.lra_wire.specs.Request.{request_of};
ghost use Rattle.lra_front.specs.Listed.{has_code};
ghost use Rattle.lra_operators.specs.declared.access.Admission.TheVariants as Admission;
ghost use Rattle.lra_operators.specs.declared.operation.Operation.TheVariants.{Health};
ghost use Rattle.lra_operators.specs.Access.{seen, admission_of, asked_for, denied_code};
ghost use Rattle.lra_operators.specs.Denials.{IsDenied};
ghost use Rattle.lra_operators.specs.Operations.{is_order, success};
ghost use Rattle.lra_operators.specs.Orders.{Answers};
ghost use Rattle.lra_operators.specs.inner.Targets.{Orders};

use crate::access::{Access, Admission};
use crate::memo::Memo;
use crate::operation::Operation;
use crate::ordering::order_at;
use crate::reply::{Kind, Reply};
use crate::route::{Routes, Unserved};
use crate::telling::{tell_action, tell_actions, tell_health, tell_home, tell_metrics, tell_tree};
use http::StatusCode;
use lra_commands::{Refusal, Told};
use lra_model::Memory;
use lra_overview::{Forms, Names, Overview, Probe, Trouble, put_plain_page, put_text};
use lra_wire::RequestRead;
use std::alloc::Global;

/// Handler of operators' requests: the routes, and the latest counts.
#[derive(Drop)]
pub struct Port {
    alloc: Global,
    routes: Routes,
    memo: Memo,
}

/// Returns the status code of a refusal.
fn refusal_status(refusal: Refusal) -> StatusCode {
    match refusal {
        Refusal::NoSuchAction | Refusal::NoSuchMember => StatusCode::NOT_FOUND,
        Refusal::BadAddresses | Refusal::LimitTooFar => StatusCode::BAD_REQUEST,
        Refusal::HasLeft => StatusCode::GONE,
        Refusal::NotActive(_) | Refusal::NotAsked => StatusCode::PRECONDITION_FAILED,
        Refusal::OldJournal | Refusal::WrongAction | Refusal::TooDeep => StatusCode::CONFLICT,
        Refusal::NoSuchClerk => StatusCode::INTERNAL_SERVER_ERROR,
        Refusal::Full(_) | Refusal::Stopped | Refusal::Memory => StatusCode::SERVICE_UNAVAILABLE,
    }
}

/// Returns the status code and the word of the reply for a trouble.
fn trouble_told(trouble: Trouble) -> (StatusCode, &'static str) {
    match trouble {
        Trouble::Refused(Refusal::BadAddresses) => (StatusCode::BAD_REQUEST, "BadQuery"),
        Trouble::Refused(refusal) => (refusal_status(refusal), refusal.name()),
        Trouble::Worn => (StatusCode::SERVICE_UNAVAILABLE, "Worn"),
        Trouble::NoSuchJournal => (StatusCode::NOT_FOUND, "NoSuchJournal"),
    }
}

/// Returns the status code and the word of the reply to a request by its admission.
fn admission_told(admission: Admission) -> (StatusCode, &'static str)
    ensures { result.0 ≡ denied_code admission }
{
    match admission {
        Admission::Admitted => (StatusCode::OK, "Admitted"),
        Admission::WrongKey => (StatusCode::UNAUTHORIZED, "WrongKey"),
        Admission::WrongHost => (StatusCode::FORBIDDEN, "WrongHost"),
        Admission::Forged => (StatusCode::FORBIDDEN, "Forged"),
        Admission::NeedsKey => (StatusCode::FORBIDDEN, "NeedsKey"),
        // The reply has no `WWW-Authenticate`: the browser's key is right, and the browser isn't to ask for it again.
        Admission::MistypedKey => (StatusCode::FORBIDDEN, "WrongKey"),
    }
}

/// Makes a reply whose body is a JSON object of one text.
fn one_text(
    alloc: Global,
    status: StatusCode,
    key: &'static str,
    text: &str,
) -> Result<Reply, Memory>
    ensures { IfOk result (λ reply. reply.status ≡ status) }
{
    let mut reply = Reply::new(status, Kind::Json, Vec::new(alloc));
    put_text(alloc, &mut reply.text, key, text)?;
    Ok(reply)
}

/// Returns the name of the status that an order led to.
fn status_told(told: Told) -> &'static str {
    match told {
        Told::Now(status) | Told::Already(status) => status.name(),
        Told::MemberNow(status) | Told::MemberAlready(status) => status.name(),
        _ => "Done",
    }
}

/// Returns whether the body of a request is a form.
fn is_form(request: &RequestRead) -> bool {
    match &request.fields.content_type {
        Some(kind) => kind
            .as_slice()
            .starts_with(b"application/x-www-form-urlencoded"),
        None => false,
    }
}

impl Port {
    /// Makes a port that has counted nothing yet.
    pub fn new(alloc: Global) -> Result<Port, Memory> {
        let routes = Routes::new(alloc)?;
        Ok(Port {
            alloc,
            routes,
            memo: Memo::new(alloc),
        })
    }

    /// Returns the reply to a request whose path or method isn't served.
    fn tell_unserved<O: Overview>(
        &self,
        overview: &O,
        request: &RequestRead,
        unserved: Unserved,
    ) -> Result<Reply, Memory> {
        match unserved {
            Unserved::BadMethod(operation) => {
                let mut reply = one_text(
                    self.alloc,
                    StatusCode::METHOD_NOT_ALLOWED,
                    "error",
                    "BadMethod",
                )?;
                reply.field = Some(("Allow", operation.method()));
                Ok(reply)
            }
            Unserved::NoSuchPath => self.tell_no_path(overview, request.target.as_str()),
        }
    }

    /// Returns the reply which says that nothing is served at a target. It is a page if the target looks like that of a
    /// page.
    fn tell_no_path<O: Overview>(&self, overview: &O, target: &str) -> Result<Reply, Memory> {
        let code = StatusCode::NOT_FOUND;
        if !target.starts_with("/page") {
            return one_text(self.alloc, code, "error", "NoSuchPath");
        }
        let Some(instance) = overview.instance(0) else {
            return one_text(self.alloc, code, "error", "NoSuchPath");
        };
        let names = Names::new(self.alloc, instance, overview.base());
        let mut reply = Reply::new(code, Kind::Page, Vec::new(self.alloc));
        put_plain_page(&mut reply.text, &names, "There is no such page", target)?;
        Ok(reply)
    }

    /// Returns the reply of an operation that gives no order.
    fn tell<O: Overview>(
        &mut self,
        overview: &mut O,
        access: &Access<'_>,
        operation: Operation,
        target: &str,
    ) -> Result<Reply, Trouble>
        requires { is_order operation ≡ false }
        ensures orders { O.orders overview.new ≡ O.orders overview.old }
        ensures done { IfOk result (λ reply. has_code reply.status (success operation) ≡ true) }
    {
        let alloc = self.alloc;
        let memo = &mut self.memo;
        let forms = Forms {
            token: access.token,
            have_key: access.key.is_some(),
        };
        match operation {
            Operation::Health => tell_health(alloc, overview, memo, Probe::Whole),
            Operation::Live => tell_health(alloc, overview, memo, Probe::Live),
            Operation::Ready => tell_health(alloc, overview, memo, Probe::Ready),
            Operation::Started => tell_health(alloc, overview, memo, Probe::Started),
            Operation::Metrics => tell_metrics(alloc, overview, memo),
            Operation::Actions => tell_actions(alloc, overview, target),
            Operation::Action => tell_action(alloc, overview, target),
            Operation::Home => tell_home(alloc, overview, memo, &forms, target),
            _ => tell_tree(alloc, overview, &forms, target),
        }
    }

    /// Gives the order of the operation that a request asks for, and returns its reply.
    fn order<O: Overview>(
        &self,
        overview: &mut O,
        request: &RequestRead,
        operation: Operation,
    ) -> Result<Reply, Trouble>
        requires { is_order operation ≡ true }
        ensures orders { Orders (string_bytes request.now.target) operation (O.orders overview.old)
            (O.orders overview.new) }
        ensures done { IfOk result (λ reply. has_code reply.status (success operation) ≡ true) }
    {
        match order_at(self.alloc, overview, request, operation) {
            Ok(told) => self.tell_done(request, told),
            Err(trouble) => Err(trouble),
        }
    }

    /// Returns the reply that reports the outcome of an order. If a form gave the order, the reply sends the browser to
    /// the first page.
    fn tell_done(&self, request: &RequestRead, told: Told) -> Result<Reply, Trouble>
        ensures { IfOk result (λ reply. has_code reply.status (200 ∷ 303 ∷ []) ≡ true) }
    {
        let mut reply = one_text(self.alloc, StatusCode::OK, "status", status_told(told))?;
        if is_form(request) {
            reply.status = StatusCode::SEE_OTHER;
            reply.field = Some(("Location", "/"));
        }
        Ok(reply)
    }

    /// Does an operation, and returns its reply.
    fn serve<O: Overview>(
        &mut self,
        overview: &mut O,
        access: &Access<'_>,
        request: &RequestRead,
        operation: Operation,
    ) -> Result<Reply, Trouble>
        ensures orders { Orders (string_bytes request.now.target) operation (O.orders overview.old)
            (O.orders overview.new) }
        // If the operation is done, the code of its reply is one of the table.
        ensures done { IfOk result (λ reply. has_code reply.status (success operation) ≡ true) }
    {
        if operation.is_order() {
            return self.order(overview, request, operation);
        }
        self.tell(overview, access, operation, request.target.as_str())
    }

    /// Returns the reply that says why a request may not be made.
    fn tell_denied(&self, admission: Admission) -> Result<Reply, Memory>
        ensures { IfOk result (λ reply. reply.status ≡ denied_code admission) }
    {
        let (status, word) = admission_told(admission);
        let mut reply = one_text(self.alloc, status, "error", word)?;
        if admission == Admission::WrongKey {
            reply.field = Some(("WWW-Authenticate", "Basic realm=\"lra\", charset=\"UTF-8\""));
        }
        Ok(reply)
    }

    /// Returns the reply to a request that may be made.
    fn respond_to<O: Overview>(
        &mut self,
        overview: &mut O,
        access: &Access<'_>,
        request: &RequestRead,
        operation: Operation,
    ) -> Result<Reply, Memory>
        ensures { Orders (string_bytes request.now.target) operation (O.orders overview.old) (O.orders overview.new) }
    {
        match self.serve(overview, access, request, operation) {
            Ok(reply) => Ok(reply),
            Err(trouble) => {
                let (status, word) = trouble_told(trouble);
                one_text(self.alloc, status, "error", word)
            }
        }
    }

    /// Returns the reply to a request that has a route.
    fn respond<O: Overview>(
        &mut self,
        overview: &mut O,
        access: &Access<'_>,
        request: &RequestRead,
        operation: Operation,
    ) -> Result<Reply, Memory>
        ensures orders { (O.orders overview.new ≡ O.orders overview.old)
            ⊎ ((admission_of (seen access.now (request_of request.now) operation) ≡ Admission.Admitted)
            × Orders (string_bytes request.now.target) operation (O.orders overview.old) (O.orders overview.new)) }
        ensures denied { IsDenied access.now (request_of request.now) operation result }
    {
        let admission = access.admit(self.alloc, request, operation)?;
        match admission {
            Admission::Admitted => self.respond_to(overview, access, request, operation),
            denied => self.tell_denied(denied),
        }
    }

    /// Returns the reply to a request that has no route.
    fn respond_unserved<O: Overview>(
        &self,
        overview: &O,
        access: &Access<'_>,
        request: &RequestRead,
        unserved: Unserved,
    ) -> Result<Reply, Memory>
        ensures denied { IsDenied access.now (request_of request.now) Health result }
    {
        match access.admit(self.alloc, request, Operation::Health)? {
            Admission::Admitted => self.tell_unserved(overview, request, unserved),
            refused => self.tell_denied(refused),
        }
    }

    /// Returns the reply to a request. If the request's route asks for an order, and the request may be made, the port
    /// gives that one order. Otherwise it gives none.
    pub fn answer<O: Overview>(
        &mut self,
        overview: &mut O,
        access: &Access<'_>,
        request: &RequestRead,
    ) -> Result<Reply, Memory>
        ensures answers { Answers access.now (request_of request.now) (O.orders overview.old) (O.orders overview.new) }
        // A request that may not be made is told just that, whether or not something is served at its target.
        ensures denied { IsDenied access.now (request_of request.now) (asked_for (request_of request.now)) result }
    {
        let method = request.method.as_str();
        let target = request.target.as_str();
        match self.routes.operation(method, target) {
            Ok(operation) => self.respond(overview, access, request, operation),
            Err(unserved) => self.respond_unserved(overview, access, request, unserved),
        }
    }

    /// Returns the reply to a request that can't be read.
    pub fn refuse(&self, status: StatusCode, word: &str) -> Result<Reply, Memory>
        ensures { IfOk result (λ reply. reply.status ≡ status) }
    {
        one_text(self.alloc, status, "error", word)
    }
}
