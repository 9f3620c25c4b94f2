//! The operation of the dialect that the path and the method of a request ask for.

ghost use Rattle.std.specs.Prelude.{◌≡◌};
ghost use Rattle.lra_wire.specs.Request.{request_of};
ghost use Rattle.lra_narayana.specs.Meant.{meant, meant_at};
ghost use Rattle.lra_narayana.specs.Routes.{resource_at, operation_of};

use crate::asked::refusal_of;
use crate::operation::{DialectOperation, DialectResource};
use crate::texts::{after_mark, before_mark};
use lra_front::{DialectRefusal, PathRouter};
use lra_model::Memory;
use lra_wire::RequestRead;
use std::alloc::Global;

/// Router of the paths of the dialect.
#[derive(Drop)]
pub struct DialectRouter {
    router: PathRouter<DialectResource>,
}

impl DialectRouter {
    /// Makes the router of the paths of the dialect.
    pub fn new(alloc: Global) -> Result<DialectRouter, Memory> {
        let router = PathRouter::new(alloc)?;
        Ok(DialectRouter { router })
    }

    /// Returns the resource that a target names, whatever its query.
    #[tactic(auto, unfolding(crate::specs::Routes::resource_at))]
    fn resource_at(&self, target: &str) -> Option<DialectResource>
        ensures { result ≡ resource_at target.now }
    {
        self.router.at(before_mark(target))
    }

    /// Returns the operation that a request asks for. It checks the path first, then the method.
    pub fn operation(&self, method: &str, target: &str) -> Result<DialectOperation, DialectRefusal>
        ensures { result ≡ operation_of method.now target.now }
    {
        let Some(resource) = self.resource_at(target) else {
            return Err(DialectRefusal::NoSuchPath);
        };
        match resource.operation(method) {
            Some(operation) => Ok(operation),
            None => Err(DialectRefusal::BadMethod(resource.methods())),
        }
    }
}

/// Returns the operation that was found for a request with that target, unless the request isn't taken.
#[tactic(auto, unfolding(crate::specs::Meant::meant_at))]
fn meant_at(
    target: &str,
    request: &RequestRead,
    operation: DialectOperation,
) -> Result<DialectOperation, DialectRefusal>
    ensures { result ≡ meant_at target.now (request_of request.now) operation }
{
    match refusal_of(operation, after_mark(target).as_bytes(), request) {
        Some(refusal) => Err(refusal),
        None => Ok(operation),
    }
}

impl DialectRouter {
    /// Returns the operation that a request with that target asks for, or why it isn't taken.
    #[tactic(auto, unfolding(crate::specs::Meant::meant))]
    pub fn meant(
        &self,
        target: &str,
        request: &RequestRead,
    ) -> Result<DialectOperation, DialectRefusal>
        ensures { result ≡ meant target.now (request_of request.now) }
    {
        match self.operation(request.method.as_str(), target) {
            Ok(operation) => meant_at(target, request, operation),
            Err(refusal) => Err(refusal),
        }
    }
}
