//! A request with the operation that it asks for and the value of its body: the router finds the one, and the body is
//! read for it, once.

ghost use Rattle.std.specs.Prelude.{◌≡◌, option_map, IfOk, OnErr, Ok, Some};
ghost use Rattle.serde_json.specs.View.{view};
ghost use Rattle.lra_wire.specs.Request.{request_of};
ghost use Rattle.lra_front.specs.Routes.{operation_of};
ghost use Rattle.lra_front.specs.Bodies.{IsValueOf, NeedsMemory};
ghost use Rattle.lra_front.specs.inner.Reads.{FitsBody};

use crate::api_error::ApiError;
use crate::body::read_body;
use crate::operation::Operation;
use crate::route::Routes;
use lra_commands::Refusal;
use lra_model::Memory;
use lra_wire::RequestRead;
use serde_json::Value;
use std::alloc::Global;
use std::marker::Model;

/// Request with the operation that it asks for and the value of its body. A contract sees the request.
#[derive(Drop)]
pub struct RoutedRequest<'r> {
    routes: &'r Routes,
    request: &'r RequestRead,
    operation: Result<Operation, ApiError>,
    body: Result<Option<Value>, Memory>,
}

impl<'r> Model for RoutedRequest<'r> {
    ghost use Rattle.lra_wire.specs.Request.{Request, request_of};
    ghost use Rattle.lra_front.specs.inner.Holds.{HoldsParts};

    ghost Value = { Request };

    ghost view = { λ r. request_of r.request.now };

    ghost invariant = { λ r. HoldsParts (request_of r.request.now) r.operation r.body };
}

impl<'r> RoutedRequest<'r> {
    /// Asks the router for the operation of a request, and reads the body if the operation does.
    pub fn new(alloc: Global, routes: &'r Routes, request: &'r RequestRead) -> RoutedRequest<'r>
        ensures { result ≡ request_of request.now }
    {
        let operation = routes.operation(request.method.as_str(), request.target.as_str());
        let body = read_body(alloc, operation, request.body.as_slice());
        RoutedRequest {
            routes,
            request,
            operation,
            body,
        }
    }

    /// Returns another request with the operation that it asks for and the value of its body.
    pub fn with<'s>(&'s self, alloc: Global, request: &'s RequestRead) -> RoutedRequest<'s>
        ensures { result ≡ request_of request.now }
    {
        RoutedRequest::new(alloc, self.routes, request)
    }

    /// Returns another request for the same operation, of which the value of the body is known. Neither is the router
    /// asked, nor the body read.
    pub fn with_body<'s>(&'s self, request: &'s RequestRead, value: Value) -> RoutedRequest<'s>
        requires method { (request_of request.now).method ≡ self.now.method }
        requires target { (request_of request.now).target ≡ self.now.target }
        requires body { IsValueOf (operation_of self.now.method self.now.target) (request_of request.now).body
            (Some (view value)) }
        ensures { result ≡ request_of request.now }
    {
        RoutedRequest {
            routes: self.routes,
            request,
            operation: self.operation,
            body: Ok(Some(value)),
        }
    }

    /// Returns the request as it was read.
    pub fn request(&self) -> &RequestRead
        ensures { request_of result.now ≡ self.now }
    {
        self.request
    }

    /// Returns the operation that the request asks for.
    pub fn operation(&self) -> Result<Operation, ApiError>
        ensures { result ≡ operation_of self.now.method self.now.target }
    {
        self.operation
    }

    /// Returns the value of the body as it was read for the operation: an object without members where the operation
    /// doesn't read it, and nothing where it isn't JSON.
    pub fn body(&self) -> Result<Option<&Value>, Memory>
        ensures ok { IfOk result (λ value. IsValueOf (operation_of self.now.method self.now.target) self.now.body
            (option_map (λ v. view v.now) value)) }
        ensures err { OnErr result (NeedsMemory (operation_of self.now.method self.now.target) self.now.body) }
    {
        match &self.body {
            Ok(Some(value)) => Ok(Some(value)),
            Ok(None) => Ok(None),
            Err(Memory) => Err(Memory),
        }
    }

    /// Returns the value of the body if it fits the operation that was found.
    pub(crate) fn fitting_body(&self, operation: Operation) -> Result<&Value, ApiError>
        requires { operation_of self.now.method self.now.target ≡ Ok operation }
        ensures { FitsBody operation self.now.body result }
    {
        match self.body() {
            Ok(Some(value)) => {
                if operation.fits(value) {
                    Ok(value)
                } else {
                    Err(ApiError::BadBody)
                }
            }
            Ok(None) => Err(ApiError::BadBody),
            Err(Memory) => Err(ApiError::Refused(Refusal::Memory)),
        }
    }
}
