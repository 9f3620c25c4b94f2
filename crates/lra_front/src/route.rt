//! The operation that the path and the method of a request ask for.

ghost use Rattle.std.specs.Prelude.{◌≡◌};
ghost use Rattle.std.specs.List.{before_first, after_first};
ghost use Rattle.lra_front.specs.Routes.{is_slash, has_query, place_of, id_in, operation_of};

use crate::api_error::ApiError;
use crate::operation::{Operation, Resource};
use crate::paths::PathRouter;
use lra_model::Memory;
use std::alloc::Global;

/// Router of the paths that are served.
#[derive(Drop)]
pub struct Routes {
    router: PathRouter<Resource>,
}

/// Returns the text after the first slash, or nothing where there is none.
fn after_slash(text: &str) -> &str
    ensures { result.now ≡ after_first is_slash text.now }
{
    match text.split_once('/') {
        Some((_, after)) => after,
        None => "",
    }
}

/// Returns the text before the first slash, or all of it where there is none.
fn before_slash(text: &str) -> &str
    ensures { result.now ≡ before_first is_slash text.now }
{
    match text.split_once('/') {
        Some((before, _)) => before,
        None => text,
    }
}

/// Returns the piece of a target that is the ID of its path.
#[tactic(auto, unfolding(crate::specs::Routes::id_in))]
pub fn id_in(target: &str) -> &str
    ensures { result.now ≡ id_in target.now }
{
    before_slash(after_slash(after_slash(target)))
}

/// Returns whether a target has a query.
fn has_query(target: &str) -> bool
    ensures { result ≡ has_query target.now }
{
    target.as_bytes().contains(&b'?')
}

impl Routes {
    /// Makes the router of the paths that are served.
    pub fn new(alloc: Global) -> Result<Routes, Memory> {
        let router = PathRouter::new(alloc)?;
        Ok(Routes { router })
    }

    /// Returns the resource that a target names, if it names one. A target with a query names none.
    #[tactic(auto, unfolding(crate::specs::Routes::place_of))]
    fn resource(&self, target: &str) -> Option<Resource>
        ensures { result ≡ place_of target.now }
    {
        if has_query(target) {
            return None;
        }
        self.router.at(target)
    }

    /// Returns the operation that a request asks for. It checks the path first, then the method.
    pub fn operation(&self, method: &str, target: &str) -> Result<Operation, ApiError>
        ensures { result ≡ operation_of method.now target.now }
    {
        let Some(resource) = self.resource(target) else {
            return Err(ApiError::NoSuchPath);
        };
        match resource.operation(method) {
            Some(operation) => Ok(operation),
            None => Err(ApiError::BadMethod(resource)),
        }
    }
}
