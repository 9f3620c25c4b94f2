//! Operations that the path and the method of a request ask for.

ghost use Rattle.std.specs.Prelude.{◌≡◌};
ghost use Rattle.std.specs.List.{before_first, after_first};
ghost use Rattle.lra_operators.specs.Routes.{is_slash, is_mark, path_in, id_in, operation_at, operation_of};

use crate::operation::Operation;
use lra_front::PathRouter;
use lra_model::Memory;
use std::alloc::Global;

/// Reason why nothing is served.
#[derive(Clone, Copy, PartialEq, Eq)]
pub enum Unserved {
    NoSuchPath,
    BadMethod(Operation),
}

/// Router of the paths that are served.
#[derive(Drop)]
pub struct Routes {
    router: PathRouter<Operation>,
}

/// Returns what follows the first slash, or nothing.
fn after_slash(text: &str) -> &str
    ensures { result.now ≡ after_first is_slash text.now }
{
    match text.split_once('/') {
        Some((_, after)) => after,
        None => "",
    }
}

/// Returns what stands before the first slash, or all of the text.
fn before_slash(text: &str) -> &str
    ensures { result.now ≡ before_first is_slash text.now }
{
    match text.split_once('/') {
        Some((before, _)) => before,
        None => text,
    }
}

/// Returns the path of a target: what stands before its first question mark, or all of it.
pub fn path_in(target: &str) -> &str
    ensures { result.now ≡ path_in target.now }
{
    match target.split_once('?') {
        Some((path, _)) => path,
        None => target,
    }
}

/// Returns the query of a target: what follows its first question mark, or nothing.
pub fn query_in(target: &str) -> &str
    ensures { result.now ≡ after_first is_mark target.now }
{
    match target.split_once('?') {
        Some((_, query)) => query,
        None => "",
    }
}

/// Returns the piece of a path that has the ID of an action or of a member.
#[tactic(auto, unfolding(crate::specs::Routes::id_in))]
pub fn id_in(path: &str) -> &str
    ensures { result.now ≡ id_in path.now }
{
    before_slash(after_slash(after_slash(path)))
}

impl Routes {
    /// Makes the router of the paths that are served.
    pub fn new(alloc: Global) -> Result<Routes, Memory> {
        let router = PathRouter::new(alloc)?;
        Ok(Routes { router })
    }

    /// Returns the operation whose path a target has, if there is one.
    #[tactic(auto, unfolding(crate::specs::Routes::operation_at))]
    fn operation_at(&self, target: &str) -> Option<Operation>
        ensures { result ≡ operation_at target.now }
    {
        self.router.at(path_in(target))
    }

    /// Returns the operation that a request asks for. The path decides first, then the method.
    pub fn operation(&self, method: &str, target: &str) -> Result<Operation, Unserved>
        ensures { result ≡ operation_of method.now target.now }
    {
        let Some(operation) = self.operation_at(target) else {
            return Err(Unserved::NoSuchPath);
        };
        if method == operation.method() {
            Ok(operation)
        } else {
            Err(Unserved::BadMethod(operation))
        }
    }
}
