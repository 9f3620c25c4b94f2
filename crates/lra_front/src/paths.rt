//! Paths that are served, and their router.

ghost use Rattle.std.specs.Prelude.{◌≡◌, [], IfOk, OnOk};
ghost use Rattle.lra_front.specs.Paths.{with_path, with_paths, served_at};

use lra_model::Memory;
use matchit::{InsertError, Router};
use std::alloc::{AllocError, Global};

/// Path that a port serves, one of a table of all of them.
pub trait Path: Copy + Drop + 'static {
    ghost use Rattle.std.specs.Prelude.{◌≡◌, List, ℕ};

    // All paths, in their order.
    ghost all: { List Self };

    // The path of each.
    ghost path_of: { Self → List ℕ };

    /// Returns all paths, in their order.
    fn all() -> &'static [Self]
        ensures { result.now ≡ all };

    /// Returns the path's text, as `matchit` reads it.
    fn path(self) -> &'static str
        ensures { result.now ≡ path_of self };
}

/// Router of all paths of a port.
#[derive(Drop)]
pub struct PathRouter<P: Path> {
    router: Router<P>,
    ghost served: { router ≡ with_paths P.path_of P.all [] },
}

/// Adds one path to a router.
fn serve<P: Path>(router: &mut Router<P>, served: P) -> Result<(), InsertError>
    ensures { OnOk result (router.new ≡ with_path P.path_of served router.old) }
{
    router.insert(served.path(), served)
}

/// Adds all paths to a router.
fn serve_all<P: Path>(router: &mut Router<P>) -> Result<(), InsertError>
    ensures { OnOk result (router.new ≡ with_paths P.path_of P.all router.old) }
{
    for served in P::all() {
        serve(router, *served)?;
    }
    Ok(())
}

/// Makes the router of all paths.
fn router<P: Path>(alloc: Global) -> Result<Router<P>, InsertError>
    ensures { IfOk result (λ router. router ≡ with_paths P.path_of P.all []) }
{
    let mut router = Router::new(alloc);
    serve_all(&mut router)?;
    Ok(router)
}

impl<P: Path> PathRouter<P> {
    /// Makes the router of all paths.
    pub fn new(alloc: Global) -> Result<PathRouter<P>, Memory> {
        match router(alloc) {
            Ok(router) => Ok(PathRouter { router }),
            Err(_) => Err(AllocError),
        }
    }

    /// Returns the entry of the table that matches a path, if one does.
    pub fn at(&self, path: &str) -> Option<P>
        ensures { result ≡ served_at P.path_of P.all path.now }
    {
        match self.router.at(path) {
            Ok(found) => Some(*found.value),
            Err(_) => None,
        }
    }
}
