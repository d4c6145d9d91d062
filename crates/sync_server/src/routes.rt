//! Which path the server knows.
ghost use Rattle.std.specs.Prelude.{◌≡◌, codes, is_some, IfOk};
ghost use Rattle.std.specs.Str.{bytes_eq};
ghost use Rattle.matchit.specs.Seek.{first};
ghost use Rattle.sync_server.specs.Routes.{IsSyncRouter};

use field_values::NoMemory;
use matchit::{InsertError, Router};
use std::alloc::Global;
use std::marker::Model;
use std::str;

/// The path of a sync.
const SYNC: &str = "/sync/sync";

/// The routes of the server: the path of a sync alone. So a contract sees nothing of it.
#[derive(Drop)]
pub(crate) struct Routes {
    router: Router<()>,
}

impl Model for Routes {
    ghost use Rattle.std.specs.Prelude.{⊤};
    ghost use Rattle.sync_server.specs.Routes.{IsSyncRouter};

    ghost Value = { ⊤ };

    ghost view = { λ _. tt };

    ghost invariant = { λ r. IsSyncRouter r.router };
}

/// A router with the path of a sync alone.
fn sync_router(alloc: Global) -> Result<Router<()>, InsertError>
    ensures { IfOk result IsSyncRouter }
{
    let mut router = Router::new(alloc);
    router.insert(SYNC, ())?;
    Ok(router)
}

/// Whether a router has a route for a path.
fn leads(router: &Router<()>, path: &str) -> bool
    ensures { result ≡ is_some (first router.now path.now) }
{
    router.at(path).is_ok()
}

/// Whether a router that has the path of a sync alone has a route for a path.
fn leads_to_sync(router: &Router<()>, path: &str) -> bool
    requires { IsSyncRouter router.now }
    ensures { result ≡ bytes_eq path.now (codes "/sync/sync") }
{
    leads(router, path)
}

impl Routes {
    /// The routes of the server.
    pub(crate) fn new(alloc: Global) -> Result<Routes, NoMemory> {
        match sync_router(alloc) {
            Ok(router) => Ok(Routes { router }),
            // The route is a plain text, and there is no other.
            Err(_) => Err(NoMemory),
        }
    }

    /// Whether a path is that of a sync.
    pub(crate) fn has_sync(&self, path: &[u8]) -> bool
        ensures { result ≡ bytes_eq path.now (codes "/sync/sync") }
    {
        match str::from_utf8(path) {
            Ok(path) => leads_to_sync(&self.router, path),
            Err(_) => false,
        }
    }
}
