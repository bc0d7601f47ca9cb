//! Finds what a request asks for, by a router that is made once for a connection.
ghost use Rattle.std.specs.Prelude.{◌≡◌, Ok, IfOk, OnOk, option_map};
ghost use Rattle.matchit.specs.Router.{InsertsRead};
ghost use Rattle.matchit.specs.Route.{parse_route};
ghost use Rattle.percent_encoding.specs.Percent.{percent_decode};
ghost use Rattle.rl_http.specs.Routes.{call_of, routed, route_of, route_decoded};

use crate::routes::{Call, Route};
use matchit::Router;
use percent_encoding::percent_decode;
use rl_names::NoMemory;
use std::alloc::Global;
use std::marker::Model;
use std::str;

/// The paths that are served. A router finds one in the time of its bytes.
#[derive(Drop)]
pub struct Routes {
    router: Router<Call>,
}

impl Model for Routes {
    ghost use Rattle.rl_http.specs.Routes.{FindsCalls};

    ghost Value = { Unit {0} };

    ghost view = { λ _. tt };

    ghost invariant = { λ r. FindsCalls r.router };
}

/// Adds a path.
fn add(router: &mut Router<Call>, path: &str, call: Call) -> Result<(), NoMemory>
    ensures { OnOk result (InsertsRead (parse_route path.now) call router.old router.new (Ok tt)) }
{
    match router.insert(path, call) {
        Ok(()) => Ok(()),
        Err(_) => Err(NoMemory),
    }
}

/// What a path that is served asks for, where the method is the one that it takes.
fn routed(method: &str, call: Option<Call>) -> Route
    ensures { result ≡ routed method.now call }
{
    match call {
        None => Route::NotFound,
        Some(Call::Load) if method == "GET" => Route::Load,
        Some(Call::Edit) if method == "POST" => Route::Edit,
        Some(Call::Choice) if method == "POST" => Route::Choice,
        Some(Call::Revision) if method == "GET" => Route::Revision,
        Some(_) => Route::NotAllowed,
    }
}

impl Routes {
    /// The paths of a wiki. That its type finds just these is all that is to be said of it.
    pub fn new(alloc: Global) -> Result<Routes, NoMemory> {
        let mut router = Router::new(alloc);
        add(&mut router, "/load.php", Call::Load)?;
        add(&mut router, "/edit", Call::Edit)?;
        add(&mut router, "/option", Call::Choice)?;
        add(&mut router, "/revision", Call::Revision)?;
        Ok(Routes { router })
    }

    /// The call of a decoded path.
    fn call(&self, path: &str) -> Option<Call>
        ensures { result ≡ call_of path.now }
    {
        match self.router.at(path) {
            Ok(found) => Some(*found.value),
            Err(_) => None,
        }
    }

    /// What a method and a decoded path ask for. Another path is not found, whatever the method.
    pub fn find(&self, method: &str, path: &str) -> Route
        ensures { result ≡ route_of method.now path.now }
    {
        routed(method, self.call(path))
    }

    /// The same of the bytes of a path. Bytes that are no UTF-8 are not found.
    fn find_decoded(&self, method: &str, path: &[u8]) -> Route
        ensures { result ≡ route_decoded method.now path.now }
    {
        match str::from_utf8(path) {
            Ok(path) => self.find(method, path),
            Err(_) => Route::NotFound,
        }
    }

    /// What a method and the path of a target ask for: the path is decoded first.
    pub fn find_encoded(&self, alloc: Global, method: &str, path: &[u8]) -> Result<Route, NoMemory>
        ensures { IfOk result (λ r. r ≡ route_decoded method.now (percent_decode path.now)) }
    {
        let decoded = percent_decode(path).into_cow(alloc)?;
        Ok(self.find_decoded(method, decoded.as_slice()))
    }
}

/// What a method and a decoded path ask for, by a router of its own.
pub fn route(alloc: Global, method: &str, path: &str) -> Result<Route, NoMemory>
    ensures { IfOk result (λ r. r ≡ route_of method.now path.now) }
{
    let routes = Routes::new(alloc)?;
    Ok(routes.find(method, path))
}
