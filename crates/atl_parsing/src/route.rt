//! The routes, and the route of a path. See docs/FORMATS.md, "HTTP".
ghost use Rattle.std.specs.Prelude.{◌≡◌, ◌≤◌, Ok, IfOk, OnOk, length, option_map};
ghost use Rattle.std.specs.List.{position, position_or_len};
ghost use Rattle.matchit.specs.Route.{parse_route};
ghost use Rattle.matchit.specs.Router.{InsertsRead};
ghost use Rattle.atl_parsing.specs.Routes.{number_of, route_of, method_of, is_question, path_of};
ghost use Rattle.atl_parsing.specs.Routing.{route_rows, route_in};

use http::Method;
use matchit::Router;
use std::alloc::{AllocError, Global};
use std::str;

/// The most digits of a number in a path.
const MOST_DIGITS: usize = 9;

/// The route of a path, with the number in it. See docs/FORMATS.md, "HTTP".
#[derive(Drop, Clone, Copy, Debug, PartialEq, Eq)]
pub enum Route {
    Join,
    /// The mailing of the faction of this number.
    Orders(u32),
    /// Closes the month of this number.
    Close(u32),
    /// The report of the faction of this number.
    Report(u32),
}

/// A route without its number, as the router stores it.
#[derive(Drop, Clone, Copy)]
pub(crate) enum RouteKey {
    Join,
    Orders,
    Close,
    Report,
}

impl Route {
    /// The one HTTP method that the route takes.
    pub fn method(self) -> Method
        ensures { result ≡ method_of self }
    {
        match self {
            Route::Join | Route::Orders(_) | Route::Close(_) => Method::POST,
            Route::Report(_) => Method::GET,
        }
    }
}

/// The number that 1 to 9 decimal digits write; None for any other text.
#[tactic(auto, unfolding(crate::specs::Routes::number_of))]
pub fn number_of(bytes: &[u8]) -> Option<u32>
    ensures { result ≡ number_of bytes.now }
{
    if bytes.is_empty() || MOST_DIGITS < bytes.len() {
        return None;
    }
    let mut value: u64 = 0;
    for byte in bytes {
        if !byte.is_ascii_digit() {
            return None;
        }
        value = 10 * value + u64::from(*byte - b'0');
    }
    Some(value as u32)
}

fn first_question(bytes: &[u8]) -> Option<usize>
    ensures { result ≡ position is_question bytes.now }
{
    bytes.iter().position(|byte| *byte == b'?')
}

#[tactic(auto, using(atl_words::proofs::WordLaws::found_or_len, atl_words::proofs::WordLaws::found_within))]
fn end_of_path(target: &[u8]) -> usize
    ensures value { result ≡ position_or_len is_question target.now }
    ensures within { result ≤ length target.now }
{
    first_question(target).unwrap_or(target.len())
}

/// The path of a target: its bytes before the first question mark, or all of them without one.
pub fn path_of(target: &[u8]) -> &[u8]
    ensures { result.now ≡ path_of target.now }
{
    let end = end_of_path(target);
    &target[..end]
}

/// Adds a route with its key. An error means that memory ran out: the four routes don't conflict.
fn add(router: &mut Router<RouteKey>, route: &str, key: RouteKey) -> Result<(), AllocError>
    ensures { OnOk result (InsertsRead (parse_route route.now) key router.old router.new
        (Ok tt)) }
{
    match router.insert(route, key) {
        Ok(()) => Ok(()),
        Err(_) => Err(AllocError),
    }
}

fn router(alloc: Global) -> Result<Router<RouteKey>, AllocError>
    ensures { IfOk result (λ router. router ≡ route_rows) }
{
    let mut router = Router::new(alloc);
    add(&mut router, "/join", RouteKey::Join)?;
    add(&mut router, "/orders/{number}", RouteKey::Orders)?;
    add(&mut router, "/close/{number}", RouteKey::Close)?;
    add(&mut router, "/report/{number}", RouteKey::Report)?;
    Ok(router)
}

fn route_in(key: RouteKey, parameter: Option<&str>) -> Option<Route>
    ensures { result ≡ route_in key (option_map (λ text. text.now) parameter.entry) }
{
    match (key, parameter) {
        (RouteKey::Join, _) => Some(Route::Join),
        (RouteKey::Orders, Some(text)) => number_of(text.as_bytes()).map(Route::Orders),
        (RouteKey::Close, Some(text)) => number_of(text.as_bytes()).map(Route::Close),
        (RouteKey::Report, Some(text)) => number_of(text.as_bytes()).map(Route::Report),
        (RouteKey::Orders | RouteKey::Close | RouteKey::Report, None) => None,
    }
}

fn route_by(router: &Router<RouteKey>, path: &str) -> Option<Route>
    requires { router.now ≡ route_rows }
    ensures { result ≡ route_of path.now }
{
    match router.at(path) {
        Ok(found) => route_in(*found.value, found.params.get("number")),
        Err(_) => None,
    }
}

/// The route of a path; None if it has none, as each path that isn't UTF-8. AllocError without
/// memory for the routes.
pub(crate) fn route_of(alloc: Global, path: &[u8]) -> Result<Option<Route>, AllocError>
    ensures { IfOk result (λ route. route ≡ route_of path.now) }
{
    let Ok(path) = str::from_utf8(path) else {
        return Ok(None);
    };
    let router = router(alloc)?;
    Ok(route_by(&router, path))
}
