//! Checks the head and the body of a request, in the order of docs/FORMATS.md, "HTTP". `minor` is
//! the digit after `HTTP/1.`, and `method` and `target` are the first two words, as `GET` and
//! `/report/3`. `fields` says where name and value of each field are, all within `bytes`; the ASCII
//! case of names is ignored. Each check gives what its definition of the same name says, or Memory.
ghost use Rattle.std.specs.Prelude.{◌≡◌, All, length, bytes_eq};
ghost use Rattle.httparse.specs.Spans.{IsHeaderWithin};
ghost use Rattle.serde_json.specs.View.{view};
ghost use Rattle.atl_parsing.specs.declared.problem.Problem.TheVariants.{BadJson};
ghost use Rattle.atl_parsing.specs.Routes.{number_of, method_of};
ghost use Rattle.atl_parsing.specs.Checks.{or_problem, has_host, requested_route, size_within, posted_size, size_of, pass_field, pass_of, json_of, text_at, joining, request_of, head_checks};
ghost use Rattle.atl_parsing.specs.Finding.{field_pairs, GivesAsDefined};

use crate::fields::{FieldLookup, find_value, only_value};
use crate::problem::{CheckError, Problem};
use crate::request::Request;
use crate::route::{Route, number_of, path_of, route_of};
use atl_words::MOST_BYTES;
use atl_world::Sequence;
use httparse::spans::HeaderSpan;
use serde_json::Value;
use std::alloc::Global;
use std::str;

const HOST: &[u8] = b"Host";

const TRANSFER_ENCODING: &[u8] = b"Transfer-Encoding";

const CONTENT_LENGTH: &[u8] = b"Content-Length";

const PASS: &[u8] = b"Atlantis-Pass";

#[tactic(auto, unfolding(crate::specs::Checks::has_host))]
fn has_host(minor: u8, bytes: &[u8], fields: &[HeaderSpan]) -> bool
    requires { All (IsHeaderWithin (length bytes.now)) fields.now }
    ensures { result ≡ has_host minor (field_pairs bytes.now fields.now) }
{
    minor == 0 || only_value(bytes, fields, HOST).is_some()
}

#[tactic(auto, unfolding(crate::specs::Checks::requested_route))]
fn requested_route(
    alloc: Global,
    minor: u8,
    method: &[u8],
    target: &[u8],
    bytes: &[u8],
    fields: &[HeaderSpan],
) -> Result<Route, CheckError>
    requires { All (IsHeaderWithin (length bytes.now)) fields.now }
    ensures { GivesAsDefined (λ route. route) result
        (requested_route minor method.now target.now (field_pairs bytes.now fields.now)) }
{
    if !has_host(minor, bytes, fields) {
        return Err(CheckError::Failed(Problem::BadRequest));
    }
    match route_of(alloc, path_of(target))? {
        None => Err(CheckError::Failed(Problem::NoRoute)),
        Some(route) if is_method(method, route) => Ok(route),
        Some(route) => Err(CheckError::Failed(Problem::BadMethod(route))),
    }
}

fn is_method(method: &[u8], route: Route) -> bool
    ensures { result ≡ bytes_eq method.now (method_of route) }
{
    method == route.method().as_str().as_bytes()
}

fn size_within(text: &[u8]) -> Result<usize, CheckError>
    ensures { GivesAsDefined (λ size. size) result (size_within (number_of text.now)) }
{
    match number_of(text) {
        None => Err(CheckError::Failed(Problem::BadRequest)),
        Some(size) if MOST_BYTES < size as usize => Err(CheckError::Failed(Problem::BodyTooLong)),
        Some(size) => Ok(size as usize),
    }
}

#[tactic(auto, unfolding(crate::specs::Checks::posted_size))]
fn posted_size(is_optional: bool, bytes: &[u8], fields: &[HeaderSpan]) -> Result<usize, CheckError>
    requires { All (IsHeaderWithin (length bytes.now)) fields.now }
    ensures { GivesAsDefined (λ size. size) result
        (posted_size is_optional (field_pairs bytes.now fields.now)) }
{
    if !matches!(
        find_value(bytes, fields, TRANSFER_ENCODING),
        FieldLookup::Nowhere
    ) {
        return Err(CheckError::Failed(Problem::NoLength));
    }
    match find_value(bytes, fields, CONTENT_LENGTH) {
        FieldLookup::Nowhere if is_optional => Ok(0),
        FieldLookup::Nowhere => Err(CheckError::Failed(Problem::NoLength)),
        FieldLookup::Once(value) => size_within(value.of(bytes)),
        FieldLookup::Several => Err(CheckError::Failed(Problem::BadRequest)),
    }
}

fn size_of(route: Route, bytes: &[u8], fields: &[HeaderSpan]) -> Result<usize, CheckError>
    requires { All (IsHeaderWithin (length bytes.now)) fields.now }
    ensures { GivesAsDefined (λ size. size) result
        (size_of route (field_pairs bytes.now fields.now)) }
{
    match route {
        Route::Join | Route::Orders(_) => posted_size(false, bytes, fields),
        Route::Close(_) => posted_size(true, bytes, fields),
        Route::Report(_) => Ok(0),
    }
}

#[tactic(auto, unfolding(crate::specs::Checks::pass_field))]
fn pass_field<'a>(bytes: &'a [u8], fields: &[HeaderSpan]) -> Result<&'a [u8], CheckError>
    requires { All (IsHeaderWithin (length bytes.now)) fields.now }
    ensures { GivesAsDefined (λ pass. pass.now) result
        (pass_field (field_pairs bytes.now fields.now)) }
{
    match only_value(bytes, fields, PASS) {
        None => Err(CheckError::Failed(Problem::NoPass)),
        Some(pass) => Ok(pass),
    }
}

fn pass_of<'a>(route: Route, bytes: &'a [u8], fields: &[HeaderSpan]) -> Result<&'a [u8], CheckError>
    requires { All (IsHeaderWithin (length bytes.now)) fields.now }
    ensures { GivesAsDefined (λ pass. pass.now) result
        (pass_of route (field_pairs bytes.now fields.now)) }
{
    match route {
        Route::Join => Ok(&[]),
        Route::Orders(_) | Route::Close(_) | Route::Report(_) => pass_field(bytes, fields),
    }
}

/// A head that passed the first four checks: its route, the length of its body, its pass text.
#[derive(Drop, Clone, Copy)]
pub(crate) struct ParsedHead<'a> {
    pub route: Route,
    pub size: usize,
    pub pass: &'a [u8],
}

/// The first four checks of a head: its route, body length and pass text, or the problem of the
/// first check that it fails. All that `fields` says must lie within `bytes`. Memory without memory
/// for the routes.
#[tactic(auto, unfolding(crate::specs::Checks::head_checks))]
pub fn head_checks<'a>(
    alloc: Global,
    minor: u8,
    method: &[u8],
    target: &[u8],
    bytes: &'a [u8],
    fields: &[HeaderSpan],
) -> Result<ParsedHead<'a>, CheckError>
    requires { All (IsHeaderWithin (length bytes.now)) fields.now }
    ensures { GivesAsDefined (λ w. (w.route, w.size, w.pass.now)) result
        (head_checks minor method.now target.now (field_pairs bytes.now fields.now)) }
{
    let route = requested_route(alloc, minor, method, target, bytes, fields)?;
    let size = size_of(route, bytes, fields)?;
    let pass = pass_of(route, bytes, fields)?;
    Ok(ParsedHead { route, size, pass })
}

fn json_of(alloc: Global, body: &[u8]) -> Result<Value, CheckError>
    ensures { GivesAsDefined view result (or_problem BadJson (json_of body.now)) }
{
    let Ok(text) = str::from_utf8(body) else {
        return Err(CheckError::Failed(Problem::BadJson));
    };
    match Value::from_str(alloc, text) {
        Ok(said) => Ok(said),
        Err(error) if error.is_memory() => Err(CheckError::Memory),
        Err(_) => Err(CheckError::Failed(Problem::BadJson)),
    }
}

fn text_at<'a>(said: &'a Value, key: &str) -> Result<&'a str, CheckError>
    ensures { GivesAsDefined (λ text. text.now) result
        (or_problem BadJson (text_at key.now (view said.now))) }
{
    match said.get(key).and_then(Value::as_str) {
        None => Err(CheckError::Failed(Problem::BadJson)),
        Some(text) => Ok(text),
    }
}

#[tactic(auto, unfolding(crate::specs::Checks::joining))]
fn joining(alloc: Global, body: &[u8]) -> Result<Request, CheckError>
    ensures { GivesAsDefined (λ request. request) result (joining body.now) }
{
    let said = json_of(alloc, body)?;
    let name = text_at(&said, "name")?;
    let pass = text_at(&said, "pass")?;
    Ok(Request::Join {
        name: Sequence::from_slice(alloc, name.as_bytes())?,
        pass: Sequence::from_slice(alloc, pass.as_bytes())?,
    })
}

/// Makes the request of a route, a pass text and a whole body. BadJson if the body of a join is no
/// JSON object with the texts `name` and `pass`; Memory without memory for the request.
pub fn request_of(
    alloc: Global,
    route: Route,
    pass: &[u8],
    body: &[u8],
) -> Result<Request, CheckError>
    ensures { GivesAsDefined (λ request. request) result (request_of route pass.now body.now) }
{
    match route {
        Route::Join => joining(alloc, body),
        Route::Orders(faction) => Ok(Request::Orders {
            faction,
            pass: Sequence::from_slice(alloc, pass)?,
            text: Sequence::from_slice(alloc, body)?,
        }),
        Route::Close(month) => Ok(Request::Close {
            month,
            pass: Sequence::from_slice(alloc, pass)?,
        }),
        Route::Report(faction) => Ok(Request::Report {
            faction,
            pass: Sequence::from_slice(alloc, pass)?,
        }),
    }
}
