//! The problems of a request that fails a check, with their names and HTTP statuses. See
//! docs/FORMATS.md, "HTTP".
ghost use Rattle.std.specs.Prelude.{◌≡◌};
ghost use Rattle.atl_parsing.specs.Replies.{problem_name, problem_status};

use crate::route::Route;
use http::StatusCode;
use std::alloc::AllocError;
use std::error::Error;
use std::fmt;

/// Why a request is refused before any command is run: the first check that it fails. See
/// docs/FORMATS.md, "HTTP".
#[derive(Drop, Clone, Copy, Debug, PartialEq, Eq)]
pub enum Problem {
    /// The head is none of HTTP/1, is too long, or has too many fields. Or it has, in HTTP/1.1, not
    /// one Host, or, in a POST, several fields Content-Length or a faulty one.
    BadRequest,
    /// No route has this path.
    NoRoute,
    /// The request's method isn't the one of its route.
    BadMethod(Route),
    /// The request doesn't give the length of its body, or sends it in another coding.
    NoLength,
    /// The body has more bytes than a mailing may have.
    BodyTooLong,
    /// There isn't exactly one field Atlantis-Pass.
    NoPass,
    /// The body of a join is not a JSON object with the texts `name` and `pass`.
    BadJson,
}

impl Problem {
    /// The problem's name, as `NoRoute` in the body of the reply.
    pub fn name(self) -> &'static str
        ensures { result.now ≡ problem_name self }
    {
        match self {
            Problem::BadRequest => "BadRequest",
            Problem::NoRoute => "NoRoute",
            Problem::BadMethod(_) => "BadMethod",
            Problem::NoLength => "NoLength",
            Problem::BodyTooLong => "BodyTooLong",
            Problem::NoPass => "NoPass",
            Problem::BadJson => "BadJson",
        }
    }

    /// The HTTP status of the reply to the problem.
    pub fn status(self) -> StatusCode
        ensures { result ≡ problem_status self }
    {
        match self {
            Problem::BadRequest | Problem::NoPass | Problem::BadJson => StatusCode::BAD_REQUEST,
            Problem::NoRoute => StatusCode::NOT_FOUND,
            Problem::BadMethod(_) => StatusCode::METHOD_NOT_ALLOWED,
            Problem::NoLength => StatusCode::LENGTH_REQUIRED,
            Problem::BodyTooLong => StatusCode::PAYLOAD_TOO_LARGE,
        }
    }
}

impl fmt::Display for Problem {
    fn fmt<W: fmt::Write>(&self, f: &mut fmt::Formatter<W>) -> fmt::Result {
        write!(f, "{}", self.name())
    }
}

impl Error for Problem {}

/// Why checking a request ended: out of memory, or a check failed.
#[derive(Drop, Clone, Copy)]
pub(crate) enum CheckError {
    Memory,
    Failed(Problem),
}

impl From<AllocError> for CheckError {
    ghost use Rattle.atl_parsing.specs.declared.problem.CheckError.TheVariants.{Memory};

    ghost from_gives = { λ _ e. e ≡ Memory };

    fn from(_e: AllocError) -> CheckError {
        CheckError::Memory
    }
}
