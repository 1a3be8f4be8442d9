//! A request that passed its checks, and the verdict on the bytes received so far.
ghost use Rattle.std.specs.Prelude.{◌≡◌};

use crate::problem::Problem;
use atl_world::Sequence;

/// A whole request that passed all five checks: join, orders, close or report.
#[derive(Drop)]
pub enum Request {
    /// A faction joins, under a name, with a pass text of its own.
    Join {
        name: Sequence<u8>,
        /// The pass text that the faction's later requests must give.
        pass: Sequence<u8>,
    },
    /// A faction sends its orders.
    Orders {
        faction: u32,
        pass: Sequence<u8>,
        /// The mailing: the bytes of the body.
        text: Sequence<u8>,
    },
    /// The moderator closes a month.
    Close {
        month: u32,
        pass: Sequence<u8>,
    },
    /// A faction asks for its report.
    Report {
        faction: u32,
        pass: Sequence<u8>,
    },
}

/// The verdict on the bytes received so far: more to read, refused, or a whole request.
#[derive(Drop)]
pub enum Verdict {
    /// The request isn't whole: more is to be read.
    More,
    /// The request fails a check, whatever follows.
    Refused(Problem),
    /// The request is whole and passes each check but that of its command.
    Asks(Request),
}

/// The final verdict on a request, after which no more is read.
#[derive(Drop)]
pub enum FinalVerdict {
    Refused(Problem),
    Asks(Request),
}

/// The final verdict on the bytes received so far, or how many more are missing.
#[derive(Drop)]
pub enum Progress {
    /// The request isn't whole, and needs at least this many bytes more, which is 1 or more.
    Missing(usize),
    Ends(FinalVerdict),
}

impl Progress {
    ghost use Rattle.atl_parsing.specs.Heads.{verdict_by};

    /// The verdict of this progress: More while bytes are missing, else the final one.
    pub fn verdict(self) -> Verdict
        ensures { result ≡ verdict_by self }
    {
        match self {
            Progress::Missing(_) => Verdict::More,
            Progress::Ends(FinalVerdict::Refused(problem)) => Verdict::Refused(problem),
            Progress::Ends(FinalVerdict::Asks(request)) => Verdict::Asks(request),
        }
    }
}
