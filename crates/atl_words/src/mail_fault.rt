//! Why a text can't be read as a mailing. See docs/FORMATS.md, "Mailings".
ghost use Rattle.std.specs.Prelude.{◌≡◌};
ghost use Rattle.atl_words.specs.declared.mail_fault.MailFault.TheVariants.{Memory};

use std::alloc::AllocError;
use std::error::Error;
use std::fmt;

/// Why a text can't be read as a mailing: what is wrong with it, or that memory ran out.
/// See docs/FORMATS.md, "Mailings".
#[derive(Drop, Clone, Copy, Debug, PartialEq, Eq)]
pub enum MailFault {
    /// The text has more than `MOST_BYTES` bytes.
    TooLong,
    /// No line's first word is `#ATLANTIS`, in any case.
    NoHeader,
    /// The header, the first line that begins with `#ATLANTIS`, has no number from 1 to
    /// `LAST_FACTION` as its second word.
    BadHeader,
    /// Memory ran out; the text may be a mailing or not.
    Memory,
}

impl MailFault {
    ghost use Rattle.atl_words.specs.MailFaults.{mail_fault_number};

    /// The number of the mail fault, from 1 to 3; `Memory` has none.
    pub fn number(self) -> Option<u8>
        ensures { result ≡ mail_fault_number self }
    {
        match self {
            MailFault::TooLong => Some(1),
            MailFault::NoHeader => Some(2),
            MailFault::BadHeader => Some(3),
            MailFault::Memory => None,
        }
    }
}

/// Writes the fault's number and name, as `2 NoHeader`; of `Memory` its name alone.
impl fmt::Display for MailFault {
    fn fmt<W: fmt::Write>(&self, f: &mut fmt::Formatter<W>) -> fmt::Result {
        match self.number() {
            Some(number) => write!(f, "{number} {self:?}"),
            None => write!(f, "{self:?}"),
        }
    }
}

impl Error for MailFault {}

impl From<AllocError> for MailFault {
    ghost from_gives = { λ _ e. e ≡ Memory };

    fn from(_error: AllocError) -> MailFault {
        MailFault::Memory
    }
}
