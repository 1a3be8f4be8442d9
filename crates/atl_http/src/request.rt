//! A request that passed its checks, and its command.
ghost use Rattle.std.specs.Prelude.{◌≡◌, IfOk};
ghost use Rattle.atl_http.specs.Serving.{command_of};

use atl_commands::Command;
use atl_requests::Dice;
pub use atl_requests::request::{FinalVerdict, Progress, Request, Verdict};
use atl_world::Sequence;
use std::alloc::{AllocError, Global};

/// A request whose command can be made.
pub trait IntoCommand {
    /// Makes the command of the request. A join gets the word of the dice for the faction that
    /// joins, whose number is `next`. A close gets the words of its month, one for each of the
    /// `regions` regions. AllocError without memory for these words.
    fn into_command(
        self,
        alloc: Global,
        dice: Dice,
        next: u32,
        regions: usize,
    ) -> Result<Command, AllocError>;
}

impl IntoCommand for Request {
    fn into_command(
        self,
        alloc: Global,
        dice: Dice,
        next: u32,
        regions: usize,
    ) -> Result<Command, AllocError>
        ensures { IfOk result (λ command. command ≡ command_of dice next regions self) }
    {
        match self {
            Request::Join { name, pass } => Ok(Command::Join {
                name,
                pass,
                word: dice.join_word(next),
            }),
            Request::Orders {
                faction,
                pass,
                text,
            } => Ok(Command::Mail {
                faction,
                pass,
                text,
            }),
            Request::Close { month, pass } => {
                let words = dice.month_words(alloc, month, regions)?;
                Ok(Command::Close {
                    month,
                    pass,
                    words: Sequence::from_vec(words),
                })
            }
            Request::Report { faction, pass } => Ok(Command::Report { faction, pass }),
        }
    }
}
