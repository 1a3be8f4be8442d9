//! Serves one request: reads it, runs its command, and writes the reply. `outcome` is the final
//! verdict on the request: the problem for which it is refused, or what it asks for.
ghost use Rattle.std.specs.Prelude.{◌≡◌, IfOk, OnErr};
ghost use Rattle.std.specs.FinMap.{len};
ghost use Rattle.atl_requests.specs.Calls.{no_reads, no_writes, EndsBy};
ghost use Rattle.atl_commands.specs.Runs.{Runs};
ghost use Rattle.atl_http.specs.Serving.{command_in, Serves, RepliesWith};
ghost use Rattle.atl_http.specs.Listening.{IsServed};

use crate::answering::answer_message;
use crate::request::IntoCommand;
use atl_commands::{Answer, Service};
use atl_requests::calls::{ReadCalls, WriteCalls};
use atl_requests::io::{receive, send};
use atl_requests::message::{Message, problem_message};
use atl_requests::{Dice, FinalVerdict, HttpFault, Request};
use sqlite::Alter;
use std::alloc::{AllocError, Global};
use std::io::{Read, Write};

/// Runs the command that a request asks for, with words of the dice, and returns its answer. A join
/// has the word for the faction that joins next, a close the words for its month, one for each
/// region of the world. AllocError without memory for these words: then nothing is changed.
pub fn run_request<S: Alter>(
    alloc: Global,
    service: &mut Service<S>,
    dice: Dice,
    request: Request,
) -> Result<Answer, AllocError>
    ensures ok { IfOk result
        (λ answer. Runs S.Store service.old (command_in dice service.old request) answer
        service.new) }
    ensures err { OnErr result (service.new ≡ service.old) }
{
    let next = match service.campaign() {
        Some(campaign) => campaign.next_faction(),
        None => 0,
    };
    let regions = service.world().regions().len();
    let command = request.into_command(alloc, dice, next, regions)?;
    Ok(service.run(&command))
}

/// Makes the reply, after running the command of a request that isn't refused. After an AllocError
/// the command has been run or not.
fn reply_to<S: Alter>(
    alloc: Global,
    service: &mut Service<S>,
    dice: Dice,
    outcome: FinalVerdict,
) -> Result<Message, AllocError>
    ensures { RepliesWith S.Store dice service.old outcome result service.new }
{
    match outcome {
        FinalVerdict::Refused(problem) => problem_message(alloc, problem),
        FinalVerdict::Asks(request) => {
            let answer = run_request(alloc, service, dice, request)?;
            answer_message(alloc, &answer)
        }
    }
}

/// Reads one request, runs its command, writes the reply and returns its status. It counts the
/// reads and the interrupted writes in `reads` and `writes`, which begin with none and say how both
/// ended. A fault says why there is no whole reply.
pub fn serve_counted<R: Read, W: Write, S: Alter>(
    alloc: Global,
    reader: &mut R,
    reads: &mut ReadCalls,
    writer: &mut W,
    writes: &mut WriteCalls,
    service: &mut Service<S>,
    dice: Dice,
) -> Result<u16, HttpFault>
    requires no_reads { reads.old ≡ no_reads }
    requires no_writes { writes.old ≡ no_writes }
    ensures serves { Serves S.Store dice
        (record { left = R.remaining reader.old; held = W.contents writer.old })
        (record { left = R.remaining reader.new; held = W.contents writer.new }) service.old
        result service.new }
    ensures ends { EndsBy reads.new writes.new result }
{
    let mut seen = Vec::new(alloc);
    let outcome = match receive(alloc, reader, reads, &mut seen) {
        Ok(outcome) => outcome,
        Err(fault) => return Err(fault),
    };
    let Ok(message) = reply_to(alloc, service, dice, outcome) else {
        return Err(HttpFault::Memory);
    };
    match send(writer, writes, message.bytes.as_bytes()) {
        Ok(()) => Ok(message.status),
        Err(fault) => Err(fault),
    }
}

/// Reads one request, checks it, runs its command, writes the reply, and returns the status. The
/// words of a join and of a close are those of the dice. Once the request is whole or refused,
/// nothing more is read. It ends after at most 1,000,000 reads, and as many writes that are
/// interrupted. A fault says why there is no whole reply. See docs/FORMATS.md, "HTTP".
pub fn serve_one<R: Read, W: Write, S: Alter>(
    alloc: Global,
    reader: &mut R,
    writer: &mut W,
    service: &mut Service<S>,
    dice: Dice,
) -> Result<u16, HttpFault>
    ensures { Serves S.Store dice
        (record { left = R.remaining reader.old; held = W.contents writer.old })
        (record { left = R.remaining reader.new; held = W.contents writer.new }) service.old
        result service.new }
{
    let mut reads = ReadCalls::none();
    let mut writes = WriteCalls::none();
    serve_counted(
        alloc,
        reader,
        &mut reads,
        writer,
        &mut writes,
        service,
        dice,
    )
}

/// Reads one request of a peer, runs its command, writes the reply to the peer and returns its
/// status. A fault says why there is no whole reply. The contract doesn't say which bytes are read
/// and written, since those of a socket aren't known.
pub fn serve_peer<P: Read + Write, S: Alter>(
    alloc: Global,
    peer: &mut P,
    service: &mut Service<S>,
    dice: Dice,
) -> Result<u16, HttpFault>
    ensures { IsServed S.Store dice service.old result service.new }
{
    let mut reads = ReadCalls::none();
    let mut writes = WriteCalls::none();
    let mut seen = Vec::new(alloc);
    let outcome = match receive(alloc, peer, &mut reads, &mut seen) {
        Ok(outcome) => outcome,
        Err(fault) => return Err(fault),
    };
    let Ok(message) = reply_to(alloc, service, dice, outcome) else {
        return Err(HttpFault::Memory);
    };
    match send(peer, &mut writes, message.bytes.as_bytes()) {
        Ok(()) => Ok(message.status),
        Err(fault) => Err(fault),
    }
}
