//! Closes a month: reads the mail, runs the phases, stores the reports, writes the tables. Where
//! memory runs out, private calls answer AllocError. See docs/RULES.md, "Closing a month".
ghost use Rattle.std.specs.Prelude.{◌≡◌, ◌<◌, ℕ, IfOk, IfErr, OnOk, length};
ghost use Rattle.std.specs.FinMap as map;
ghost use Rattle.atl_words.specs.declared.mail_fault.MailFault.TheVariants.{Memory};
ghost use Rattle.atl_orders.specs.Mailing.{IsReadWith};
ghost use Rattle.atl_words.specs.Header.{IsMailingOf};
ghost use Rattle.atl_campaign.specs.Covers.{MarksChanges};
ghost use Rattle.atl_campaign.specs.Good.{IsGood};
ghost use Rattle.atl_records.specs.Limits.{last_month};
ghost use Rattle.atl_commands.specs.declared.command.Command.TheVariants as command;
ghost use Rattle.atl_commands.specs.Answering.{AnswersOrFails, IsReadyToAnswer};
ghost use Rattle.atl_commands.specs.Closing.{closed};
ghost use Rattle.atl_commands.specs.Months.{AreFactions, HasRead, MayClose, reported_to_all};
ghost use Rattle.atl_commands.specs.Step.{step};

use crate::command::{Answer, Refusal};
use crate::reporting::{MonthResult, report_to_all};
use atl_campaign::{Campaign, LAST_MONTH};
use atl_keeping::{WriteFault, write_changes};
use atl_month::close_month;
use atl_orders::{FaultyLine, MailFault, Mailing, read_mailing};
use atl_world::{Numbered, Sequence, World};
use sqlite::{Alter, Connection};
use std::alloc::{AllocError, Global};
use std::mem;

/// All mail of a campaign after reading: the mailings, and the faulty lines of each by faction.
#[derive(Drop)]
pub(crate) struct ReadMail {
    pub(crate) mailings: Vec<Mailing>,
    pub(crate) faults: Numbered<Sequence<FaultyLine>>,
}

/// Memory is the only fault that reading a stored mailing can give.
fn out_of_memory(fault: MailFault) -> AllocError
    requires { fault ≡ Memory }
{
    let _fault = fault;
    AllocError
}

/// Reads a mailing that a faction may have stored (`IsMailingOf`), so only memory can run out.
fn read_stored(alloc: Global, world: &World, text: &[u8]) -> Result<Mailing, AllocError>
    requires { (faction : ℕ) × IsMailingOf faction text.now }
    ensures kept { IfOk result (λ m. m.text ≡ text.now) }
    ensures read { IfOk result (IsReadWith world.now) }
{
    match read_mailing(alloc, world, text) {
        Ok(mailing) => Ok(mailing),
        Err(fault) => Err(out_of_memory(fault)),
    }
}

/// Reads the mailings that a good campaign has, in the order of the factions' numbers.
fn read_mail(alloc: Global, world: &World, campaign: &Campaign) -> Result<ReadMail, AllocError>
    requires { IsGood world.now campaign.now.value }
    ensures { IfOk result (HasRead world.now campaign.now.value) }
{
    let mut mailings = Vec::new(alloc);
    let mut faults = Numbered::new(alloc);
    for (faction, text) in campaign.mail() {
        let mailing = read_stored(alloc, world, text.as_slice())?;
        let wrong = Sequence::from_slice(alloc, mailing.faults.as_slice())?;
        faults.insert(faction, wrong)?;
        mailings.push(mailing)?;
    }
    Ok(ReadMail { mailings, faults })
}

/// Runs the phases, counts the month, removes the mail, marks what changed, and returns what the
/// reports need. The campaign has to be good, its month below 9,999, and `words` one for each
/// region. If memory runs out, the campaign may be lost, with a blank one in its place.
fn turn_month(
    alloc: Global,
    world: &World,
    campaign: &mut Campaign,
    words: &[u32],
) -> Result<MonthResult, AllocError>
    requires good { IsGood world.now campaign.old.value }
    requires month { campaign.old.value.month < last_month }
    requires words { length words.now ≡ map.len world.now.regions }
    ensures outcome { IfOk result
        (λ outcome. reported_to_all world.now campaign.new.value outcome
        ≡ closed world.now campaign.old.value words.now) }
    ensures there { IfOk result (λ outcome. AreFactions campaign.new.value outcome.factions.items) }
    ensures good { OnOk result (IsGood world.now campaign.new.value) }
    ensures marks { OnOk result (MarksChanges campaign.old campaign.new) }
{
    let ReadMail { mailings, faults } = read_mail(alloc, world, campaign)?;
    let factions = campaign.active()?;
    let before = mem::replace(campaign, Campaign::blank(alloc));
    let (after, events) = close_month(alloc, world, before, mailings, words)?;
    *campaign = after;
    campaign.set_month(campaign.month() + 1);
    campaign.clear_mail();
    Ok(MonthResult {
        factions,
        faults,
        events,
    })
}

/// Refuses to close this month of a good campaign with the first that applies of WrongPass,
/// WrongMonth, MonthLimit and WrongDice. Where none does, the month may be closed (`MayClose`).
#[tactic(auto, unfolding(crate::specs::Step::step))]
fn check_close(
    world: &World,
    campaign: &Campaign,
    month: u32,
    pass: &Sequence<u8>,
    words: &Sequence<u32>,
) -> Result<(), Refusal>
    requires good { IsGood world.now campaign.now.value }
    ensures ok { OnOk result (MayClose world.now campaign.now.value month pass.now words.now) }
    ensures err { IfErr result
        (λ why. step world.now campaign.now.value (command.Close month pass.now words.now)
        ≡ (campaign.now.value, Answer.Refused why)) }
{
    if campaign.pass().as_bytes() != pass.as_slice() {
        return Err(Refusal::WrongPass);
    }
    if month != campaign.month() + 1 {
        return Err(Refusal::WrongMonth);
    }
    if month > LAST_MONTH {
        return Err(Refusal::MonthLimit);
    }
    if words.len() != world.regions().len() {
        return Err(Refusal::WrongDice);
    }
    Ok(())
}

/// Closes the month and writes it, or refuses to. The campaign has to be good, and the connection
/// in no transaction. The commit is the last call that can fail. After an Err the campaign in
/// memory may be lost. On a clean disk, tables that held the one before still do, while the
/// connection is open.
pub(crate) fn close<S: Alter>(
    alloc: Global,
    world: &World,
    campaign: &mut Campaign,
    conn: &mut Connection<S>,
    month: u32,
    pass: &Sequence<u8>,
    words: &Sequence<u32>,
) -> Result<Answer, WriteFault>
    requires { IsReadyToAnswer world.now campaign.old.value conn.old }
    ensures { AnswersOrFails S.Store world.now campaign.old conn.old
        (command.Close month pass.now words.now) result campaign.new conn.new }
{
    if let Err(refusal) = check_close(world, campaign, month, pass, words) {
        return Ok(Answer::Refused(refusal));
    }
    let outcome = turn_month(alloc, world, campaign, words.as_slice())?;
    report_to_all(alloc, world, campaign, &outcome)?;
    write_changes(conn, campaign)?;
    Ok(Answer::MonthDone { month })
}
