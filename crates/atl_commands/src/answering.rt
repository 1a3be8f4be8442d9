//! Answers one command while the service is open: refuses it, or changes campaign and tables. Where
//! a call takes the connection, this has to be in no transaction, and the campaign good; after an
//! Err of it the campaign in memory may be changed in part, or lost. On a clean disk, tables that
//! held it before still do, while the connection is open. See docs/RULES.md, "Refusals and faults".
ghost use Rattle.std.specs.Prelude.{◌≡◌, length, Ok, Err, Some, IfOk, IfErr, OnOk};
ghost use Rattle.std.specs.FinMap as map;
ghost use Rattle.atl_words.specs.Header.{IsMailingOf};
ghost use Rattle.atl_campaign.specs.Good.{IsActive};
ghost use Rattle.atl_campaign.specs.Campaign.{with_mail};
ghost use Rattle.atl_commands.specs.Step.{faction_with_pass, step};
ghost use Rattle.atl_commands.specs.Answering.{AnswersOrFails, Denies, IsNoFault, IsReadyToAnswer, mail_error};

use crate::closing::close;
use crate::command::{Answer, Command, Refusal};
use crate::reporting::store_first_report;
use atl_campaign::{Campaign, Faction, JoinFault};
use atl_keeping::{WriteFault, write_join, write_mail};
use atl_orders::{MailFault, Mailing, read_mailing};
use atl_world::{Sequence, Text, World, name_ok, pass_ok};
use sqlite::{Alter, Connection};
use std::alloc::{AllocError, Global};

/// Refuses a join, or makes it and writes it. The commit is the last call that can fail.
fn join<S: Alter>(
    alloc: Global,
    world: &World,
    campaign: &mut Campaign,
    conn: &mut Connection<S>,
    name: &Sequence<u8>,
    pass: &Sequence<u8>,
    word: u32,
) -> Result<Answer, WriteFault>
    requires { IsReadyToAnswer world.now campaign.old.value conn.old }
    ensures { AnswersOrFails S.Store world.now campaign.old conn.old
        (Command.Join name.now pass.now word) result campaign.new conn.new }
{
    if !name_ok(name.as_slice()) {
        return Ok(Answer::Refused(Refusal::BadName));
    }
    if !pass_ok(pass.as_slice()) {
        return Ok(Answer::Refused(Refusal::BadPassText));
    }
    let (faction, unit) = match campaign.join(world, name.as_slice(), pass.as_slice(), word) {
        Ok(numbers) => numbers,
        Err(JoinFault::NameTaken) => return Ok(Answer::Refused(Refusal::NameTaken)),
        Err(JoinFault::Full) => return Ok(Answer::Refused(Refusal::Full)),
        Err(JoinFault::Memory) => return Err(WriteFault::Memory),
    };
    store_first_report(alloc, world, campaign, faction)?;
    write_join(conn, campaign, faction)?;
    campaign.unmark();
    Ok(Answer::Joined { faction, unit })
}

fn faction_with_pass<'a>(
    campaign: &'a Campaign,
    faction: u32,
    pass: &Sequence<u8>,
) -> Result<&'a Faction, Refusal>
    ensures ok { IfOk result
        (λ f. faction_with_pass pass.now (map.get campaign.now.value.factions faction) ≡ Ok f.now) }
    ensures there { IfOk result (λ f. map.get campaign.now.value.factions faction ≡ Some f.now) }
    ensures err { IfErr result
        (λ why. faction_with_pass pass.now (map.get campaign.now.value.factions faction)
        ≡ Err why) }
{
    let known = campaign.faction(faction).ok_or(Refusal::NoFaction)?;
    if known.pass.as_bytes() != pass.as_slice() {
        return Err(Refusal::WrongPass);
    }
    Ok(known)
}

/// Why a mailing is not stored: it is refused, or memory ran out.
#[derive(Drop, Clone, Copy)]
enum MailError {
    Refused(Refusal),
    Memory,
}

impl From<Refusal> for MailError {
    ghost use Rattle.atl_commands.specs.declared.answering.MailError.TheVariants.{Refused};

    ghost from_gives = { λ refusal unkept. unkept ≡ Refused refusal };

    fn from(refusal: Refusal) -> MailError {
        MailError::Refused(refusal)
    }
}

impl From<MailFault> for MailError {
    ghost from_gives = { λ fault unkept. unkept ≡ mail_error fault };

    fn from(fault: MailFault) -> MailError {
        match fault {
            MailFault::TooLong => MailError::Refused(Refusal::TooLong),
            MailFault::NoHeader => MailError::Refused(Refusal::NoHeader),
            MailFault::BadHeader => MailError::Refused(Refusal::BadHeader),
            MailFault::Memory => MailError::Memory,
        }
    }
}

/// The mailing as read, if it may be stored; Memory if memory ran out. The refusals in their order:
/// NoFaction, WrongPass, Gone, TooLong or NoHeader or BadHeader of the text, WrongFaction.
#[tactic(auto, unfolding(crate::specs::Step::step))]
fn mailing_to_keep(
    alloc: Global,
    world: &World,
    campaign: &Campaign,
    faction: u32,
    pass: &Sequence<u8>,
    text: &Sequence<u8>,
) -> Result<Mailing, MailError>
    ensures step { IfOk result
        (λ m. step world.now campaign.now.value (Command.Mail faction pass.now text.now)
        ≡ (
          with_mail campaign.now.value faction text.now,
          Answer.Mailed (length m.entries)
              m.faults,
        )) }
    ensures text { IfOk result (λ m. m.text ≡ text.now) }
    ensures own { OnOk result (IsMailingOf faction text.now) }
    ensures active { OnOk result (IsActive campaign.now.value faction) }
    ensures refused { IfErr result
        (Denies world.now campaign.now.value (Command.Mail faction pass.now text.now)) }
{
    let known = faction_with_pass(campaign, faction, pass)?;
    if known.gone {
        return Err(MailError::Refused(Refusal::Gone));
    }
    let mailing = read_mailing(alloc, world, text.as_slice())?;
    if mailing.faction != faction {
        return Err(MailError::Refused(Refusal::WrongFaction));
    }
    Ok(mailing)
}

/// Refuses a mailing, or stores it and writes it. The commit is the last call that can fail.
fn mail<S: Alter>(
    alloc: Global,
    world: &World,
    campaign: &mut Campaign,
    conn: &mut Connection<S>,
    faction: u32,
    pass: &Sequence<u8>,
    text: &Sequence<u8>,
) -> Result<Answer, WriteFault>
    requires { IsReadyToAnswer world.now campaign.old.value conn.old }
    ensures { AnswersOrFails S.Store world.now campaign.old conn.old
        (Command.Mail faction pass.now text.now) result campaign.new conn.new }
{
    let mailing = match mailing_to_keep(alloc, world, campaign, faction, pass, text) {
        Ok(mailing) => mailing,
        Err(MailError::Refused(refusal)) => return Ok(Answer::Refused(refusal)),
        Err(MailError::Memory) => return Err(WriteFault::Memory),
    };
    let orders = mailing.entries.len();
    let (kept, _, faults) = mailing.into_parts();
    campaign.set_mail(faction, kept)?;
    write_mail(conn, faction, text.as_slice())?;
    campaign.unmark();
    Ok(Answer::Mailed { orders, faults })
}

/// The stored report of a faction, empty if none is stored; or the refusal NoFaction, else
/// WrongPass. AllocError without memory.
#[tactic(auto, unfolding(crate::specs::Step::step))]
fn report(
    alloc: Global,
    world: &World,
    campaign: &Campaign,
    faction: u32,
    pass: &Sequence<u8>,
) -> Result<Answer, AllocError>
    ensures step { IfOk result
        (λ answer. step world.now campaign.now.value (Command.Report faction pass.now)
        ≡ (campaign.now.value, answer)) }
    ensures no_fault { IfOk result IsNoFault }
{
    if let Err(refusal) = faction_with_pass(campaign, faction, pass) {
        return Ok(Answer::Refused(refusal));
    }
    let text = match campaign.report(faction) {
        Some(report) => report.copy(alloc)?,
        None => Text::from_str(alloc, "")?,
    };
    Ok(Answer::Text(text))
}

/// Answers one command: carries it out, refuses it, or fails with the fault Memory or Store.
pub(crate) fn answer_to<S: Alter>(
    alloc: Global,
    world: &World,
    campaign: &mut Campaign,
    conn: &mut Connection<S>,
    command: &Command,
) -> Result<Answer, WriteFault>
    requires { IsReadyToAnswer world.now campaign.old.value conn.old }
    ensures { AnswersOrFails S.Store world.now campaign.old conn.old
        command.now result campaign.new conn.new }
{
    match command {
        Command::Join { name, pass, word } => {
            join(alloc, world, campaign, conn, name, pass, *word)
        }
        Command::Mail {
            faction,
            pass,
            text,
        } => mail(alloc, world, campaign, conn, *faction, pass, text),
        Command::Close { month, pass, words } => {
            close(alloc, world, campaign, conn, *month, pass, words)
        }
        Command::Report { faction, pass } => { Ok(report(alloc, world, campaign, *faction, pass)?) }
    }
}
