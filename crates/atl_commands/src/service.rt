//! The service: a world and a campaign with the database connection that stores them. `run` and
//! `run_all` carry out commands.
ghost use Rattle.std.specs.Prelude.{◌≡◌, Ok, IfOk, OnErr, IfSome, IsSome, is_some, option_map, string_bytes};
ghost use Rattle.std.specs.Option.{option_copied};
ghost use Rattle.sqlite.specs.Held.{state};
ghost use Rattle.sqlite.specs.State.{HasCleanDisk};
ghost use Rattle.atl_tables.specs.World.{world_of};
ghost use Rattle.atl_campaign.specs.Totals.{Balances};
ghost use Rattle.atl_report.specs.Books.{books_of};

use crate::answering::answer_to;
use crate::command::{Answer, Command, Fault};
use atl_campaign::Campaign;
use atl_report::books_text;
use atl_world::{World, let_go};
use sqlite::{Alter, Connection};
use std::alloc::{AllocError, Global};
use std::marker::Model;
use std::mem;

/// A world and its campaign, in memory and in the tables of a connection. After a fault the service
/// is closed: then every command is answered Closed.
pub struct Service<S: Alter> {
    alloc: Global,
    conn: Connection<S>,
    world: World,
    campaign: Campaign,
    is_open: bool,
}

impl<S: Alter + Drop> Drop for Service<S> {
    fn drop(self) {
        let_go!(self: Service { alloc, conn, world, campaign, is_open });
    }
}

/// Contracts see a service as its connection, its world and, while it is open, its campaign.
impl<S: Alter> Model for Service<S> {
    ghost use Rattle.std.specs.Prelude.{Some, None, cond};
    ghost use Rattle.atl_commands.specs.Service.{ServiceValue, service_code, IsService};

    ghost Value = { ServiceValue S };

    ghost coded = { service_code S.code };

    ghost view = { λ a. record {
      conn = a.conn;
      world = a.world;
      campaign = cond a.is_open (Some a.campaign.value) None;
    } };

    ghost invariant = { λ a. IsService S.Store a.conn a.world a.campaign a.is_open };
}

impl<S: Alter> Service<S> {
    ghost use Rattle.atl_campaign.specs.Good.{IsGood};
    ghost use Rattle.atl_campaign.specs.Marks.{no_marks};
    ghost use Rattle.atl_keeping.specs.Keeps.{HoldsCampaign, IsLater, LeavesOthersAlone};
    ghost use Rattle.std.specs.Prelude.{Some, true};
    ghost use Rattle.atl_commands.specs.Service.{IsService, text_in};
    ghost use Rattle.atl_commands.specs.Runs.{Runs, RunsAll, HeadlineAt};

    /// An open service of a campaign that the tables of the connection hold, with its world: a good
    /// campaign, of which nothing is marked. The connection has to be in no transaction, and on a
    /// clean disk the stored world text has to be that of the world (`IsService`).
    pub fn opened(
        alloc: Global,
        conn: Connection<S>,
        world: World,
        campaign: Campaign,
    ) -> Service<S>
        requires { IsService S.Store conn world campaign true }
        ensures { result ≡ record { conn = conn; world = world; campaign = Some campaign.value } }
    {
        Service {
            alloc,
            conn,
            world,
            campaign,
            is_open: true,
        }
    }

    /// Runs one command and returns its answer. A command that is refused, or answered with a
    /// report, changes nothing. After a fault the service is closed: every later command is
    /// answered Closed and changes nothing. While it is open its books balance. A disk that isn't
    /// clean stays so (`IsLater`). The rest holds if the disk is clean. The tables hold an open
    /// service's campaign. Other tables stay as they were, while the connection is open. Fault
    /// Store means that a call of the write gave another error than out of memory. Fault Memory
    /// means that one ran out of memory, or that memory ran out before the database was asked to
    /// write. After either the tables are as before, while the connection is open. A crash then
    /// leaves the campaign before the command or after it, and a good one. See docs/RULES.md,
    /// "Joining", "Mail", "Closing a month", "Reports" and "Refusals and faults".
    pub fn run(&mut self, command: &Command) -> Answer
        ensures runs { Runs S.Store self.old command.now result self.new }
        ensures later { IsLater (state S.Store self.old.conn) (state S.Store self.new.conn) }
        ensures others { HasCleanDisk (state S.Store self.new.conn)
            → LeavesOthersAlone (state S.Store self.old.conn) (state S.Store self.new.conn) }
        ensures tables { IfSome self.new.campaign
            (λ c. HoldsCampaign S.Store self.new.conn (text_in S.Store self.new.conn) c) }
        ensures balances { IfSome self.new.campaign Balances }
    {
        if !self.is_open {
            return Answer::Fault(Fault::Closed);
        }
        match answer_to(
            self.alloc,
            &self.world,
            &mut self.campaign,
            &mut self.conn,
            command,
        ) {
            Ok(answer) => answer,
            Err(fault) => {
                self.is_open = false;
                Answer::Fault(Fault::from(fault))
            }
        }
    }

    /// Runs commands in their order, and returns one answer for each; after a fault all later
    /// answers are Closed. Without a fault, answers and campaign of an open service are those of
    /// `run_of`, and on a clean disk the tables hold that campaign (`HeadlineAt`). Memory for the
    /// answers is allocated first: if there is none, nothing is run and nothing changes. While the
    /// service is open its books balance. See docs/RULES.md, "Refusals and faults".
    pub fn run_all(&mut self, commands: &[Command]) -> Result<Vec<Answer>, AllocError>
        ensures runs { IfOk result
            (λ answers. RunsAll S.Store self.old commands.now answers.items self.new) }
        ensures headline { IfOk result
            (λ answers. HeadlineAt S.Store self.old commands.now answers.items self.new
            self.old.campaign) }
        ensures err { OnErr result (self.new ≡ self.old) }
        ensures balances { IfSome self.new.campaign Balances }
    {
        let mut answers = Vec::with_capacity(self.alloc, commands.len())?;
        for command in commands {
            let answer = self.run(command);
            answers.push(answer).unwrap();
        }
        Ok(answers)
    }

    /// The campaign, while the service is open; None once it is closed. It is good, its books
    /// balance, nothing of it is marked, and on a clean disk the tables hold it.
    pub fn campaign(&self) -> Option<&Campaign>
        ensures value { option_map (λ c. c.value) (option_copied result) ≡ self.now.campaign }
        ensures good { IfSome self.now.campaign (IsGood self.now.world) }
        ensures balances { IfSome self.now.campaign Balances }
        ensures unmarked { IfSome (option_copied result) (λ c. c.marks ≡ no_marks) }
        ensures tables { IfSome self.now.campaign
            (λ c. HoldsCampaign S.Store self.now.conn (text_in S.Store self.now.conn) c) }
    {
        if self.is_open {
            Some(&self.campaign)
        } else {
            None
        }
    }

    /// The text of the campaign's books, or AllocError without memory for it; None once the
    /// service is closed. Nothing changes. The books balance. See docs/FORMATS.md, "Books".
    pub fn books(&self) -> Option<Result<String, AllocError>>
        ensures open { is_some result ≡ is_some self.now.campaign }
        ensures definition { IfSome self.now.campaign
            (λ c. IfSome result (λ made. IfOk made (λ text. string_bytes text
            ≡ books_of self.now.world c))) }
        ensures balances { IfSome self.now.campaign Balances }
    {
        let campaign = self.campaign()?;
        Some(books_text(self.alloc, &self.world, campaign))
    }

    /// The world of the campaign, as it was founded or upgraded; also after a fault. While the
    /// service is open and the disk is clean, the world text in its tables reads as this world.
    pub fn world(&self) -> &World
        ensures value { result.now ≡ self.now.world }
        ensures text { HasCleanDisk (state S.Store self.now.conn) → IsSome self.now.campaign
            → world_of (text_in S.Store self.now.conn) ≡ Ok self.now.world }
    {
        &self.world
    }

    /// Ends the service and returns its connection. On a clean disk the tables hold the campaign of
    /// an open service. The memory of world and campaign stays taken until the process ends.
    pub fn end(self) -> Connection<S>
        ensures value { result ≡ self.conn }
        ensures tables { IfSome self.campaign
            (λ c. HoldsCampaign S.Store result (text_in S.Store result) c) }
    {
        let Service {
            alloc: _,
            conn: connection,
            world,
            campaign,
            is_open: _,
        } = self;
        mem::forget(world);
        mem::forget(campaign);
        connection
    }
}
