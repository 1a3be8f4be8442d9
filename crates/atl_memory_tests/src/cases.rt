//! The public calls that are tried with too little memory, and what each must answer and leave if
//! memory is ample.
use crate::setting::{all_commands, begun, close, founded, join, next_mail, report};
use crate::texts::{answer_text, books, rows};
use atl_campaign::Campaign;
use atl_service::{Command, Service};
use atl_world::let_go;
use sqlite::{Alter, Connection};
use std::alloc::{AllocError, Global};

/// A public call of atl_service, atl_commands or atl_campaign, or `check` of atl_state, that is
/// tried with too little memory.
#[derive(Clone, Copy, Debug, PartialEq, Eq)]
pub enum Call {
    Found,
    Open,
    Upgrade,
    Join,
    Mail,
    Close,
    Report,
    RunAll,
    Books,
    Parts,
    Check,
}

/// All calls, in the order in which they are tried.
pub static CALLS: [Call; 11] = [
    Call::Found,
    Call::Open,
    Call::Upgrade,
    Call::Join,
    Call::Mail,
    Call::Close,
    Call::Report,
    Call::RunAll,
    Call::Books,
    Call::Parts,
    Call::Check,
];

/// The wanted answer to the join, as text: faction 3 and unit 12, as factions 1 and 2 and units 1
/// to 11 exist.
const JOINED: &str = "joined 3 12";

/// The wanted answer to the mailing, as text: 11 orders, and DANCE on line 6 is unknown.
const MAILED: &str = "mailed 11 [FaultyLine { line: 6, fault: UnknownOrder }]";

/// The wanted answer to the command that closes month 1, as text.
const CLOSED: &str = "month done 1";

/// The wanted answer to the command `Report`: the text that `MONTH_ROWS` stores.
const REPORTED: &str = "A report.";

/// Lines that Avalon's report on the month must have. Of 100 money unit 1 pays 40, and sends 2 of
/// its 5 men to the unit that it forms. Its 3 men take 30 money in tax, and of 90 it pays for one
/// recruit. Unit 6 has 5 wood, gives 2 of it away and builds with 3. The 4 men of unit 2 get 30
/// days each and 30 more, as all are taught. In the forest 15 men make as much wood.
static LINES_FOR_AVALON: [&str; 14] = [
    "Unit 1, line 4, FORM: done 12.",
    "Unit 1, line 7, FORM: done 13.",
    "Unit 1, line 9, PAY: done 40.",
    "Unit 5, line 22, GIVE: fault 3 NotEnough.",
    "Unit 6, line 24, GIVE: done 2.",
    "Unit 1, line 10, TRANSFER: done 2.",
    "Unit 1, line 11, TAX: done 30.",
    "Unit 1, line 12, RECRUIT: done 1.",
    "Unit 7, line 28, MOVE: done 0.",
    "Unit 4, line 19, SAIL: done 0.",
    "Unit 6, line 25, BUILD: done 3.",
    "Unit 3, line 16, TEACH: done 4.",
    "Unit 2, line 14, STUDY: done 240.",
    "Unit 5, line 21, PRODUCE: done 15.",
];

/// Lines that Bree's report on the month must have. Unit 11 has no money for the fee or for its
/// upkeep of 10, and unit 10 can give it only 4: it has 4, earns 20, and pays 20 for itself.
static LINES_FOR_BREE: [&str; 2] = [
    "Unit 11, line 3, STUDY: fault 23 NoFee.",
    "Unit 11: 1 starved.",
];

/// A call, its commands, and the wanted answers, rows and books, as recorded with ample memory.
pub struct Case {
    pub call: Call,
    /// The commands that the call runs, or that are run after it to see that the service still
    /// works.
    pub commands: Vec<Command>,
    /// One command of each kind, to see that a closed service answers Closed to all.
    pub later: Vec<Command>,
    /// The answer to each command of `commands` with ample memory, as text.
    pub answers: Vec<String>,
    /// All rows of the campaign before the first command and after each, with ample memory.
    pub rows: Vec<String>,
    pub books: String,
}

impl Drop for Case {
    fn drop(self) {
        let_go!(self: Case { call, commands, later, answers, rows, books });
    }
}

fn one_command(alloc: Global, command: Command) -> Result<Vec<Command>, AllocError> {
    let mut commands = Vec::new(alloc);
    commands.push(command)?;
    Ok(commands)
}

fn commands_of(alloc: Global, call: Call) -> Result<Vec<Command>, AllocError> {
    match call {
        Call::Join | Call::Books => one_command(alloc, join(alloc)?),
        Call::Mail => one_command(alloc, next_mail(alloc)?),
        Call::Close => one_command(alloc, close(alloc)?),
        Call::Report => one_command(alloc, report(alloc)?),
        Call::RunAll => all_commands(alloc),
        Call::Found | Call::Open | Call::Upgrade | Call::Parts | Call::Check => {
            Ok(Vec::new(alloc))
        }
    }
}

/// None if any answer is right, as for the month's report.
fn wanted(call: Call, at: usize) -> Option<&'static str> {
    match (call, at) {
        (Call::Join | Call::Books | Call::RunAll, 0) => Some(JOINED),
        (Call::Mail, 0) | (Call::RunAll, 1) => Some(MAILED),
        (Call::Close, 0) | (Call::RunAll, 2) => Some(CLOSED),
        (Call::Report, 0) => Some(REPORTED),
        _ => None,
    }
}

fn reports(campaign: &Campaign, faction: u32, lines: &[&str]) -> bool {
    match campaign.report(faction) {
        Some(report) => lines
            .iter()
            .all(|line| report.as_str().find(*line).is_some()),
        None => false,
    }
}

fn is_month_right(campaign: Option<&Campaign>) -> bool {
    match campaign {
        Some(campaign) => {
            reports(campaign, 1, &LINES_FOR_AVALON)
                && reports(campaign, 2, &LINES_FOR_BREE)
                && campaign.unit(12).is_some()
                && campaign.unit(13).is_none()
                && campaign.unit(11).is_none()
        }
        None => false,
    }
}

impl Case {
    fn new(alloc: Global, call: Call) -> Result<Case, AllocError> {
        Ok(Case {
            call,
            commands: commands_of(alloc, call)?,
            later: all_commands(alloc)?,
            answers: Vec::new(alloc),
            rows: Vec::new(alloc),
            books: String::new(alloc),
        })
    }

    fn play<S: Alter>(&mut self, alloc: Global, service: &mut Service<S>) -> Option<()> {
        self.books = books(service)?;
        self.rows.push(rows(alloc, service.campaign())?).ok()?;
        for command in &self.commands {
            let answer = service.run(command);
            self.answers.push(answer_text(alloc, &answer)?).ok()?;
            self.rows.push(rows(alloc, service.campaign())?).ok()?;
        }
        Some(())
    }

    fn is_right(&self, campaign: Option<&Campaign>) -> bool {
        let mut are_wanted = true;
        for (at, answer) in self.answers.iter().enumerate() {
            if let Some(wanted) = wanted(self.call, at) {
                are_wanted = are_wanted && answer.as_str() == wanted;
            }
        }
        are_wanted && (self.call != Call::Close || is_month_right(campaign))
    }

    /// The case is recorded with ample memory. None if a step fails or an outcome isn't the wanted
    /// one.
    fn played<S: Alter + Drop>(alloc: Global, call: Call, conn: Connection<S>) -> Option<Case> {
        let mut case = Case::new(alloc, call).ok()?;
        let mut service = match call {
            Call::Found => founded(alloc, conn)?,
            _ => begun(alloc, conn)?,
        };
        case.play(alloc, &mut service)?;
        if case.is_right(service.campaign()) {
            Some(case)
        } else {
            None
        }
    }

    /// The case of a call, recorded in a database in memory; None if a step fails or an outcome
    /// isn't the wanted one.
    pub fn recorded(alloc: Global, call: Call) -> Option<Case> {
        let conn = Connection::open_in_memory(alloc).ok()?;
        Case::played(alloc, call, conn)
    }

    pub fn rows_after(&self, commands: usize) -> &str {
        match self.rows.get(commands) {
            Some(rows) => rows.as_str(),
            None => "",
        }
    }
}
