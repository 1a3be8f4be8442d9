//! Plays the cases of a file, one after the other, and compares the result of each with the lines
//! that the file expects.
use crate::changes::write_changes;
use crate::failed::Failed;
use crate::months::read_mailings;
use crate::runs::{Run, played};
use crate::script::{Case, take_case, take_setting};
use crate::settings::{Setting, campaign_of};
use atl_campaign::{Campaign, Event, Outcome};
use atl_tables::read_world;
use atl_world::{World, let_go};
use std::alloc::{AllocError, Global};
use std::fs;
use std::str::Lines;

fn write_event(alloc: Global, event: &Event, report: &mut String) -> Result<(), AllocError> {
    let (word, number) = match event.outcome {
        Outcome::Done(number) => ("done", number),
        Outcome::Fault(fault) => ("fault", u64::from(fault)),
        Outcome::Starved(number) => ("starved", number),
    };
    let order = format!(in alloc;
        "unit {}, line {}, faction {}",
        event.unit, event.line, event.faction
    )?;
    let line = format!(in alloc; "{order}, {}: {word} {number}\n", event.verb.keyword())?;
    report.push_str(line.as_str())
}

fn result_between(
    alloc: Global,
    world: &World,
    before: &Campaign,
    after: &Campaign,
    events: &[Event],
) -> Result<String, AllocError> {
    let mut report = String::new(alloc);
    write_changes(alloc, world, before, after, &mut report)?;
    for event in events {
        write_event(alloc, event, &mut report)?;
    }
    Ok(report)
}

fn result_of(
    alloc: Global,
    world: &World,
    setting: &Setting,
    run: Run,
    case: &Case,
) -> Result<String, Failed> {
    let before = campaign_of(alloc, world, setting)?;
    let mailings = read_mailings(alloc, world, &case.mailings)?;
    let (after, events) = played(alloc, world, run, setting, mailings, &case.words)?;
    Ok(result_between(alloc, world, &before, &after, &events)?)
}

/// The state of playing a file of cases, line by line. It has the world, the campaign and the
/// phases for the next case, the case that is being read, the count of the cases played, and a
/// report.
struct FilePlayer {
    world: World,
    setting: Setting,
    run: Run,
    case: Option<Case>,
    played: u32,
    report: String,
}

impl Drop for FilePlayer {
    fn drop(self) {
        let_go!(self: FilePlayer { world, setting, run, case, played, report });
    }
}

impl FilePlayer {
    fn new(alloc: Global, world: World) -> FilePlayer {
        FilePlayer {
            world,
            setting: Setting::new(alloc),
            run: Run::Orders,
            case: None,
            played: 0,
            report: String::new(alloc),
        }
    }

    fn play(&mut self, alloc: Global, case: &Case) -> Result<(), Failed> {
        let report = result_of(alloc, &self.world, &self.setting, self.run, case)?;
        self.played = self.played.wrapping_add(1);
        if report.as_str() != case.wanted.as_str() {
            let lines = format!(in alloc; "{}:\n{}", case.title.as_str(), report.as_str())?;
            self.report.push_str(lines.as_str())?;
        }
        Ok(())
    }

    fn finish(&mut self, alloc: Global) -> Result<(), Failed> {
        match self.case.take() {
            Some(case) => self.play(alloc, &case),
            None => Ok(()),
        }
    }

    fn add_to_campaign(&mut self, count: u32, line: &str) -> Option<()> {
        let (word, rest) = line.split_once(' ')?;
        for _ in 0..count {
            take_setting(&self.world, &mut self.setting, word, rest)?;
        }
        Some(())
    }

    fn set_times(&mut self, text: &str) -> Option<()> {
        let (count, line) = text.split_once(' ')?;
        self.add_to_campaign(count.parse::<u32>().ok()?, line)
    }

    fn add_line(&mut self, alloc: Global, line: &str) -> Option<()> {
        let (word, rest) = line.split_once(' ').unwrap_or((line, ""));
        match &mut self.case {
            Some(case) => take_case(alloc, case, word, rest),
            None if word == "times" => self.set_times(rest),
            None => self.add_to_campaign(1, line),
        }
    }

    fn begin_campaign(&mut self, alloc: Global) -> Result<(), Failed> {
        self.finish(alloc)?;
        self.setting = Setting::new(alloc);
        Ok(())
    }

    fn begin_run(&mut self, alloc: Global, name: &str) -> Result<(), Failed> {
        self.finish(alloc)?;
        self.run = Run::of_name(name).ok_or(Failed("no phases"))?;
        Ok(())
    }

    fn begin_case(&mut self, alloc: Global, title: &str) -> Result<(), Failed> {
        self.finish(alloc)?;
        self.case = Some(Case::new(alloc, title)?);
        Ok(())
    }

    fn read(&mut self, alloc: Global, line: &str) -> Result<(), Failed> {
        if line.is_empty() || line.starts_with("--") {
            Ok(())
        } else if line == "campaign" {
            self.begin_campaign(alloc)
        } else if let Some(name) = line.strip_prefix("run ") {
            self.begin_run(alloc, name)
        } else if let Some(title) = line.strip_prefix("case ") {
            self.begin_case(alloc, title)
        } else {
            self.add_line(alloc, line).ok_or(Failed("what is that?"))
        }
    }

    fn report_failed(
        &mut self,
        alloc: Global,
        index: usize,
        failed: Failed,
    ) -> Result<(), AllocError> {
        let line = format!(in alloc; "{index} lines after the first: {}\n", failed.0)?;
        self.report.push_str(line.as_str())
    }

    fn read_lines(&mut self, alloc: Global, lines: Lines<'_>) -> Result<(), Failed> {
        for (index, line) in lines.enumerate() {
            if let Err(failed) = self.read(alloc, line) {
                self.report_failed(alloc, index, failed)?;
            }
        }
        self.finish(alloc)
    }
}

fn text_at(rt: &HostRuntime, path: &str) -> Result<String, Failed> {
    match fs::read_to_string(rt, path) {
        Ok(text) => Ok(text),
        Err(_) => Err(Failed("a file cannot be read")),
    }
}

fn world_at(rt: &HostRuntime, path: &str) -> Result<World, Failed> {
    let text = text_at(rt, path)?;
    match read_world(rt.alloc(), text.as_str()) {
        Ok(world) => Ok(world),
        Err(_) => Err(Failed("a file is no world")),
    }
}

/// The report on a file: how many cases it has, which of them differ, and which lines can't be read
/// or played. The first line of the file names its world.
pub(crate) fn report_on_file(rt: &HostRuntime, path: &str) -> Result<String, Failed> {
    let alloc = rt.alloc();
    let text = text_at(rt, path)?;
    let mut lines = text.lines();
    let first = lines.next().and_then(|line| line.strip_prefix("world "));
    let world = world_at(rt, first.ok_or(Failed("no world"))?)?;
    let mut player = FilePlayer::new(alloc, world);
    player.read_lines(alloc, lines)?;
    Ok(format!(in alloc;
        "{}{path}: {} cases\n",
        player.report.as_str(),
        player.played
    )?)
}
