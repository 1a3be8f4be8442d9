//! Plays scripts. A line is a step, followed by ` -> ` and the wanted answer; without one `Done` is
//! wanted.
use super::calls::{
    create_answer, create_old_answer, join_answer, load_answer, mail_answer, upgrade_answer,
    write_answer,
};
use super::campaigns::world_text;
use super::contents::{
    contents, limit_steps, query_number, run_statements, set_world_text, settle,
};
use super::game::{Game, is_kept, is_kept_campaign, keep, keep_campaign, new_game};
use super::rows::read;
use super::setting::{begin, book, lend, numbers, remove, rename, report, set};
use super::words::{done, text_of, yes_or_no};
use crate::tests::compare::assert_text_at;
use atl_campaign::Campaign;
use atl_store::schema::has_all_tables;
use sqlite::{Alter, Connection};
use std::alloc::Global;
use std::process::Abort;
use std::test::Fail;

fn change(alloc: Global, campaign: &mut Campaign, word: &str, rest: &str) -> Result<(), Fail> {
    match word {
        "set" => set(campaign, rest),
        "lend" => lend(campaign, rest),
        "remove" => remove(campaign, rest),
        "clear" => {
            campaign.clear_mail();
            Ok(())
        }
        "rename" => rename(alloc, campaign, rest),
        "report" => report(alloc, campaign, rest),
        "begin" => begin(alloc, campaign, rest),
        "book" => book(campaign, rest),
        _ => Err(Fail::new(word)),
    }
}

fn stock(alloc: Global, campaign: &Campaign, text: &str) -> Result<String, Fail> {
    let [region, item, _] = numbers(text)?;
    text_of(alloc, campaign.stock(region, item))
}

fn campaign_answer(alloc: Global, game: &mut Game, step: &str) -> Result<String, Fail> {
    let (word, rest) = step.split_once(' ').unwrap_or((step, ""));
    match word {
        "marks" => text_of(alloc, game.campaign.marks()),
        "stock" => stock(alloc, &game.campaign, rest),
        "keep_campaign" => keep_campaign(alloc, game),
        "is_kept_campaign" => is_kept_campaign(alloc, game),
        _ => {
            change(alloc, &mut game.campaign, word, rest)?;
            done(alloc)
        }
    }
}

fn person_answer<S: Alter>(
    alloc: Global,
    conn: &mut Connection<S>,
    game: &mut Game,
    step: &str,
) -> Result<String, Fail> {
    let (word, rest) = step.split_once(' ').unwrap_or((step, ""));
    match word {
        "SELECT" => query_number(alloc, conn, step),
        "sql" => run_statements(alloc, conn, rest),
        "settle" => settle(alloc, conn),
        "world" => set_world_text(alloc, conn, world_text(rest)),
        "no_steps" => limit_steps(alloc, conn, Some(0)),
        "any_steps" => limit_steps(alloc, conn, None),
        "keep_tables" => {
            let text = contents(alloc, conn)?;
            keep(alloc, game, text)
        }
        "is_kept_tables" => is_kept(alloc, game, contents(alloc, conn)?.as_str()),
        _ => campaign_answer(alloc, game, step),
    }
}

fn answer<S: Alter>(
    alloc: Global,
    conn: &mut Connection<S>,
    game: &mut Game,
    step: &str,
) -> Result<String, Fail> {
    let (word, rest) = step.split_once(' ').unwrap_or((step, ""));
    match word {
        "create" => create_answer(alloc, conn, world_text(rest)),
        "create_old" => create_old_answer(alloc, conn, world_text(rest)),
        "join" => join_answer(alloc, conn),
        "mail" => mail_answer(alloc, conn),
        "write" => write_answer(alloc, conn, &mut game.campaign),
        "load" => load_answer(alloc, conn, &mut game.campaign),
        "upgrade" => upgrade_answer(alloc, conn, world_text(rest), &mut game.campaign),
        "read" => read(alloc, conn, rest),
        "has_all_tables" => yes_or_no(alloc, has_all_tables(conn.schema())),
        _ => person_answer(alloc, conn, game, step),
    }
}

fn play_line<S: Alter>(
    rt: &impl Abort,
    alloc: Global,
    conn: &mut Connection<S>,
    game: &mut Game,
    line: &str,
) -> Result<(), Fail> {
    let (step, wanted) = line.split_once(" -> ").unwrap_or((line, "Done"));
    let answer = answer(alloc, conn, game, step)?;
    assert_text_at(rt, line, answer.as_str(), wanted);
    Ok(())
}

pub(crate) fn play<S: Alter>(
    rt: &impl Abort,
    alloc: Global,
    conn: &mut Connection<S>,
    game: &mut Game,
    script: &str,
) -> Result<(), Fail> {
    for line in script.lines() {
        play_line(rt, alloc, conn, game, line)?;
    }
    Ok(())
}

pub(crate) fn play_new(rt: &impl Abort, alloc: Global, script: &str) -> Result<(), Fail> {
    let mut conn = Connection::open_in_memory(alloc)?;
    let mut game = new_game(alloc)?;
    play(rt, alloc, &mut conn, &mut game, script)
}
