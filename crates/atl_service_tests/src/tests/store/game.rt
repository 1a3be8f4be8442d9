//! What the steps of a script share: a campaign, and a text that one step keeps for a later one to
//! compare.
use super::campaigns::founded_by;
use super::words::{done, yes_or_no};
use atl_campaign::Campaign;
use atl_test_worlds::SMALL_WORLD;
use atl_world::let_go;
use std::alloc::Global;
use std::test::Fail;

/// What the steps of a script work on: a campaign in memory, and a text that a step kept for a
/// later one to compare.
pub(crate) struct Game {
    pub campaign: Campaign,
    pub kept: String,
}

impl Drop for Game {
    fn drop(self) {
        let_go!(self: Game { campaign, kept });
    }
}

/// The game in which a script begins: the campaign of the small world just after its founding, and
/// an empty text.
pub(crate) fn new_game(alloc: Global) -> Result<Game, Fail> {
    let campaign = founded_by(alloc, SMALL_WORLD)?;
    Ok(Game {
        campaign,
        kept: String::new(alloc),
    })
}

fn rows_of(alloc: Global, campaign: &Campaign) -> Result<String, Fail> {
    let parts = campaign.parts()?;
    Ok(format!(in alloc; "{parts:?}")?)
}

pub(crate) fn keep(alloc: Global, game: &mut Game, text: String) -> Result<String, Fail> {
    game.kept = text;
    done(alloc)
}

pub(crate) fn is_kept(alloc: Global, game: &Game, text: &str) -> Result<String, Fail> {
    yes_or_no(alloc, game.kept.as_str() == text)
}

pub(crate) fn keep_campaign(alloc: Global, game: &mut Game) -> Result<String, Fail> {
    let rows = rows_of(alloc, &game.campaign)?;
    keep(alloc, game, rows)
}

pub(crate) fn is_kept_campaign(alloc: Global, game: &Game) -> Result<String, Fail> {
    let rows = rows_of(alloc, &game.campaign)?;
    is_kept(alloc, game, rows.as_str())
}
