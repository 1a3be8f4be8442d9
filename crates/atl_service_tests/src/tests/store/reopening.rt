//! Tests that a founded campaign is still there after a crash of the store.
use super::game::new_game;
use super::script::play;
use atl_store::reopen_connection;
use sqlite::{Alter, Connection};
use sqlite_trees::store::Reopen;
use std::alloc::Global;
use std::process::Abort;
use std::test::Fail;

fn assert_reloaded<S: Alter + Reopen + Drop>(
    rt: &impl Abort,
    alloc: Global,
    mut conn: Connection<S>,
) -> Result<(), Fail> {
    let mut game = new_game(alloc)?;
    play(
        rt,
        alloc,
        &mut conn,
        &mut game,
        "keep_campaign\ncreate small",
    )?;
    let mut again = reopen_connection(alloc, conn)?;
    play(
        rt,
        alloc,
        &mut again,
        &mut game,
        "load\nis_kept_campaign -> yes",
    )
}

#[test]
fn a_founded_campaign_is_there_after_a_crash(rt: HostRuntime) -> Result<(), Fail> {
    let conn = Connection::open_in_memory(rt.alloc())?;
    assert_reloaded(&rt, rt.alloc(), conn)
}
