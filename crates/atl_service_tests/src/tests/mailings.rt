//! Tests of `Mail`: storing mailings.
use super::commands::JOIN_OF_AVALON;
use super::script::{CommandSpec, Step, play};
use super::tables::{MAIL_BYTES, MAILINGS};
use atl_test_worlds::SMALL_WORLD;
use std::test::Fail;

pub(crate) const FAULTY: &str =
    "From: a club\r\n\r\n#ATLANTIS 1 secret\r\nUNIT 1 ; the first\r\nATTACK 2\r\nwork\r\n";

const FORMS: &str = "#ATLANTIS 1\nUNIT 1\nFORM 1\nRECRUIT 2\nEND\nPAY NEW 1 100\n#END\n";

static ONE_FAULTY: [Step; 3] = [
    Step::Answers(JOIN_OF_AVALON, "joined"),
    Step::Mailed(CommandSpec::Mail(1, "pw", FAULTY), 1, &[(5, 2)]),
    Step::Keeps(Some(FAULTY)),
];

static AFTER_ONE: [(&str, Option<i64>); 1] = [(MAILINGS, Some(1))];

#[test]
fn one_faulty_line(rt: HostRuntime) -> Result<(), Fail> {
    play(&rt, rt.alloc(), SMALL_WORLD, &ONE_FAULTY, &AFTER_ONE)
}

static TWO_SENT: [Step; 4] = [
    Step::Answers(JOIN_OF_AVALON, "joined"),
    Step::Mailed(CommandSpec::Mail(1, "pw", FAULTY), 1, &[(5, 2)]),
    Step::Mailed(CommandSpec::Mail(1, "pw", FORMS), 3, &[]),
    Step::Keeps(Some(FORMS)),
];

static AFTER_TWO: [(&str, Option<i64>); 2] = [(MAILINGS, Some(1)), (MAIL_BYTES, Some(59))];

#[test]
fn the_last_mailing_is_kept(rt: HostRuntime) -> Result<(), Fail> {
    play(&rt, rt.alloc(), SMALL_WORLD, &TWO_SENT, &AFTER_TWO)
}
