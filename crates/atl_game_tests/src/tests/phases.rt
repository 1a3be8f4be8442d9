//! Two phases that only these tests have: one with the verb STUDY alone, and one with WORK alone.
ghost use Rattle.atl_game_tests.specs.Phases.{is_studying, is_working};

use atl_orders::Verb;
use atl_phase::PhaseVerbs;

pub(crate) struct Studying;

impl PhaseVerbs for Studying {
    ghost is_of = { is_studying };

    fn has(&self, verb: Verb) -> bool {
        matches!(verb, Verb::Study)
    }
}

pub(crate) struct Working;

impl PhaseVerbs for Working {
    ghost is_of = { is_working };

    fn has(&self, verb: Verb) -> bool {
        matches!(verb, Verb::Work)
    }
}
