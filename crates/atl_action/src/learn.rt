//! The phase of TEACH and STUDY: first all units teach, then all study. See docs/RULES.md,
//! "Learning".
ghost use Rattle.atl_action.specs.Study.{learn_keeps, learn_meaning, study_moves};
ghost use Rattle.atl_action.specs.StudyAlone.{UnitsStudyAsBegun};

use crate::learners::learners;
use crate::study::StudyPhase;
use atl_campaign::Campaign;
use atl_phase::{Month, Phase, PhaseResult, carry_out_orders};
use atl_teaching::teach_all;
use atl_world::World;
use std::alloc::Global;

/// The phase of TEACH and STUDY: all units teach before any unit studies.
/// See docs/RULES.md, "Learning".
#[derive(Drop, Clone, Copy)]
pub struct LearnPhase;

/// Finds who is learning, carries out all orders of TEACH, and then all orders of STUDY, with how
/// many men of each unit were taught.
impl Phase for LearnPhase {
    ghost meaning = { learn_meaning };

    ghost book_bound = { study_moves };

    ghost keeps = { learn_keeps };

    fn run(
        &self,
        alloc: Global,
        world: &World,
        mut campaign: Campaign,
        mut month: Month,
    ) -> PhaseResult {
        let learning = learners(alloc, world, &campaign, &month)?;
        let taught = teach_all(alloc, &campaign, &mut month, &learning)?;
        let studying = StudyPhase { taught };
        carry_out_orders(alloc, &studying, world, &mut campaign, &mut month)?;
        Ok((campaign, month))
    }
}

/// The law that after the phase a unit that studies is what its own order of STUDY alone makes of
/// it in the campaign as the phase began. This supposes that the mailings can be read with the
/// world. Does nothing. See docs/RULES.md, "Learning".
pub fn units_study_as_begun()
    ensures { UnitsStudyAsBegun }
{}
