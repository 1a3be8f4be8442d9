//! A phase of the month, and two phases in turn. See docs/RULES.md, "Closing a month".
ghost use Rattle.std.specs.Prelude.{◌≡◌, IfOk};
ghost use Rattle.atl_campaign.specs.Covers.{MarksChanges};
ghost use Rattle.atl_campaign.specs.Good.{IsSteady};
ghost use Rattle.atl_phase.specs.Fit.{AreFit};
ghost use Rattle.atl_phase.specs.Meaning.{Meaning, Condition, Frame, BookBound, LeavesWell, then_also, both_need, both_keep, both_move};
ghost use Rattle.atl_phase.specs.Bounds.{HaveRoom};
ghost use Rattle.atl_phase.specs.Unbooked.{moves_nothing};

use crate::month::Month;
use atl_campaign::Campaign;
use atl_world::World;
use std::alloc::{AllocError, Global};

/// The campaign and the month that a phase leaves, or AllocError where memory ran out.
pub type PhaseResult = Result<(Campaign, Month), AllocError>;

/// A phase of the month, or some phases one after the other: `(first, second)` is a phase too.
pub trait Phase {
    // The effect of the phase: the campaign and the month after it.
    ghost meaning: { Meaning };

    // What the campaign must be before the phase: with most phases steady.
    ghost needs: { Condition } = { IsSteady };

    // What the campaign is after the phase: with most phases steady.
    ghost leaves: { Condition } = { IsSteady };

    // By how much the phase may move each amount of the books, up or down: by less than 10^14 for
    // one phase, and by the sum of their bounds for several. By default it moves none.
    ghost book_bound: { BookBound } = { moves_nothing };

    // What the phase keeps, mostly of units for which their own faction wrote no order of it.
    ghost keeps: { Frame };

    /// Runs the phase, and returns the campaign and the month as `meaning` says. The campaign is as
    /// `needs` says, the books have room for the phase, and the orders are such as can be read with
    /// the world. Afterwards `leaves` and `keeps` hold. The month's number, the reports, the set of
    /// factions and what was read of the mailings stay. Books that balance still do, and no amount
    /// moves further than `book_bound`. What changes is marked, and no mark is lost. AllocError
    /// without memory; campaign and month are then given up.
    fn run(&self, alloc: Global, world: &World, campaign: Campaign, month: Month) -> PhaseResult
        requires needs { needs world.now campaign.value }
        requires room { HaveRoom book_bound campaign.value }
        requires read { AreFit world.now month.readings }
        ensures meaning { IfOk result
            (λ r. (r.0.value, r.1) ≡ meaning world.now campaign.value month) }
        ensures leaves { IfOk result
            (λ r. LeavesWell leaves book_bound world.now campaign.value r.0.value) }
        ensures keeps { IfOk result (λ r. keeps world.now month campaign.value r.0.value) }
        ensures readings { IfOk result (λ r. r.1.readings ≡ month.readings) }
        ensures marks { IfOk result (λ r. MarksChanges campaign r.0) };
}

/// Runs the first phase, and then the second one on the campaign and the month that the first left.
impl<P: Phase, Q: Phase> Phase for (P, Q) {
    ghost meaning = { then_also P.meaning Q.meaning };

    ghost needs = { both_need P.needs P.leaves Q.needs };

    ghost leaves = { Q.leaves };

    ghost book_bound = { both_move P.book_bound Q.book_bound };

    ghost keeps = { both_keep P.meaning P.keeps Q.keeps };

    fn run(&self, alloc: Global, world: &World, campaign: Campaign, month: Month) -> PhaseResult {
        let (campaign, month) = self.0.run(alloc, world, campaign, month)?;
        let (campaign, month) = self.1.run(alloc, world, campaign, month)?;
        Ok((campaign, month))
    }
}
