//! Closing a month: runs all its phases. See docs/RULES.md, "Closing a month".
ghost use Rattle.std.specs.Prelude.{◌≡◌, ◌<◌, ℕ, All, IfOk, length, map};
ghost use Rattle.std.specs.FinMap.{len};
ghost use Rattle.atl_orders.specs.Mailing.{IsReadWith, reading_of};
ghost use Rattle.atl_campaign.specs.Covers.{MarksChanges};
ghost use Rattle.atl_world.specs.Every.{HasValue};
ghost use Rattle.atl_campaign.specs.Good.{IsGood};
ghost use Rattle.atl_records.specs.Limits.{last_month};
ghost use Rattle.atl_phase.specs.Month.{HaveOwnFactions, by_faction};
ghost use Rattle.atl_phase.specs.Room.{OnePhaseHasRoom};
ghost use Rattle.atl_phase.specs.Meaning.{IsSameMonth};
ghost use Rattle.atl_month.specs.Month.{BooksAreNear, MailOrderDoesNotCount, PhasesMoveLittle, TwoMoveAtMost, after_month, month_keeps, month_moves, month_of, new_month};
ghost use Rattle.atl_month.specs.OneEvent.{EachOrderHasOneEvent};
ghost use Rattle.atl_month.specs.Unmailed.{UnmailedAreLeft};

use crate::orders::OrderPhases;
use atl_campaign::{Campaign, Event};
use atl_market::WorkPhase;
use atl_orders::Mailing;
use atl_phase::{Month, Phase};
use atl_upkeep::{SeasonPhase, SweepPhase, UpkeepPhase};
use atl_world::World;
use std::alloc::{AllocError, Global};

/// Closes a month: runs its phases over a good campaign that has a month left, and returns the
/// campaign and the events. Takes mailings read with this world, at most one of a faction, and one
/// word of the dice for each region. The month isn't counted yet, and the mail isn't removed; once
/// both are done, the campaign is good again. A unit whose faction sent no mailing is there
/// afterwards with its faction and name, no less of any item, and all its men but those in its
/// Starved event. It is removed if all its men starved, and only then. The factions and the reports
/// stay. No amount of the books moves further than 10^14 - 1 for each phase that may move it. Each
/// phase leaves alone what its specification says (`month_keeps`). No mark is lost, and all that
/// changed is marked. AllocError without memory; the campaign is then given up. See docs/RULES.md,
/// "Closing a month".
pub fn close_month(
    alloc: Global,
    world: &World,
    campaign: Campaign,
    mailings: Vec<Mailing>,
    words: &[u32],
) -> Result<(Campaign, Vec<Event>), AllocError>
    requires good { IsGood world.now campaign.value }
    requires month { campaign.value.month < last_month }
    requires read { All (IsReadWith world.now) mailings.items }
    requires own { HaveOwnFactions mailings.items }
    requires words { length words.now ≡ len world.now.regions }
    ensures definition { IfOk result
        (λ r. (r.0.value, r.1.items)
        ≡ month_of world.now campaign.value (by_faction (map reading_of mailings.items))
        words.now) }
    ensures good { IfOk result (λ r. IsGood world.now (after_month r.0.value)) }
    ensures same { IfOk result (λ r. IsSameMonth campaign.value r.0.value) }
    ensures factions { IfOk result
        (λ r. (n : ℕ) → HasValue campaign.value.factions n → HasValue r.0.value.factions n) }
    ensures books { IfOk result (λ r. BooksAreNear month_moves campaign.value r.0.value) }
    ensures keeps { IfOk result
        (λ r. month_keeps world.now
        (new_month (by_faction (map reading_of mailings.items)) words.now) campaign.value
        r.0.value) }
    ensures unmailed { IfOk result
        (λ r. UnmailedAreLeft mailings.items r.1.items campaign.value r.0.value) }
    ensures marks { IfOk result (λ r. MarksChanges campaign r.0) }
{
    let month = Month::new(alloc, mailings, words.to_vec(alloc)?);
    let closing = (WorkPhase, (UpkeepPhase, (SeasonPhase, SweepPhase)));
    let (campaign, month) = (OrderPhases, closing).run(alloc, world, campaign, month)?;
    Ok((campaign, month.into_events()))
}

/// The law that the mailings of a month, at most one of each faction, make the same campaign and
/// events of the same campaign and words if they come in another order. Does nothing.
pub fn months_have_no_order()
    ensures { MailOrderDoesNotCount }
{}

/// The law that each order that counts has exactly one event in the month, if the mailings can be
/// read with the world. The event is of its faction, for its unit, on its line and of its verb.
/// Does nothing. See docs/RULES.md, "Orders of a month".
pub fn each_order_has_one_event()
    ensures { EachOrderHasOneEvent }
{}

/// The laws of what a month books: each phase moves only amounts that its specification lists, each
/// by less than 10^14; and at most two phases may move an amount. Does nothing.
pub fn phases_move_little()
    ensures little { PhasesMoveLittle }
    ensures two { TwoMoveAtMost }
{}

/// The law that books of which no amount passes 9*10^18 in size have room for one phase that moves
/// each amount by less than 10^14. Each phase of a month does so. The law says nothing of two
/// phases, which together may move an amount further. Does nothing.
pub fn one_phase_has_room()
    ensures { OnePhaseHasRoom }
{}
