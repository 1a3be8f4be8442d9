//! QUIT: a faction leaves the campaign with all its units. See docs/RULES.md, "Quitting". What
//! changes is marked, and no mark is lost. Without memory the campaign may be changed in part. Such
//! an order for a unit that isn't there, or is another faction's, is NotYours and changes nothing.
ghost use Rattle.std.specs.Prelude.{◌≡◌, ◌<◌, IfOk, OnOk, fold, length, true};
ghost use Rattle.atl_records.specs.Books.{amount_in, thing_index};
ghost use Rattle.atl_campaign.specs.Covers.{MarksChanges};
ghost use Rattle.atl_world.specs.Every.{EachEntry};
ghost use Rattle.atl_campaign.specs.Founding.{thing_count};
ghost use Rattle.atl_campaign.specs.Good.{IsSteady};
ghost use Rattle.atl_campaign.specs.Marking.{mark_amount};
ghost use Rattle.atl_records.specs.declared.books.BooksEntry.TheVariants.{Left, Lost};
ghost use Rattle.atl_records.specs.declared.books.Thing.TheVariants.{Money, People};
ghost use Rattle.atl_phase.specs.Meaning.{both_move, moves_only};
ghost use Rattle.atl_phase.specs.Bounds.{HasRoom, HaveRoom, items_bound};
ghost use Rattle.atl_phase.specs.OrderEffects.{faction_effect};
ghost use Rattle.atl_instant.specs.Quit.{after_leaving, is_quitting, loss_entry, quit, quit_affects, quit_keeps, quit_meaning, quit_moves, quit_remaining, quit_step, with_item_loss, with_loss};

use atl_campaign::{BooksEntry, Campaign, EventFault, Outcome, Thing};
use atl_orders::{Operands, Verb};
use atl_phase::{
    Month, OrderPhase, Phase, PhaseOrder, PhaseResult, PhaseVerbs, book_taken, carry_out_orders,
    fault_outcome, items_of, own_unit,
};
use atl_world::World;
use std::alloc::{AllocError, Global};

/// The phase of QUIT: all units of a faction leave with all that they have.
/// See docs/RULES.md, "Quitting".
#[derive(Drop, Clone, Copy)]
pub struct QuitPhase;

fn loss_entry(thing: Thing) -> BooksEntry
    ensures { result ≡ loss_entry thing }
{
    match thing {
        Thing::People => BooksEntry::Left,
        Thing::Money | Thing::Item(_) => BooksEntry::Lost,
    }
}

/// Books an amount of a thing as gone: men as left, money and items as lost. The books have the
/// thing, and room for the amount.
fn book_loss(campaign: &mut Campaign, thing: Thing, amount: u32)
    requires there { thing_index thing < campaign.old.value.books.things }
    requires room { HasRoom amount (amount_in campaign.old.value.books (loss_entry thing) thing) }
    ensures what { campaign.new.value ≡ with_loss campaign.old.value thing amount }
    ensures marks { campaign.new.marks ≡ mark_amount campaign.old (loss_entry thing) thing }
{
    book_taken(campaign, loss_entry(thing), thing, amount);
}

/// Books these items, which are of the world, as lost. The books have them, and room for them all.
fn book_items(world: &World, campaign: &mut Campaign, items: &[(u16, u32)])
    requires things { campaign.old.value.books.things ≡ thing_count world.now }
    requires known { EachEntry (λ i amount. i < length world.now.items) items.now }
    requires room { HaveRoom (items_bound items.now) campaign.old.value }
    ensures what { campaign.new.value ≡ fold with_item_loss campaign.old.value items.now }
    ensures marks { MarksChanges campaign.old campaign.new }
{
    for (item, amount) in items.iter() {
        book_loss(campaign, Thing::Item(*item), *amount);
    }
}

/// Books men, money and items as gone. The items are of the world, whose things the books have, and
/// the books have room for all.
fn book_off(world: &World, campaign: &mut Campaign, men: u32, money: u32, items: &[(u16, u32)])
    requires things { campaign.old.value.books.things ≡ thing_count world.now }
    requires known { EachEntry (λ i amount. i < length world.now.items) items.now }
    requires room { HaveRoom
        (both_move (moves_only men Left People)
        (both_move (moves_only money Lost Money) (items_bound items.now))) campaign.old.value }
    ensures what { campaign.new.value
        ≡ fold with_item_loss (with_loss (with_loss campaign.old.value People men) Money money)
        items.now }
    ensures marks { MarksChanges campaign.old campaign.new }
{
    book_loss(campaign, Thing::People, men);
    book_loss(campaign, Thing::Money, money);
    book_items(world, campaign, items);
}

/// Books all that a unit has as gone, and removes it. Where it isn't there, nothing changes. Before
/// it the campaign is steady, and the books have room for the loss of all that units hold.
#[tactic(auto, unfolding(crate::specs::Quit::after_leaving))]
fn leave(
    alloc: Global,
    world: &World,
    campaign: &mut Campaign,
    number: u32,
) -> Result<(), AllocError>
    requires steady { IsSteady world.now campaign.old.value }
    requires room { HaveRoom (quit_remaining campaign.old.value) campaign.old.value }
    ensures what { OnOk result (campaign.new.value ≡ after_leaving campaign.old.value number) }
    ensures marks { OnOk result (MarksChanges campaign.old campaign.new) }
{
    let Some(unit) = campaign.unit(number) else {
        return Ok(());
    };
    let men = unit.holding.men();
    let money = unit.holding.money();
    let items = items_of(alloc, world, &unit.holding)?;
    book_off(world, campaign, men, money, &items);
    campaign.remove_unit(number);
    Ok(())
}

/// Lets these units leave one by one, in a steady campaign whose books have room for all losses.
fn leave_all(
    alloc: Global,
    world: &World,
    campaign: &mut Campaign,
    numbers: &[u32],
) -> Result<(), AllocError>
    requires steady { IsSteady world.now campaign.old.value }
    requires room { HaveRoom (quit_remaining campaign.old.value) campaign.old.value }
    ensures what { OnOk result
        (campaign.new.value ≡ fold after_leaving campaign.old.value numbers.now) }
    ensures marks { OnOk result (MarksChanges campaign.old campaign.new) }
{
    for number in numbers.iter() {
        leave(alloc, world, campaign, *number)?;
    }
    Ok(())
}

/// Carries out QUIT with this number, in a steady campaign whose books have room for all losses.
#[tactic(auto, unfolding(crate::specs::Quit::quit))]
fn quit(
    alloc: Global,
    world: &World,
    campaign: &mut Campaign,
    order: PhaseOrder<'_>,
    number: u32,
) -> Result<Outcome, AllocError>
    requires steady { IsSteady world.now campaign.old.value }
    requires room { HaveRoom (quit_remaining campaign.old.value) campaign.old.value }
    ensures what { IfOk result
        (λ outcome. (campaign.new.value, outcome)
        ≡ faction_effect (quit number) campaign.old.value order.entry.faction order.entry.unit) }
    ensures marks { OnOk result (MarksChanges campaign.old campaign.new) }
{
    let Some(unit) = own_unit(campaign, order) else {
        return Ok(fault_outcome(EventFault::NotYours));
    };
    if number != unit.faction {
        return Ok(fault_outcome(EventFault::WrongNumber));
    }
    let numbers = Vec::from_slice(alloc, campaign.of_faction(unit.faction))?;
    leave_all(alloc, world, campaign, &numbers)?;
    Ok(Outcome::Done(0))
}

impl PhaseVerbs for QuitPhase {
    ghost is_of = { is_quitting };

    fn has(&self, verb: Verb) -> bool {
        matches!(verb, Verb::Quit)
    }
}

/// Removes all units of a faction by QUIT.
impl OrderPhase for QuitPhase {
    ghost step = { λ _. quit_step };

    ghost holds = { IsSteady };

    ghost remaining = { quit_remaining };

    ghost book_bound = { quit_moves };

    ghost affects = { quit_affects };

    fn carry_out(
        &self,
        alloc: Global,
        world: &World,
        campaign: &mut Campaign,
        _: &Month,
        order: PhaseOrder<'_>,
    ) -> Result<Option<Outcome>, AllocError> {
        match &order.order.operands {
            Operands::Number(number) => Ok(Some(quit(alloc, world, campaign, order, *number)?)),
            _ => unreachable!(),
        }
    }

    fn is_orderly(&self) {}
}

/// Carries out the orders of QUIT (`carry_out_orders`), and does nothing else. It isn't a
/// `PlainPhase`, since what it keeps (`quit_keeps`) depends on whose the units were as the phase
/// began.
impl Phase for QuitPhase {
    ghost meaning = { quit_meaning };

    ghost book_bound = { quit_moves };

    ghost keeps = { quit_keeps };

    fn run(
        &self,
        alloc: Global,
        world: &World,
        mut campaign: Campaign,
        mut month: Month,
    ) -> PhaseResult {
        carry_out_orders(alloc, self, world, &mut campaign, &mut month)?;
        Ok((campaign, month))
    }
}
