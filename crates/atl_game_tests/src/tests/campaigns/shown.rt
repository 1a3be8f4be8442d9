//! Prints parts of a campaign, and its marks, as text, and asserts both after each step of a table.
use super::steps::{Step, make_step};
use crate::tests::compare::assert_row_text;
use atl_campaign::{BooksEntry, Campaign, MOST_UNITS, Thing};
use atl_world::limits::MOST_REGIONS;
use atl_world::{Entries, MarkedNumbers, Numbered};
use std::alloc::Global;
use std::process::Abort;
use std::str;
use std::test::Fail;

/// A question to a campaign, answered as text by `text_of`.
#[derive(Drop, Clone, Copy)]
pub(crate) enum Question {
    Month,
    /// How many factions, regions, units and structures there are, and the next numbers of a unit
    /// and a structure.
    Counts,
    Faction(u32),
    /// The mail of a faction, and how many mails there are.
    Mail(u32),
    /// The report of a faction, and how many reports there are.
    Report(u32),
    Region(u32),
    /// How much a region has in stock of an item, and how many stocks it lists.
    Stock(u32, u32),
    Units,
    Unit(u32),
    /// How much a unit has of an item, and its days of a skill.
    Goods(u32, u32, u32),
    Structure(u32),
    Total(Thing),
}

fn none(alloc: Global) -> Result<String, Fail> {
    Ok(String::from_str(alloc, "none")?)
}

fn counts_text(alloc: Global, campaign: &Campaign) -> Result<String, Fail> {
    let counts = [
        campaign.faction_count(),
        campaign.region_count(),
        campaign.unit_count(),
        campaign.structure_count(),
    ];
    let next = [campaign.next_unit(), campaign.next_structure()];
    Ok(format!(in alloc; "{counts:?}, next {next:?}")?)
}

fn faction_text(alloc: Global, campaign: &Campaign, number: u32) -> Result<String, Fail> {
    match campaign.faction(number) {
        Some(faction) => {
            let (name, joined_as) = (faction.name.as_str(), faction.joined_as.as_str());
            let (pass, gone) = (faction.pass.as_str(), faction.gone);
            Ok(format!(in alloc; "{name}, joined as {joined_as} {pass}, gone: {gone}")?)
        }
        None => none(alloc),
    }
}

fn mail_text(alloc: Global, campaign: &Campaign, faction: u32) -> Result<String, Fail> {
    let text = match campaign.mail_of(faction) {
        Some(mail) => str::from_utf8(mail.as_slice()).unwrap_or("no text"),
        None => "none",
    };
    let count = campaign.mail().count();
    Ok(format!(in alloc; "{text} of {count}")?)
}

fn report_text(alloc: Global, campaign: &Campaign, faction: u32) -> Result<String, Fail> {
    let text = match campaign.report(faction) {
        Some(report) => report.as_str(),
        None => "none",
    };
    let count = campaign.reports().count();
    Ok(format!(in alloc; "{text} of {count}")?)
}

fn region_text(alloc: Global, campaign: &Campaign, number: u32) -> Result<String, Fail> {
    match campaign.region(number) {
        Some(region) => {
            let (peasants, money) = (region.peasants, region.money);
            Ok(format!(in alloc; "{peasants} peasants, {money} money")?)
        }
        None => none(alloc),
    }
}

fn stock_text(alloc: Global, campaign: &Campaign, number: u32, item: u32) -> Result<String, Fail> {
    let stock = campaign.stock(number, item);
    match campaign.region(number) {
        Some(region) => {
            let count = region.stocks.len();
            Ok(format!(in alloc; "{stock} of {count}")?)
        }
        None => Ok(format!(in alloc; "{stock} nowhere")?),
    }
}

fn units_text(alloc: Global, campaign: &Campaign) -> Result<String, Fail> {
    let mut numbers = Vec::new(alloc);
    for (number, _) in campaign.units() {
        numbers.push(number)?;
    }
    let numbers = numbers.as_slice();
    Ok(format!(in alloc; "{numbers:?}")?)
}

fn unit_text(alloc: Global, campaign: &Campaign, number: u32) -> Result<String, Fail> {
    let Some(unit) = campaign.unit(number) else {
        return none(alloc);
    };
    let holding = &unit.holding;
    let (name, guard) = (holding.name().as_str(), holding.guard());
    let (men, money) = (holding.men(), holding.money());
    let places = [unit.faction, unit.region, unit.structure];
    Ok(format!(in alloc; "{name}: {men} men, {money} money, guard: {guard}, {places:?}")?)
}

fn goods_text(
    alloc: Global,
    campaign: &Campaign,
    number: u32,
    item: u32,
    skill: u32,
) -> Result<String, Fail> {
    match campaign.unit(number) {
        Some(unit) => {
            let (amount, days) = (unit.holding.amount(item), unit.holding.days_of(skill));
            Ok(format!(in alloc; "{amount}, {days} days")?)
        }
        None => none(alloc),
    }
}

fn structure_text(alloc: Global, campaign: &Campaign, number: u32) -> Result<String, Fail> {
    let Some(structure) = campaign.structure(number) else {
        return none(alloc);
    };
    let (name, kind) = (structure.name.as_str(), structure.kind);
    let (region, done, owner) = (structure.region, structure.done, structure.owner);
    Ok(format!(in alloc; "{name}: kind {kind}, region {region}, {done} done, owner {owner}")?)
}

fn total_text(alloc: Global, campaign: &Campaign, thing: Thing) -> Result<String, Fail> {
    if campaign.unit_count() > MOST_UNITS || campaign.region_count() > MOST_REGIONS {
        return Err(Fail::new("few units and regions"));
    }
    let total = campaign.total(thing);
    Ok(format!(in alloc; "{total}")?)
}

fn month_text(alloc: Global, campaign: &Campaign) -> Result<String, Fail> {
    let month = campaign.month();
    Ok(format!(in alloc; "{month}")?)
}

fn text_of(alloc: Global, campaign: &Campaign, ask: Question) -> Result<String, Fail> {
    match ask {
        Question::Month => month_text(alloc, campaign),
        Question::Counts => counts_text(alloc, campaign),
        Question::Faction(number) => faction_text(alloc, campaign, number),
        Question::Mail(faction) => mail_text(alloc, campaign, faction),
        Question::Report(faction) => report_text(alloc, campaign, faction),
        Question::Region(number) => region_text(alloc, campaign, number),
        Question::Stock(number, item) => stock_text(alloc, campaign, number, item),
        Question::Units => units_text(alloc, campaign),
        Question::Unit(number) => unit_text(alloc, campaign, number),
        Question::Goods(number, item, skill) => goods_text(alloc, campaign, number, item, skill),
        Question::Structure(number) => structure_text(alloc, campaign, number),
        Question::Total(thing) => total_text(alloc, campaign, thing),
    }
}

/// The names of the lists of marked numbers, in the order of the index that `marked` takes.
static LISTS: [&str; 9] = [
    "factions",
    "regions",
    "stocks",
    "units",
    "rows",
    "goods",
    "structures",
    "mail",
    "reports",
];

fn marked(campaign: &Campaign, place: usize) -> MarkedNumbers<'_> {
    match place {
        0 => campaign.marked_factions(),
        1 => campaign.marked_regions(),
        2 => campaign.marked_stocks(),
        3 => campaign.marked_units(),
        4 => campaign.marked_rows(),
        5 => campaign.marked_goods(),
        6 => campaign.marked_structures(),
        7 => campaign.marked_mail(),
        _ => campaign.marked_reports(),
    }
}

fn add_lists(alloc: Global, text: &mut String, campaign: &Campaign) -> Result<(), Fail> {
    for (place, name) in LISTS.iter().enumerate() {
        let numbers: Vec<u32> = marked(campaign, place).collect(alloc)?;
        let numbers = numbers.as_slice();
        if !numbers.is_empty() {
            text.push_str(&format!(in alloc; ", {name} {numbers:?}")?)?;
        }
    }
    Ok(())
}

/// Words of the text of marks for one kind of amount that is marked by itself: one for the amount,
/// such as `item`, and one for its owner, such as `unit`.
#[derive(Clone, Copy)]
struct Singles {
    amount: &'static str,
    owner: &'static str,
}

/// The single amounts whose marks are printed, in the order in which they are printed.
static SINGLES: [Singles; 3] = [
    Singles {
        amount: "item",
        owner: "unit",
    },
    Singles {
        amount: "skill",
        owner: "unit",
    },
    Singles {
        amount: "stock",
        owner: "region",
    },
];

fn marked_singles(campaign: &Campaign, index: usize) -> Entries<'_, Numbered<()>> {
    match index {
        0 => campaign.marked_items(),
        1 => campaign.marked_skills(),
        _ => campaign.marked_stock_items(),
    }
}

fn add_singles(
    alloc: Global,
    text: &mut String,
    singles: Singles,
    owner: u32,
    numbers: &Numbered<()>,
) -> Result<(), Fail> {
    let name = singles.amount;
    let of = singles.owner;
    for (number, _) in numbers.iter() {
        text.push_str(&format!(in alloc; ", {name} {number} of {of} {owner}")?)?;
    }
    Ok(())
}

fn add_all_singles(
    alloc: Global,
    text: &mut String,
    singles: Singles,
    marked: Entries<'_, Numbered<()>>,
) -> Result<(), Fail> {
    for (owner, numbers) in marked {
        add_singles(alloc, text, singles, owner, numbers)?;
    }
    Ok(())
}

fn add_campaign_marks(text: &mut String, campaign: &Campaign) -> Result<(), Fail> {
    if campaign.is_row_marked() {
        text.push_str(", the campaign")?;
    }
    if campaign.things() < 2 {
        return Err(Fail::new("money and people"));
    }
    if campaign.is_amount_marked(BooksEntry::Joining, Thing::Money) {
        text.push_str(", joining money")?;
    }
    if campaign.is_amount_marked(BooksEntry::Joining, Thing::People) {
        text.push_str(", joining people")?;
    }
    Ok(())
}

fn marks_text(alloc: Global, campaign: &Campaign) -> Result<String, Fail> {
    let count = campaign.marks();
    let mut text = format!(in alloc; "{count}")?;
    add_lists(alloc, &mut text, campaign)?;
    for (index, singles) in SINGLES.iter().enumerate() {
        add_all_singles(alloc, &mut text, *singles, marked_singles(campaign, index))?;
    }
    add_campaign_marks(&mut text, campaign)?;
    Ok(text)
}

/// A step, a question after it, the answer, and what is marked then (`marks_text`).
pub(crate) type Row = (Step, Question, &'static str, &'static str);

fn assert_row_step(
    rt: &impl Abort,
    alloc: Global,
    campaign: &mut Campaign,
    place: usize,
    row: &Row,
) -> Result<(), Fail> {
    let (step, ask, answer, marks) = *row;
    make_step(alloc, campaign, step)?;
    assert_row_text(rt, place, text_of(alloc, campaign, ask)?.as_str(), answer);
    assert_row_text(rt, place, marks_text(alloc, campaign)?.as_str(), marks);
    Ok(())
}

/// Makes the steps of a table in turn, and asserts after each the answer and the marks of its row.
pub(crate) fn assert_steps(
    rt: &impl Abort,
    alloc: Global,
    campaign: &mut Campaign,
    rows: &[Row],
) -> Result<(), Fail> {
    for (place, row) in rows.iter().enumerate() {
        assert_row_step(rt, alloc, campaign, place, row)?;
    }
    Ok(())
}

/// Makes the steps of a table in turn, with all marks cleared before each, and asserts after each
/// the answer and the marks of its row.
pub(crate) fn assert_unmarked_steps(
    rt: &impl Abort,
    alloc: Global,
    campaign: &mut Campaign,
    rows: &[Row],
) -> Result<(), Fail> {
    for (place, row) in rows.iter().enumerate() {
        campaign.unmark();
        assert_row_step(rt, alloc, campaign, place, row)?;
    }
    Ok(())
}
