//! Lets a faction join. Where memory runs out, the private calls answer AllocError. Names and pass
//! texts have to be UTF-8. See docs/RULES.md, "Joining".
ghost use Rattle.std.specs.Prelude.{◌≡◌, ◌≤◌, ◌<◌, ◌++◌, IsTrue, IfOk, OnOk, OnErr, codes, false, nat_eq, pos};
ghost use Rattle.std.specs.Cmp.Lexicographic.{pointwise};
ghost use Rattle.std.specs.FinMap as map;
ghost use Rattle.std.specs.Fmt.{decimal};
ghost use Rattle.std.specs.List.{list_any};
ghost use Rattle.std.specs.Str.{IsUtf8};
ghost use Rattle.atl_world.specs.Names.{name_ok, pass_ok};
ghost use Rattle.atl_world.specs.Worlds.{IsWorld};
ghost use Rattle.atl_records.specs.declared.books.BooksEntry.TheVariants.{Joining};
ghost use Rattle.atl_records.specs.declared.books.Thing.TheVariants.{Money, People};
ghost use Rattle.atl_records.specs.Books.{amount_in, after_booking, LeavesRoomForJoining};
ghost use Rattle.atl_campaign.specs.Good.{IsGood, IsSound};
ghost use Rattle.atl_campaign.specs.Joining.{name_taken, is_full, home_of, new_faction, after_join, Joins};
ghost use Rattle.atl_records.specs.Limits.{holding_limit, last_unit};
ghost use Rattle.atl_campaign.specs.Marking.{mark_join};

use super::Campaign;
use atl_records::{
    Books, BooksEntry, Faction, Holding, JoinFault, LAST_UNIT, MOST_UNITS, Thing, Unit,
    amount_number,
};
use atl_words::LAST_FACTION;
use atl_world::{MarkedMap, Numbered, Text, World};
use std::alloc::{AllocError, Global};

/// Whether a faction, gone or not, joined under exactly this name.
fn is_taken(factions: &MarkedMap<Faction>, name: &[u8]) -> bool
    ensures { result ≡ list_any (λ e. pointwise nat_eq e.1.joined_as name.now)
        (map.entries factions.now.values) }
{
    for (_, faction) in factions.iter() {
        if faction.joined_as.as_bytes() == name {
            return true;
        }
    }
    false
}

/// The number of the region where a faction begins, which the word of the dice picks.
fn home(world: &World, word: u32) -> u32
    ensures { result ≡ home_of world.now word }
{
    let land = world.land();
    land[word as usize % land.len()]
}

/// A unit of one man with the money, at most 999,999,999, and the name `Unit` with its number. It
/// is inside no structure, has no items or days of study, and its guard flag is clear.
fn make_unit(
    alloc: Global,
    number: u32,
    faction: u32,
    region: u32,
    money: u32,
) -> Result<Unit, AllocError>
    requires { money ≤ holding_limit }
    ensures { IfOk result (λ unit. unit
        ≡ record {
          faction = faction;
          region = region;
          structure = 0;
          holding = record {
            name = codes "Unit " ++ decimal number;
            men = 1;
            money = money;
            guard = false;
            items =
                map.empty;
            days = map.empty;
          };
        }) }
{
    let name = Text::from_string(format!(in alloc; "Unit {number}")?);
    Ok(Unit {
        faction,
        region,
        structure: 0,
        holding: Holding::new(name, 1, money, Numbered::new(alloc), Numbered::new(alloc)),
    })
}

fn make_faction(alloc: Global, number: u32, name: &[u8], pass: &[u8]) -> Result<Faction, AllocError>
    requires name { IsUtf8 name.now }
    requires pass { IsUtf8 pass.now }
    ensures { IfOk result (λ faction. faction ≡ new_faction number name.now pass.now) }
{
    Ok(Faction {
        number,
        joined_as: Text::from_utf8(alloc, name)?,
        name: Text::from_utf8(alloc, name)?,
        pass: Text::from_utf8(alloc, pass)?,
        gone: false,
    })
}

/// Books one man and his money under joining. The books need both things, and room in both amounts.
fn book_joining(books: &mut Books, money: u32)
    requires things { 2 ≤ books.old.things }
    requires money { LeavesRoomForJoining (amount_in books.old Joining Money) }
    requires people { LeavesRoomForJoining (amount_in books.old Joining People) }
    ensures { books.new ≡ after_booking (after_booking books.old Joining Money (pos money)) Joining
        People (pos 1) }
{
    books.book(BooksEntry::Joining, Thing::Money, i64::from(money));
    books.book(BooksEntry::Joining, Thing::People, 1);
}

impl Campaign {
    fn is_name_taken(&self, name: &[u8]) -> bool
        ensures { result ≡ name_taken self.now.value name.now }
    {
        is_taken(&self.factions, name)
    }

    fn is_full(&self) -> bool
        ensures { result ≡ is_full self.now.value }
    {
        self.factions.len() >= LAST_FACTION as usize
            || self.units.len() >= MOST_UNITS
            || self.next_unit > LAST_UNIT
    }

    /// Adds a faction with one unit, and returns the numbers of both. The campaign has to be good,
    /// and the name and the pass text have to keep their rules. The unit is one man with the start
    /// money, in the land region that the word of the dice picks. What the unit brings is booked,
    /// and what changed is marked. The campaign is sound then: good, but that the new faction lacks
    /// its report. NameTaken if a faction, gone or not, joined under this name; else Full if there
    /// are 9,999 factions or 100,000 units, or no unit number is left; else Memory without memory.
    /// After each the campaign and its marks stay as they are. See docs/RULES.md, "Joining".
    #[tactic(auto, unfolding(crate::specs::Joining::join_of))]
    pub fn join(
        &mut self,
        world: &World,
        name: &[u8],
        pass: &[u8],
        word: u32,
    ) -> Result<(u32, u32), JoinFault>
        requires good { IsGood world.now self.old.value }
        requires name { IsTrue (name_ok name.now) }
        requires pass { IsTrue (pass_ok pass.now) }
        ensures definition { Joins world.now name.now pass.now word self.old.value result
            self.new.value }
        ensures sound { IsSound world.now self.new.value }
        ensures marks { OnOk result (self.new.marks ≡ mark_join self.old) }
        ensures err { OnErr result (self.new ≡ self.old) }
    {
        if self.is_name_taken(name) {
            return Err(JoinFault::NameTaken);
        }
        if self.is_full() {
            return Err(JoinFault::Full);
        }
        match self.enroll(world, name, pass, word) {
            Ok(numbers) => Ok(numbers),
            Err(_) => Err(JoinFault::Memory),
        }
    }

    /// Adds the faction and its unit, booked and marked, and returns their numbers. The word of the
    /// dice picks the unit's region. The campaign has to be sound, with a unit number left, and the
    /// texts UTF-8. The world keeps its rules (`world`). After AllocError nothing has changed.
    fn enroll(
        &mut self,
        world: &World,
        name: &[u8],
        pass: &[u8],
        word: u32,
    ) -> Result<(u32, u32), AllocError>
        requires sound { IsSound world.now self.old.value }
        requires room { self.old.value.next_unit ≤ last_unit }
        requires name { IsUtf8 name.now }
        requires pass { IsUtf8 pass.now }
        ensures ok { OnOk result
            (self.new.value ≡ after_join world.now name.now pass.now word self.old.value) }
        ensures numbers { IfOk result
            (λ numbers. numbers ≡ (self.old.value.next_faction, self.old.value.next_unit)) }
        ensures err { OnErr result (self.new ≡ self.old) }
        ensures marks { OnOk result (self.new.marks ≡ mark_join self.old) }
        ensures world { IsWorld world.now }
    {
        let faction = self.next_faction;
        let number = self.next_unit;
        let money = world.rules().start_money;
        let region = home(world, word);
        let unit = make_unit(self.alloc, number, faction, region, money)?;
        let member = make_faction(self.alloc, faction, name, pass)?;
        let was_marked = self.factions.is_marked(faction);
        self.factions.insert(faction, member)?;
        match self.begin_unit(unit) {
            Ok(_) => {}
            Err(e) => {
                self.factions.take_out(faction, was_marked);
                return Err(e);
            }
        }
        self.next_faction = faction + 1;
        book_joining(&mut self.books, money);
        self.amounts_marked
            .add(amount_number(BooksEntry::Joining, Thing::Money));
        self.amounts_marked
            .add(amount_number(BooksEntry::Joining, Thing::People));
        Ok((faction, number))
    }
}
