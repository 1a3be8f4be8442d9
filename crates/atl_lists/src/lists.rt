//! Sorted lists of units, one for each region, faction and structure. Where a number to take out
//! isn't in a list, the first one that isn't below it is taken out (`take_number`). Where memory
//! runs out, the answer is AllocError.
ghost use Rattle.std.specs.Prelude.{◌≡◌, OnOk, OnErr};
ghost use Rattle.std.specs.FinMap as map;
ghost use Rattle.atl_lists.specs.Lists.{list_of, list_keys_of, listed_unless, unlisted_unless, relisted_inside, AreUnitLists, SameLists, ListsUnit, KeepsLists, KeepsAll, UnlistsUnit, RelistsUnit};
ghost use Rattle.atl_containers.specs.Ordered.{put_number, take_number};

use atl_containers::Numbers;
use atl_records::Unit;
use atl_world::{Numbered, let_go};
use std::alloc::{AllocError, Global};

/// The numbers of the units of each region, each faction and each structure, in rising order.
/// Structure 0 has no list: units with it are inside none.
pub struct UnitLists {
    pub by_region: Numbered<Numbers>,
    pub by_faction: Numbered<Numbers>,
    pub by_structure: Numbered<Numbers>,
}

impl Drop for UnitLists {
    fn drop(self) {
        let_go!(self: UnitLists { by_region, by_faction, by_structure });
    }
}

/// The keys of the lists that a unit is in: the numbers of its faction, its region and its
/// structure; 0 where it is inside none.
#[derive(Drop, Clone, Copy)]
pub struct ListKeys {
    pub faction: u32,
    pub region: u32,
    pub structure: u32,
}

/// The keys of the lists that a unit has to be in.
pub fn list_keys_of(unit: &Unit) -> ListKeys
    ensures { result ≡ list_keys_of unit.now }
{
    ListKeys {
        faction: unit.faction,
        region: unit.region,
        structure: unit.structure,
    }
}

impl UnitLists {
    /// The lists of no units.
    pub fn new(alloc: Global) -> UnitLists
        ensures { AreUnitLists map.empty result }
    {
        UnitLists {
            by_region: Numbered::new(alloc),
            by_faction: Numbered::new(alloc),
            by_structure: Numbered::new(alloc),
        }
    }

    /// Adds a unit that isn't listed yet to the lists of its keys, `listing`. Without memory the
    /// lists stay those of the same units.
    pub fn add(&mut self, alloc: Global, number: u32, listing: ListKeys) -> Result<(), AllocError>
        ensures ok { OnOk result (ListsUnit number listing self.old self.new) }
        ensures err { OnErr result (KeepsLists number self.old self.new) }
    {
        list_number(alloc, &mut self.by_region, listing.region, number)?;
        match list_number(alloc, &mut self.by_faction, listing.faction, number) {
            Ok(()) => {}
            Err(e) => {
                unlist_number(&mut self.by_region, listing.region, number);
                return Err(e);
            }
        }
        match list_unless(alloc, &mut self.by_structure, number, listing.structure, 0) {
            Ok(()) => Ok(()),
            Err(e) => {
                unlist_number(&mut self.by_region, listing.region, number);
                unlist_number(&mut self.by_faction, listing.faction, number);
                Err(e)
            }
        }
    }

    /// Removes a listed unit from the lists of its keys, `listing`. It takes no memory.
    pub fn remove(&mut self, number: u32, listing: ListKeys)
        ensures { UnlistsUnit number listing self.old self.new }
    {
        unlist_number(&mut self.by_region, listing.region, number);
        unlist_number(&mut self.by_faction, listing.faction, number);
        unlist_unless(&mut self.by_structure, number, listing.structure, 0);
    }

    /// Moves a unit that is listed under the keys `from` to those of `to`; the faction has to stay
    /// the same. Without memory the lists stay those of the same units.
    pub fn relist(
        &mut self,
        alloc: Global,
        number: u32,
        from: ListKeys,
        to: ListKeys,
    ) -> Result<(), AllocError>
        requires { to.faction ≡ from.faction }
        ensures ok { OnOk result (RelistsUnit number from to self.old self.new) }
        ensures err { OnErr result (KeepsAll self.old self.new) }
    {
        list_unless(alloc, &mut self.by_region, number, to.region, from.region)?;
        match relist_inside(
            alloc,
            &mut self.by_structure,
            number,
            from.structure,
            to.structure,
        ) {
            Ok(()) => {}
            Err(e) => {
                unlist_unless(&mut self.by_region, number, to.region, from.region);
                return Err(e);
            }
        }
        unlist_unless(&mut self.by_region, number, from.region, to.region);
        Ok(())
    }
}

/// Moves a number from the list of structure `from` to that of `to`; structure 0 has no list, and
/// nothing changes if both are one. Without memory nothing changes either.
fn relist_inside(
    alloc: Global,
    lists: &mut Numbered<Numbers>,
    number: u32,
    from: u32,
    to: u32,
) -> Result<(), AllocError>
    ensures ok { OnOk result (SameLists lists.new (relisted_inside lists.old number from to)) }
    ensures err { OnErr result (lists.new ≡ lists.old) }
{
    if from == to {
        return Ok(());
    }
    list_unless(alloc, lists, number, to, 0)?;
    unlist_unless(lists, number, from, 0);
    Ok(())
}

/// Puts a number into the list under a key, unless that is `other`. Without memory nothing changes.
fn list_unless(
    alloc: Global,
    lists: &mut Numbered<Numbers>,
    number: u32,
    key: u32,
    other: u32,
) -> Result<(), AllocError>
    ensures ok { OnOk result (lists.new ≡ listed_unless lists.old number key other) }
    ensures err { OnErr result (lists.new ≡ lists.old) }
{
    if key == other {
        return Ok(());
    }
    list_number(alloc, lists, key, number)
}

/// Takes a number out of the list under a key, unless that is `other`. It takes no memory.
fn unlist_unless(lists: &mut Numbered<Numbers>, number: u32, key: u32, other: u32)
    ensures { SameLists lists.new (unlisted_unless lists.old number key other) }
{
    if key != other {
        unlist_number(lists, key, number);
    }
}

/// Puts a number into the list under a key. Without memory for it nothing changes.
fn list_number(
    alloc: Global,
    lists: &mut Numbered<Numbers>,
    key: u32,
    number: u32,
) -> Result<(), AllocError>
    ensures ok { OnOk result
        (lists.new ≡ map.insert lists.old key (put_number number (list_of lists.old key))) }
    ensures err { OnErr result (lists.new ≡ lists.old) }
{
    match lists.get_mut(key) {
        Some(list) => list.put(number),
        None => {
            let mut list = Numbers::new(alloc);
            list.put(number)?;
            lists.insert(key, list)
        }
    }
}

/// Takes a number out of the list under a key; without a list nothing changes. It takes no memory.
fn unlist_number(lists: &mut Numbered<Numbers>, key: u32, number: u32)
    ensures { SameLists lists.new
        (map.insert lists.old key (take_number number (list_of lists.old key))) }
{
    if let Some(list) = lists.get_mut(key) {
        list.take(number);
    }
}

/// The numbers in the list under a key; none where there is no list.
pub fn numbers_under(lists: &Numbered<Numbers>, key: u32) -> &[u32]
    ensures { result.now ≡ list_of lists.now key }
{
    match lists.get(key) {
        Some(list) => list.as_slice(),
        None => &[],
    }
}
