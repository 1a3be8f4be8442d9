//! Builds one faction, region or structure, and one name or pass text, from a row. A number that
//! doesn't fit 32 bits (of a kind 16) is read as the largest. Where memory runs out, the answer is
//! AllocError. Names and pass texts have to keep their rules. `take_rows` empties a list of rows.
ghost use Rattle.std.specs.Prelude.{◌≡◌, IfOk, [], true};
ghost use Rattle.atl_world.specs.Names.{name_ok, pass_ok};
ghost use Rattle.atl_campaign.specs.Assembling.{bare_region};
ghost use Rattle.atl_campaign.specs.FromRows.{as_u32, faction_of, structure_of};
ghost use Rattle.atl_campaign.specs.RowRules.{faction_named};

use crate::row_values::{as_u16, as_u32, is_set};
use atl_records::{Faction, Region, Structure};
use atl_rows::parts::{StoredFaction, StoredRegion, StoredStructure};
use atl_world::{Numbered, Sequence, Text};
use std::alloc::{AllocError, Global};
use std::mem;

pub(super) fn name_of(alloc: Global, bytes: &Sequence<u8>) -> Result<Text, AllocError>
    requires { name_ok bytes.now ≡ true }
    ensures { IfOk result (λ name. name ≡ bytes.now) }
{
    Text::from_utf8(alloc, bytes.as_slice())
}

/// Without a copy of the bytes.
pub(crate) fn moved_name(bytes: Sequence<u8>) -> Text
    requires { name_ok bytes ≡ true }
    ensures { result ≡ bytes }
{
    let letters = String::from_utf8(bytes.into_vec()).unwrap();
    Text::from_string(letters)
}

pub(crate) fn pass_of(alloc: Global, bytes: &Sequence<u8>) -> Result<Text, AllocError>
    requires { pass_ok bytes.now ≡ true }
    ensures { IfOk result (λ pass. pass ≡ bytes.now) }
{
    Text::from_utf8(alloc, bytes.as_slice())
}

pub(crate) fn take_rows<T: Drop>(alloc: Global, rows: &mut Sequence<T>) -> Sequence<T>
    ensures taken { result ≡ rows.old }
    ensures left { rows.new ≡ [] }
{
    mem::replace(rows, Sequence::new(alloc))
}

/// The faction that a row of the table `faction` says. Its names and pass text have to keep their
/// rules. It is gone if the flag of the row is any number but 0.
pub(super) fn faction_of(alloc: Global, row: &StoredFaction) -> Result<Faction, AllocError>
    requires { faction_named row.now ≡ true }
    ensures { IfOk result (λ faction. faction ≡ faction_of row.now) }
{
    let joined_as = name_of(alloc, &row.joined_as)?;
    let name = name_of(alloc, &row.name)?;
    let pass = pass_of(alloc, &row.pass)?;
    Ok(Faction {
        number: as_u32(row.number),
        joined_as,
        name,
        pass,
        gone: is_set(row.gone),
    })
}

pub(super) fn bare_region(alloc: Global, row: &StoredRegion) -> Region
    ensures { result ≡ bare_region row.now }
{
    Region {
        peasants: as_u32(row.peasants),
        money: as_u32(row.money),
        stocks: Numbered::new(alloc),
    }
}

/// The structure that a row of the table `structure` says. Its name has to keep the name rule.
pub(super) fn structure_of(alloc: Global, row: &StoredStructure) -> Result<Structure, AllocError>
    requires { name_ok row.now.name ≡ true }
    ensures { IfOk result (λ structure. structure ≡ structure_of row.now) }
{
    let name = name_of(alloc, &row.name)?;
    Ok(Structure {
        kind: as_u16(row.kind),
        name,
        region: as_u32(row.region),
        done: as_u32(row.done),
        owner: as_u32(row.owner),
    })
}
