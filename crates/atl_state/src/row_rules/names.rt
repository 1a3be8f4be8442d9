//! Rule 3: the names and pass texts of rows. See docs/RULES.md, "Names and pass texts". It is
//! checked where rule 1 holds: there is one campaign row. AllocError says that there was no memory
//! to compare joined names.
ghost use Rattle.std.specs.Prelude.{◌≡◌, IfOk, length, map, ◌↔◌, IsTrue};
ghost use Rattle.std.specs.List.{list_all};
ghost use Rattle.atl_world.specs.Names.{name_ok};
ghost use Rattle.atl_campaign.specs.RowRules.{faction_named, are_named, AreJoinedNamesDistinct, AreRowsNamed};

use super::keys::are_distinct;
use atl_campaign::campaign_row_of;
use atl_campaign::parts::{Parts, StoredFaction, StoredStructure, StoredUnit};
use atl_world::{name_ok, pass_ok};
use std::alloc::{AllocError, Global};

fn faction_named(row: &StoredFaction) -> bool
    ensures { result ≡ faction_named row.now }
{
    name_ok(row.joined_as.as_slice())
        && name_ok(row.name.as_slice())
        && pass_ok(row.pass.as_slice())
}

fn factions_named(rows: &[StoredFaction]) -> bool
    ensures { result ≡ list_all faction_named rows.now }
{
    rows.iter().all(|row| faction_named(row))
}

fn units_named(rows: &[StoredUnit]) -> bool
    ensures { result ≡ list_all (λ r. name_ok r.name) rows.now }
{
    rows.iter().all(|row| name_ok(row.name.as_slice()))
}

fn structures_named(rows: &[StoredStructure]) -> bool
    ensures { result ≡ list_all (λ r. name_ok r.name) rows.now }
{
    rows.iter().all(|row| name_ok(row.name.as_slice()))
}

fn are_named(parts: &Parts) -> bool
    requires { length parts.now.campaign ≡ 1 }
    ensures { result ≡ are_named parts.now }
{
    pass_ok(campaign_row_of(parts).pass.as_slice())
        && factions_named(parts.factions.as_slice())
        && units_named(parts.units.as_slice())
        && structures_named(parts.structures.as_slice())
}

fn joined_names(alloc: Global, rows: &[StoredFaction]) -> Result<Vec<&[u8]>, AllocError>
    ensures { IfOk result (λ names. map (λ name. name.now) names.items
        ≡ map (λ r. r.joined_as) rows.now) }
{
    let mut names = Vec::new(alloc);
    for row in rows {
        names.push(row.joined_as.as_slice())?;
    }
    Ok(names)
}

fn joined_names_differ(alloc: Global, rows: &[StoredFaction]) -> Result<bool, AllocError>
    ensures { IfOk result (λ yes. IsTrue yes ↔ (AreJoinedNamesDistinct rows.now)) }
{
    let names = joined_names(alloc, rows)?;
    are_distinct(alloc, &names)
}

pub(crate) fn rows_named(alloc: Global, parts: &Parts) -> Result<bool, AllocError>
    requires { length parts.now.campaign ≡ 1 }
    ensures { IfOk result (λ yes. IsTrue yes ↔ (AreRowsNamed parts.now)) }
{
    let joined = joined_names_differ(alloc, parts.factions.as_slice())?;
    Ok(joined && are_named(parts))
}
