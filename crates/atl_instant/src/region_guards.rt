//! A map of which faction guards each region. See docs/RULES.md, "Guarding".
ghost use Rattle.std.specs.Prelude.{◌≡◌, IfOk, OnOk};
ghost use Rattle.std.specs.FinMap as map;
ghost use Rattle.atl_instant.specs.RegionGuards.{guard_map_of, has_other_guard, with_guard_of};

use atl_campaign::{Campaign, Unit};
use atl_world::Numbered;
use std::alloc::{AllocError, Global};
use std::marker::Model;

/// The number of the faction that guards each region, by region.
#[derive(Drop)]
pub(crate) struct RegionGuards {
    factions: Numbered<u32>,
}

/// Contracts see the map as a finite map from region to faction.
impl Model for RegionGuards {
    ghost use Rattle.std.specs.Coded.{coded_ℕ};
    ghost use Rattle.std.specs.FinMap as map;
    ghost use Rattle.atl_instant.specs.RegionGuards.{GuardMap};

    ghost Value = { GuardMap };

    ghost coded = { map.code coded_ℕ coded_ℕ };

    ghost view = { λ a. a.factions };
}

impl RegionGuards {
    /// The map of which faction guards each region of a campaign; if several do, that of the guard
    /// with the highest number. It takes one pass over the units. AllocError without memory.
    pub(crate) fn of_campaign(
        alloc: Global,
        campaign: &Campaign,
    ) -> Result<RegionGuards, AllocError>
        ensures { IfOk result (λ holders. holders ≡ guard_map_of campaign.now.value) }
    {
        let mut holders = RegionGuards {
            factions: Numbered::new(alloc),
        };
        for (_, unit) in campaign.units() {
            holders.note(unit)?;
        }
        Ok(holders)
    }

    /// If the unit guards, enters its faction under its region, in place of any; else does nothing.
    fn note(&mut self, unit: &Unit) -> Result<(), AllocError>
        ensures { OnOk result (self.new ≡ with_guard_of self.old unit.now) }
    {
        if unit.holding.guard() && unit.holding.men() > 0 {
            self.set(unit.region, unit.faction)?;
        }
        Ok(())
    }

    /// Enters a faction as the guard of a region, in place of any. AllocError without memory.
    pub(crate) fn set(&mut self, region: u32, faction: u32) -> Result<(), AllocError>
        ensures { OnOk result (self.new ≡ map.insert self.old region faction) }
    {
        self.factions.insert(region, faction)
    }

    pub(crate) fn has_other_guard(&self, region: u32, faction: u32) -> bool
        ensures { result ≡ has_other_guard faction (map.get self.now region) }
    {
        let holder = self.factions.get(region);
        holder.is_some_and(|holder| *holder != faction)
    }
}
