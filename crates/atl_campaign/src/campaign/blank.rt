//! The blank campaign, which founding fills.
ghost use Rattle.std.specs.Prelude.{◌≡◌};
ghost use Rattle.atl_campaign.specs.Campaign.{blank};

use super::Campaign;
use crate::regions::Regions;
use crate::units::Units;
use atl_lists::UnitLists;
use atl_records::Books;
use atl_world::{MarkedMap, Marks, Text};
use std::alloc::Global;

impl Campaign {
    /// A campaign without factions, regions, units, structures, mail, reports or pass text. It is
    /// in month 0, with next numbers 1, books of no things and nothing marked. `founded` starts
    /// from it and fills it. Closing a month leaves it in place of the campaign that moves through
    /// the phases. It takes no memory.
    pub fn blank(alloc: Global) -> Campaign
        ensures { result ≡ blank }
    {
        Campaign {
            alloc,
            month: 0,
            pass: Text::from_string(String::new(alloc)),
            next_faction: 1,
            next_unit: 1,
            next_structure: 1,
            factions: MarkedMap::new(alloc),
            regions: Regions::new(alloc),
            units: Units::new(alloc),
            structures: MarkedMap::new(alloc),
            mail: MarkedMap::new(alloc),
            reports: MarkedMap::new(alloc),
            books: Books::blank(alloc),
            amounts_marked: Marks::new(alloc),
            row_marked: false,
            lists: UnitLists::new(alloc),
        }
    }
}
