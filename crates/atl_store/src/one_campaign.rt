//! Laws: a database holds at most one campaign, and texts of at most one world.
ghost use Rattle.atl_store.specs.OneCampaign.{HoldsOneCampaign};
ghost use Rattle.atl_store.specs.OneWorld.{HoldsOneWorld};

/// States laws, and does nothing: a database holds at most one campaign and one world's text. If
/// the tables hold exactly the rows of two texts and of two good campaigns of one world, the texts
/// are equal and the campaigns are equal. If two texts, held with any campaigns, read as worlds,
/// the worlds are equal. See docs/FORMATS.md, "Tables".
pub fn one_database_holds_one_campaign()
    ensures campaign { HoldsOneCampaign }
    ensures world { HoldsOneWorld }
{}
