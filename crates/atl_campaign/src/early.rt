//! The laws that good and sound campaigns are early: a region's guard flags are of one faction.
ghost use Rattle.atl_campaign.specs.Early.{GoodAreEarly, SoundAreEarly};

/// Law: good and sound campaigns are early, and so steady. They meet what the phases up to RECRUIT
/// require. Does nothing: the laws are its clauses. See docs/RULES.md, "Closing a month".
pub fn good_campaigns_are_early()
    ensures good { GoodAreEarly }
    ensures sound { SoundAreEarly }
{}
