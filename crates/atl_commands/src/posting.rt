//! A law: of a faction's mailings for a month only the last one counts. See docs/RULES.md, "Mail".
ghost use Rattle.atl_commands.specs.Posting.{OnlyTheLastMailCounts};

/// Law: of the mail, closing a month depends only on the last stored mailing of each faction. Does
/// nothing: the law is its clause. The order of the factions' mailings, and what a faction sent
/// before its last one, makes no difference.
pub fn only_the_last_mail_counts()
    ensures { OnlyTheLastMailCounts }
{}
