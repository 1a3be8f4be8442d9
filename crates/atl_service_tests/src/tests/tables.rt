//! SELECTs for numbers of a campaign's tables, and what they return after a join.
use super::compare::assert_amount;
use super::serving::Tables;
use std::process::Abort;

/// The SELECT of the next faction's number times 100,000, plus the next unit's.
pub(crate) const NEXT: &str = "SELECT next_faction * 100000 + next_unit FROM campaign";

/// The SELECT that counts the factions, gone ones too.
pub(crate) const FACTIONS: &str = "SELECT count(*) FROM faction";

pub(crate) const UNITS: &str = "SELECT count(*) FROM unit";

pub(crate) const REPORT_BYTES: &str = "SELECT sum(length(text)) FROM report";

pub(crate) const BOOKS_SUM: &str = "SELECT sum(amount) FROM books";

pub(crate) const MONEY: &str = "SELECT sum(money) FROM unit";

pub(crate) const MAILINGS: &str = "SELECT count(*) FROM mail";

pub(crate) const MAIL_BYTES: &str = "SELECT sum(length(text)) FROM mail";

pub(crate) const MONTH: &str = "SELECT month FROM campaign";

pub(crate) const REGION_MONEY: &str = "SELECT sum(money) FROM region";

pub(crate) const GOODS: &str = "SELECT sum(amount) FROM has WHERE sort = 0";

pub(crate) const DAYS: &str = "SELECT sum(amount) FROM has WHERE sort = 1";

pub(crate) const DONE: &str = "SELECT sum(done) FROM structure";

pub(crate) const STARVED: &str = "SELECT amount FROM books WHERE entry = 10 AND thing = 1";

pub(crate) const INCOME: &str = "SELECT amount FROM books WHERE entry = 3 AND thing = 0";

pub(crate) const WAGES: &str = "SELECT amount FROM books WHERE entry = 4 AND thing = 0";

pub(crate) const UPKEEP: &str = "SELECT amount FROM books WHERE entry = 7 AND thing = 0";

pub(crate) const FORMAT: &str = "SELECT format FROM campaign";

pub(crate) const STOCKED: &str = "SELECT count(*) FROM market";

pub(crate) const STOCK: &str = "SELECT sum(stock) FROM market";

pub(crate) fn assert_tables(
    rt: &impl Abort,
    tables: &mut impl Tables,
    wanted: &[(&str, Option<i64>)],
) {
    for (sql, amount) in wanted {
        assert_amount(rt, tables.number(sql), *amount);
    }
}

pub(crate) static AFTER_JOINING: [(&str, Option<i64>); 8] = [
    (NEXT, Some(200002)),
    (FACTIONS, Some(1)),
    (UNITS, Some(1)),
    (REPORT_BYTES, Some(161)),
    (BOOKS_SUM, Some(2501)),
    (MONEY, Some(1000)),
    (MAILINGS, Some(0)),
    (MAIL_BYTES, None),
];
