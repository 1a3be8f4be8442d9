//! World texts for these tests, made of the small world (`SMALL_WORLD`, one region), and what the
//! reader makes of them.
use atl_tables::{WorldFault, read_old_world, read_world};
use atl_test_worlds::SMALL_WORLD;
use atl_world::{Format, Text, World};
use std::alloc::Global;
use std::test::Fail;

/// The text of one item, one skill and one kind, which tests append to the small world.
const ITEM_SKILL_KIND: &str = r#"[[item]]
name = "wood"
weight = 5
carry = 0
[[skill]]
name = "carpentry"
fee = 10
[[kind]]
name = "lodge"
ship = false
material = "wood"
size = 20
skill = "carpentry"
level = 1
"#;

/// The text of a market, which belongs to the region above it.
const MARKET: &str = r#"[[region.market]]
item = "wood"
price = 7
pays = 5
limit = 30
restock = 20
"#;

/// The text of the items, skills and kinds that the orders in the tests of mailings name.
pub(crate) const NAMED_THINGS: &str = r#"[[item]]
name = "wood"
weight = 5
carry = 0
[[item]]
name = "long bow"
weight = 1
carry = 0
[[skill]]
name = "sailing"
fee = 10
[[skill]]
name = "tree felling"
fee = 0
[[kind]]
name = "boat"
ship = true
material = "wood"
size = 10
skill = "sailing"
level = 1
"#;

pub(crate) fn with_markets(alloc: Global, count: usize) -> Result<String, Fail> {
    let markets = MARKET.repeat(alloc, count)?;
    Ok(format!(in alloc; "{SMALL_WORLD}{markets}{ITEM_SKILL_KIND}")?)
}

pub(crate) fn world_with(alloc: Global, more: &str) -> Result<World, Fail> {
    let text = format!(in alloc; "{SMALL_WORLD}{more}")?;
    Ok(read_world(alloc, text.as_str())?)
}

pub(crate) fn read_in(alloc: Global, format: Format, text: &str) -> Result<World, WorldFault> {
    match format {
        Format::First => read_old_world(alloc, text),
        Format::Second => read_world(alloc, text),
    }
}

/// The first fault of a text that is read in a format, as a program prints it, or `none`.
pub(crate) fn fault(alloc: Global, format: Format, text: &str) -> Result<Text, Fail> {
    let fault = read_in(alloc, format, text).err();
    text_of(alloc, fault.as_ref())
}

fn text_of(alloc: Global, fault: Option<&WorldFault>) -> Result<Text, Fail> {
    match fault {
        None => Ok(Text::from_str(alloc, "none")?),
        Some(fault) => Ok(Text::from_string(format!(in alloc; "{fault}")?)),
    }
}

pub(crate) fn with_replaced(
    alloc: Global,
    text: &str,
    from: &str,
    to: &str,
) -> Result<String, Fail> {
    match text.split_once(from) {
        None => Err(Fail::new("no such piece")),
        Some((before, after)) => Ok(format!(in alloc; "{before}{to}{after}")?),
    }
}
