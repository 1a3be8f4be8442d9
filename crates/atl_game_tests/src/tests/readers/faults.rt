//! Tests of the first fault of a world text in both formats, with its number, name and path
//! (docs/FORMATS.md, "Faults of a world file"). tests/program/worlds.py tries many more texts. But
//! no command prints which fault the first format finds.
use super::worlds::{fault, with_markets, with_replaced};
use crate::tests::compare::{assert_fault_number, assert_text_at};
use atl_tables::WorldFault;
use atl_world::{Format, Text};
use std::alloc::Global;
use std::process::Abort;
use std::test::Fail;

/// An edit of the world with one market: a piece of its text, what replaces it, and the first fault
/// of the new text in the second format and in the first (`none`: a good world).
type Edit = (&'static str, &'static str, &'static str, &'static str);

/// First each fault by its number, then faults of regions, then faults of markets, which the first
/// format ignores. In the last four rows there is a second fault, which it finds.
static EDITS: [Edit; 20] = [
    ("[rules]", "a = = b\n[rules]", "1 NotToml", "1 NotToml"),
    (
        "growth = 0",
        "",
        "2 Missing rules.growth",
        "2 Missing rules.growth",
    ),
    (
        "growth = 0",
        "growth = \"x\"",
        "3 WrongType rules.growth",
        "3 WrongType rules.growth",
    ),
    (
        "growth = 0",
        "growth = 101",
        "4 OutOfRange rules.growth",
        "4 OutOfRange rules.growth",
    ),
    (
        "[[skill]]",
        "[[item]]\nname = \"WOOD\"\nweight = 0\ncarry = 0\n[[skill]]",
        "5 TwoNames item[1].name",
        "5 TwoNames item[1].name",
    ),
    (
        "terrain = \"plain\"",
        "terrain = \"hill\"",
        "6 UnknownName region[0].terrain",
        "6 UnknownName region[0].terrain",
    ),
    (
        "money = 500",
        "money = 500\nnorth = 2",
        "7 BadNeighbour region[0].north",
        "7 BadNeighbour region[0].north",
    ),
    ("land = true", "land = false", "8 NoLand", "8 NoLand"),
    (
        "number = 1",
        "",
        "2 Missing region[0].number",
        "2 Missing region[0].number",
    ),
    (
        "name = \"Vale\"",
        "name = \" Vale\"",
        "4 OutOfRange region[0].name",
        "4 OutOfRange region[0].name",
    ),
    (
        "terrain = \"plain\"",
        "terrain = 0",
        "3 WrongType region[0].terrain",
        "3 WrongType region[0].terrain",
    ),
    (
        "peasants = 1000",
        "peasants = 1000000000",
        "4 OutOfRange region[0].peasants",
        "4 OutOfRange region[0].peasants",
    ),
    (
        "money = 500",
        "money = true",
        "3 WrongType region[0].money",
        "3 WrongType region[0].money",
    ),
    (
        "money = 500",
        "money = 500\nwest = 100000",
        "4 OutOfRange region[0].west",
        "4 OutOfRange region[0].west",
    ),
    (
        "price = 7",
        "price = 0",
        "4 OutOfRange region[0].market[0].price",
        "none",
    ),
    (
        "item = \"wood\"",
        "item = \"iron\"",
        "6 UnknownName region[0].market[0].item",
        "none",
    ),
    (
        "restock = 20",
        "restock = -1\n[[region]]\nnumber = 0",
        "4 OutOfRange region[0].market[0].restock",
        "4 OutOfRange region[1].number",
    ),
    (
        "item = \"wood\"\nprice = 7\npays = 5\nlimit = 30\nrestock = 20",
        "item = \"wood\"\n[[region]]\nnumber = 1\nname = \"Dale\"\nterrain = \"plain\"\npeasants = 0\nmoney = 0",
        "2 Missing region[0].market[0].price",
        "5 TwoNames region[1].number",
    ),
    (
        "restock = 20",
        "restock = 20\n[[region.market]]\nitem = \"wood\"\nprice = 1\npays = 1\nlimit = 0\nrestock = 0\n[[region]]\nnumber = 2\nname = \"Dale\"\nterrain = \"hill\"\npeasants = 0\nmoney = 0",
        "5 TwoNames region[0].market[1].item",
        "6 UnknownName region[1].terrain",
    ),
    (
        "money = 500\n[[region.market]]\nitem = \"wood\"",
        "money = 500\nnorth = 2\n[[region.market]]\nitem = \"iron\"",
        "6 UnknownName region[0].market[0].item",
        "7 BadNeighbour region[0].north",
    ),
];

fn assert_faults(
    rt: &impl Abort,
    alloc: Global,
    row: &str,
    text: &str,
    second: &str,
    first: &str,
) -> Result<(), Fail> {
    let actual = fault(alloc, Format::Second, text)?;
    assert_text_at(rt, row, actual.as_str(), second);
    let actual = fault(alloc, Format::First, text)?;
    assert_text_at(rt, row, actual.as_str(), first);
    Ok(())
}

fn assert_edits(rt: &impl Abort, alloc: Global, text: &str) -> Result<(), Fail> {
    for (from, to, second, first) in EDITS.iter() {
        let text = with_replaced(alloc, text, from, to)?;
        assert_faults(rt, alloc, to, text.as_str(), second, first)?;
    }
    Ok(())
}

#[test]
fn faulty_worlds(rt: HostRuntime) -> Result<(), Fail> {
    let text = with_markets(rt.alloc(), 1)?;
    assert_edits(&rt, rt.alloc(), text.as_str())
}

fn path_of(fault: &WorldFault) -> &str {
    match fault.path() {
        Some(path) => path.as_str(),
        None => "none",
    }
}

fn assert_parts(rt: &impl Abort, fault: &WorldFault, number: Option<u8>, name: &str, path: &str) {
    assert_fault_number(rt, fault.number(), number);
    assert_text_at(rt, name, fault.name(), name);
    assert_text_at(rt, name, path_of(fault), path);
}

#[test]
fn parts_of_faults(rt: HostRuntime) -> Result<(), Fail> {
    let path = Text::from_str(rt.alloc(), "rules.growth")?;
    let fault = WorldFault::OutOfRange(path);
    assert_parts(&rt, &fault, Some(4), "OutOfRange", "rules.growth");
    assert_parts(&rt, &WorldFault::Memory, None, "Memory", "none");
    Ok(())
}
