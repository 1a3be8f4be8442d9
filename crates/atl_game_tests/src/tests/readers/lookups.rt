//! Tests of the look-ups of items, skills and kinds by a word of a mailing.
use super::worlds::world_with;
use crate::tests::compare::assert_shown;
use atl_world::World;
use std::alloc::Global;
use std::process::Abort;
use std::test::Fail;

/// The text of items, skills and kinds whose names have one word, two words, or an underscore.
const NAMED: &str = r#"[[item]]
name = "wood"
weight = 0
carry = 0
[[item]]
name = "Long Bow"
weight = 0
carry = 0
[[item]]
name = "long_bow"
weight = 0
carry = 0
[[skill]]
name = "sailing"
fee = 0
[[skill]]
name = "Tree Felling"
fee = 0
[[skill]]
name = "tree_felling"
fee = 0
[[kind]]
name = "boat"
ship = true
material = "wood"
size = 1
skill = "sailing"
level = 1
[[kind]]
name = "Town Wall"
ship = false
material = "wood"
size = 1
skill = "sailing"
level = 1
[[kind]]
name = "town_wall"
ship = false
material = "wood"
size = 1
skill = "sailing"
level = 1
"#;

/// Words of mailings, whether each is quoted, and the numbers of the item, the skill and the kind
/// that it names, as `Debug` prints them.
static NAMES: [(&str, bool, &str); 26] = [
    ("wood", false, "[Some(0), None, None]"),
    ("WOOD", true, "[Some(0), None, None]"),
    ("Long_Bow", false, "[Some(1), None, None]"),
    ("LONG BOW", false, "[Some(1), None, None]"),
    ("long bow", true, "[Some(1), None, None]"),
    ("LONG_BOW", true, "[Some(2), None, None]"),
    ("sailing", false, "[None, Some(0), None]"),
    ("SAILing", true, "[None, Some(0), None]"),
    ("tree_FELLING", false, "[None, Some(1), None]"),
    ("Tree Felling", true, "[None, Some(1), None]"),
    ("Tree_Felling", true, "[None, Some(2), None]"),
    ("boat", true, "[None, None, Some(0)]"),
    ("BoaT", false, "[None, None, Some(0)]"),
    ("Town_Wall", false, "[None, None, Some(1)]"),
    ("TOWN WALL", true, "[None, None, Some(1)]"),
    ("TOWN_WALL", true, "[None, None, Some(2)]"),
    // These name nothing.
    ("", false, "[None, None, None]"),
    ("", true, "[None, None, None]"),
    ("woo", false, "[None, None, None]"),
    ("woods", true, "[None, None, None]"),
    ("wood ", true, "[None, None, None]"),
    ("_wood", false, "[None, None, None]"),
    ("longbow", false, "[None, None, None]"),
    ("long-bow", false, "[None, None, None]"),
    ("plain", false, "[None, None, None]"),
    ("Vale", true, "[None, None, None]"),
];

fn assert_names_of_word(
    rt: &impl Abort,
    alloc: Global,
    world: &World,
    row: &(&str, bool, &str),
) -> Result<(), Fail> {
    let (word, quoted, wanted) = *row;
    let bytes = word.as_bytes();
    let actual = [
        world.item_named(bytes, quoted),
        world.skill_named(bytes, quoted),
        world.kind_named(bytes, quoted),
    ];
    assert_shown(rt, alloc, word, &actual, wanted)
}

fn assert_names_of_words(rt: &impl Abort, alloc: Global, world: &World) -> Result<(), Fail> {
    for row in NAMES.iter() {
        assert_names_of_word(rt, alloc, world, row)?;
    }
    Ok(())
}

/// A word of a mailing names the item, skill or kind whose name it is, ignoring case, with `_` as a
/// space if the word is unquoted. Any other word names nothing.
#[test]
fn names_in_orders(rt: HostRuntime) -> Result<(), Fail> {
    let world = world_with(rt.alloc(), NAMED)?;
    assert_names_of_words(&rt, rt.alloc(), &world)
}
