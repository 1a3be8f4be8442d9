//! World texts that several crates of tests share, the rows and mailings of a month on the island
//! (`month`), and rows to begin with (`rows`). The small world has one region; the island has three
//! regions of land and one of sea.
#![tactic(auto)]

pub mod month;
pub mod rows;

/// Makes the text of a world with one region from these literals: the money of a faction that
/// joins, the region's work places and peasants, and text to append.
macro_rules! world_of_one_region {
    ($start_money:literal, $places:literal, $peasants:literal, $more:literal) => {
        concat!(
            r#"[rules]
maintenance = 10
tax_per_man = 10
recruit_price = 50
recruit_fraction = 4
growth = 0
income = 1
start_money = "#,
            $start_money,
            r#"
man_weight = 10
man_carry = 5
[[terrain]]
name = "plain"
land = true
wage = 12
places = "#,
            $places,
            r#"
money_limit = 5000
peasant_limit = 2000
[[region]]
number = 1
name = "Vale"
terrain = "plain"
peasants = "#,
            $peasants,
            r#"
money = 500
"#,
            $more
        )
    };
}

/// The text of the small world: one region, without items, skills, kinds and markets.
pub const SMALL_WORLD: &str = world_of_one_region!(1000, 100, 1000, "");

/// The text of the small world without work places, where a faction that joins gets money for half
/// a month.
pub const NO_WORK_PLACES: &str = world_of_one_region!(5, 0, 1000, "");

pub const THREE_PEASANTS: &str = world_of_one_region!(1000, 100, 3, "");

/// The text of the small world with a second region to the east.
pub const TWO_REGIONS: &str = world_of_one_region!(
    1000,
    100,
    1000,
    r#"east = 2
[[region]]
number = 2
name = "Dale"
terrain = "plain"
peasants = 1000
money = 500
west = 1
"#
);

/// The text of the small world with an item (wood) and a skill (sailing).
pub const WOOD_AND_SAILING: &str = world_of_one_region!(
    1000,
    100,
    1000,
    r#"[[item]]
name = "wood"
weight = 5
carry = 0
[[skill]]
name = "sailing"
fee = 10
"#
);

/// The text of the small world with an item (wood) and a market for it.
pub const WOOD_MARKET: &str = world_of_one_region!(
    1000,
    100,
    1000,
    r#"[[region.market]]
item = "wood"
price = 7
pays = 5
limit = 30
restock = 20
[[item]]
name = "wood"
weight = 5
carry = 0
"#
);

/// Makes the text of a world that is an island of three land regions and one of sea, from texts to
/// insert after its first and its third region.
macro_rules! world_of_island {
    ($of_first:literal, $of_third:literal) => {
        concat!(
            r#"[rules]
maintenance = 10
tax_per_man = 10
recruit_price = 50
recruit_fraction = 4
growth = 0
income = 1
start_money = 1000
man_weight = 10
man_carry = 5
observation = "observation"
stealth = "stealth"
sailing = "sailing"
[[terrain]]
name = "plain"
land = true
wage = 12
places = 100
money_limit = 5000
peasant_limit = 2000
[[terrain]]
name = "forest"
land = true
wage = 10
places = 50
money_limit = 2000
peasant_limit = 500
output = { wood = 20 }
[[terrain]]
name = "ocean"
land = false
wage = 1
places = 0
money_limit = 0
peasant_limit = 0
[[item]]
name = "wood"
weight = 5
carry = 0
skill = "lumberjack"
[[item]]
name = "cart"
weight = 50
carry = 100
skill = "carpentry"
raw = "wood"
raw_count = 5
[[skill]]
name = "lumberjack"
fee = 0
[[skill]]
name = "carpentry"
fee = 10
[[skill]]
name = "shipbuilding"
fee = 20
[[skill]]
name = "sailing"
fee = 10
[[skill]]
name = "stealth"
fee = 20
[[skill]]
name = "observation"
fee = 20
[[kind]]
name = "boat"
ship = true
material = "wood"
size = 10
skill = "shipbuilding"
level = 1
capacity = 200
crew = 2
[[kind]]
name = "lodge"
ship = false
material = "wood"
size = 20
skill = "carpentry"
level = 1
helps = "lumberjack"
[[region]]
number = 1
name = "Shore"
terrain = "plain"
peasants = 1000
money = 500
east = 2
"#,
            $of_first,
            r#"[[region]]
number = 2
name = "Sound"
terrain = "ocean"
peasants = 0
money = 0
east = 3
west = 1
[[region]]
number = 3
name = "Far"
terrain = "forest"
peasants = 200
money = 100
north = 4
west = 2
"#,
            $of_third,
            r#"[[region]]
number = 4
name = "Wood"
terrain = "forest"
peasants = 100
money = 50
south = 3
"#
        )
    };
}

pub const ISLE: &str = world_of_island!("", "");

/// The text of the island with a market of wood in its first region.
pub const ISLE_WITH_MARKET: &str = world_of_island!(
    r#"[[region.market]]
item = "wood"
price = 7
pays = 5
limit = 30
restock = 20
"#,
    ""
);

/// The text of the island with markets in two regions: of wood and carts in the first one, and of
/// carts in the third one.
pub const ISLE_WITH_MARKETS: &str = world_of_island!(
    r#"[[region.market]]
item = "cart"
price = 90
pays = 60
limit = 5
restock = 0
[[region.market]]
item = "wood"
price = 7
pays = 5
limit = 30
restock = 20
"#,
    r#"[[region.market]]
item = "cart"
price = 80
pays = 50
limit = 4
restock = 1
"#
);
