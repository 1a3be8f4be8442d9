//! Tests of levels, and of what units weigh and carry (docs/RULES.md, "Levels and loads"). The
//! island is the world `ISLE` of atl_test_worlds.
use super::making::one_man;
use crate::tests::compare::assert_row;
use atl_campaign::{Holding, carry, goods, level, load};
use atl_tables::read_world;
use atl_test_worlds::ISLE;
use atl_world::World;
use std::alloc::Global;
use std::process::Abort;
use std::test::Fail;

/// Cases of levels: days of study, men, and the level that the days give them.
static LEVELS: [(u32, u32, u32); 22] = [
    (0, 1, 0),
    (29, 1, 0),
    (30, 1, 1),
    (89, 1, 1),
    (90, 1, 2),
    (179, 1, 2),
    (180, 1, 3),
    (299, 1, 3),
    (300, 1, 4),
    (449, 1, 4),
    (450, 1, 5),
    (59, 2, 0),
    (60, 2, 1),
    (899, 2, 4),
    (900, 2, 5),
    (750, 25, 1),
    (0, 0, 0),
    (450, 0, 0),
    (449_999_549, 999_999, 4),
    (449_999_550, 999_999, 5),
    (4_294_967_295, 1, 5),
    (4_294_967_295, 4_294_967_295, 0),
];

#[test]
fn levels_at_their_bounds(rt: HostRuntime) {
    for (row, (days, men, wanted)) in LEVELS.iter().enumerate() {
        assert_row(&rt, row, u64::from(level(*days, *men)), u64::from(*wanted));
    }
}

/// A row of `LOADS`: a unit's men, wood and carts, and the wanted weight of its goods, its wanted
/// weight in all (`load`), and the weight that it can carry.
struct Load {
    men: u32,
    wood: u32,
    carts: u32,
    goods: u64,
    load: u64,
    carry: u64,
}

/// Cases of loads on the island, where a man weighs 10 and carries 5, wood weighs 5, and a cart
/// weighs 50 and carries 100.
static LOADS: [Load; 6] = [
    Load {
        men: 0,
        wood: 0,
        carts: 0,
        goods: 0,
        load: 0,
        carry: 0,
    },
    Load {
        men: 1,
        wood: 1,
        carts: 0,
        goods: 5,
        load: 15,
        carry: 5,
    },
    Load {
        men: 1,
        wood: 2,
        carts: 0,
        goods: 10,
        load: 20,
        carry: 5,
    },
    Load {
        men: 2,
        wood: 12,
        carts: 0,
        goods: 60,
        load: 80,
        carry: 10,
    },
    Load {
        men: 4,
        wood: 2,
        carts: 2,
        goods: 110,
        load: 150,
        carry: 220,
    },
    Load {
        men: 999_999,
        wood: 0,
        carts: 999_999_999,
        goods: 49_999_999_950,
        load: 50_009_999_940,
        carry: 100_004_999_895,
    },
];

const WOOD: u32 = 0;

const CART: u32 = 1;

fn takes(holding: &mut Holding, row: &Load) -> Result<(), Fail> {
    if row.men > 999_999 || row.wood > 999_999_999 || row.carts > 999_999_999 {
        return Err(Fail::new("within the limits"));
    }
    holding.set_men(row.men);
    holding.set_amount(WOOD, row.wood)?;
    holding.set_amount(CART, row.carts)?;
    Ok(())
}

fn assert_weights(rt: &impl Abort, world: &World, place: usize, holding: &Holding, row: &Load) {
    assert_row(rt, place, goods(world, holding), row.goods);
    assert_row(rt, place, load(world, holding), row.load);
    assert_row(rt, place, carry(world, holding), row.carry);
}

fn assert_all_weights(rt: &impl Abort, alloc: Global, world: &World) -> Result<(), Fail> {
    let mut holding = one_man(alloc)?;
    for (place, row) in LOADS.iter().enumerate() {
        takes(&mut holding, row)?;
        assert_weights(rt, world, place, &holding, row);
    }
    Ok(())
}

#[test]
fn goods_loads_and_carriage(rt: HostRuntime) -> Result<(), Fail> {
    let world = read_world(rt.alloc(), ISLE)?;
    assert_all_weights(&rt, rt.alloc(), &world)
}
