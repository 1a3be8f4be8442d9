//! Tests of `MarkedMap`, a map with a dirty set: the numbers whose values changed since the last
//! `unmark`.
use super::containers::{assert_map, map_of_three};
use crate::tests::compare::{assert_count, assert_numbers};
use atl_world::MarkedMap;
use std::alloc::Global;
use std::process::Abort;
use std::test::Fail;

/// A call of a `MarkedMap`, with the number and the value that it takes, if any.
#[derive(Drop, Clone, Copy)]
enum Step {
    /// Inserts a value under a number that has none.
    Insert(u32, u32),
    /// Puts a value under a number, in place of any that is there.
    Put(u32, u32),
    Change(u32, u32),
    Remove(u32),
    /// Takes a value out together with its mark.
    TakeOut(u32),
    Mark(u32),
    Unmark,
    Clear,
}

/// A call, how many values the map has after it, and which numbers are marked after it.
type Row = (Step, usize, &'static [u32]);

/// Calls, made in turn on the map of `map_of_three` (numbers 1, 20 and 30), by which numbers get
/// marked. Each has the count of values and the marked numbers after it.
static CHANGES: [Row; 12] = [
    (Step::Remove(2), 3, &[]),
    (Step::Change(2, 5), 3, &[]),
    (Step::Change(20, 5), 3, &[20]),
    (Step::Change(20, 6), 3, &[20]),
    (Step::Insert(4, 4), 4, &[4, 20]),
    (Step::Put(1, 8), 4, &[1, 4, 20]),
    (Step::Put(5, 5), 5, &[1, 4, 5, 20]),
    (Step::Remove(5), 4, &[1, 4, 5, 20]),
    (Step::Remove(30), 3, &[1, 4, 5, 20, 30]),
    (Step::Insert(30, 7), 4, &[1, 4, 5, 20, 30]),
    (Step::Insert(8, 1), 5, &[1, 4, 5, 8, 20, 30]),
    (Step::TakeOut(8), 4, &[1, 4, 5, 20, 30]),
];

/// Calls, made in turn on the map of `map_of_three`, by which marks are set and cleared, also those
/// of numbers without a value. Each has the count of values and the marked numbers after it.
static MARKS: [Row; 13] = [
    (Step::Remove(20), 2, &[20]),
    (Step::Unmark, 2, &[]),
    (Step::Mark(20), 2, &[]),
    (Step::Insert(20, 5), 3, &[20]),
    (Step::Mark(30), 3, &[20, 30]),
    (Step::Remove(1), 2, &[1, 20, 30]),
    (Step::Mark(1), 2, &[1, 20, 30]),
    (Step::Insert(1, 9), 3, &[1, 20, 30]),
    (Step::Mark(1), 3, &[1, 20, 30]),
    (Step::TakeOut(1), 2, &[20, 30]),
    (Step::Unmark, 2, &[]),
    (Step::Clear, 0, &[20, 30]),
    (Step::Unmark, 0, &[]),
];

/// Calls, made in turn on the map of `map_of_three`, after which the map has the values from
/// before. A value is removed and inserted again, and a new value is inserted and removed.
static ROUND: [Row; 5] = [
    (Step::Remove(20), 2, &[20]),
    (Step::Insert(20, 2), 3, &[20]),
    (Step::Insert(40, 4), 4, &[20, 40]),
    (Step::Remove(40), 3, &[20, 40]),
    (Step::Unmark, 3, &[]),
];

fn inserts(map: &mut MarkedMap<u32>, number: u32, value: u32) -> Result<(), Fail> {
    if map.get(number).is_none() {
        map.insert(number, value)?;
    }
    Ok(())
}

fn changes_value(map: &mut MarkedMap<u32>, number: u32, value: u32) {
    if let Some(place) = map.get_mut(number) {
        *place = value;
    }
}

fn makes_call(map: &mut MarkedMap<u32>, step: Step) -> Result<(), Fail> {
    match step {
        Step::Insert(number, value) => inserts(map, number, value)?,
        Step::Put(number, value) => map.put(number, value)?,
        Step::Change(number, value) => changes_value(map, number, value),
        Step::Remove(number) => map.remove(number),
        Step::TakeOut(number) => map.take_out(number, false),
        Step::Mark(number) => map.mark(number),
        Step::Unmark => map.unmark(),
        Step::Clear => map.clear(),
    }
    Ok(())
}

fn assert_marks(
    rt: &impl Abort,
    alloc: Global,
    map: &MarkedMap<u32>,
    wanted: &[u32],
) -> Result<(), Fail> {
    let actual: Vec<u32> = map.marked_numbers().collect(alloc)?;
    assert_numbers(rt, actual.as_slice(), wanted);
    assert_count(rt, map.marked_count(), wanted.len());
    Ok(())
}

fn assert_steps(
    rt: &impl Abort,
    alloc: Global,
    map: &mut MarkedMap<u32>,
    rows: &[Row],
) -> Result<(), Fail> {
    for (step, values, marks) in rows.iter() {
        makes_call(map, *step)?;
        assert_count(rt, map.len(), *values);
        assert_marks(rt, alloc, map, marks)?;
    }
    Ok(())
}

fn assert_changed_values(rt: &impl Abort, alloc: Global, map: &MarkedMap<u32>) -> Result<(), Fail> {
    assert!(rt; map.get(20) == Some(&6));
    assert!(rt; map.get(5).is_none());
    assert!(rt; map.is_marked(5));
    assert!(rt; !map.is_marked(8));
    assert_count(rt, map.iter().count(), 4);
    assert_map(rt, alloc, map.values(), &[1, 8, 4, 4, 20, 6, 30, 7])
}

#[test]
fn changes_are_marked(rt: HostRuntime) -> Result<(), Fail> {
    let mut map = MarkedMap::from_values(rt.alloc(), map_of_three(rt.alloc())?)?;
    assert_marks(&rt, rt.alloc(), &map, &[])?;
    assert_steps(&rt, rt.alloc(), &mut map, &CHANGES)?;
    assert_changed_values(&rt, rt.alloc(), &map)
}

fn repeat_round(rt: &impl Abort, alloc: Global, map: &mut MarkedMap<u32>) -> Result<(), Fail> {
    for _ in 0..200 {
        assert_steps(rt, alloc, map, &ROUND)?;
    }
    assert_steps(rt, alloc, map, &MARKS)
}

/// `mark` marks only numbers that have a value or are marked.
#[test]
fn removed_numbers_stay_marked(rt: HostRuntime) -> Result<(), Fail> {
    let mut map = MarkedMap::from_values(rt.alloc(), map_of_three(rt.alloc())?)?;
    repeat_round(&rt, rt.alloc(), &mut map)
}

/// How many numbers the map of the test `marks_in_any_order` has: one less than the prime 1009.
const MANY: u32 = 1008;

/// The order is descending if `falling`, otherwise scattered: each number comes once, since
/// `MANY` + 1 is prime.
fn marks_each(map: &mut MarkedMap<u32>, falling: bool) {
    for step in 1..MANY + 1 {
        if falling {
            map.mark(MANY + 1 - step);
        } else {
            map.mark(step * 387 % (MANY + 1));
        }
    }
}

fn takes_thirds(map: &mut MarkedMap<u32>) {
    for third in 1..MANY / 3 + 1 {
        map.take_out(third * 3, false);
    }
}

fn puts_thirds(map: &mut MarkedMap<u32>) -> Result<(), Fail> {
    for step in 0..MANY / 3 {
        inserts(map, MANY - step * 3, step)?;
    }
    Ok(())
}

/// All numbers are marked if `thirds`, otherwise those that 3 doesn't divide.
fn assert_ascending(rt: &impl Abort, map: &MarkedMap<u32>, thirds: bool, count: usize) {
    assert_count(rt, map.marked_count(), count);
    let mut wanted = 1;
    for number in map.marked_numbers() {
        assert_count(rt, number as usize, wanted);
        wanted = number as usize + if !thirds && number % 3 == 2 { 2 } else { 1 };
    }
}

fn mix_marks(rt: &impl Abort, map: &mut MarkedMap<u32>, falling: bool) -> Result<(), Fail> {
    map.unmark();
    marks_each(map, falling);
    assert_ascending(rt, map, true, 1008);
    takes_thirds(map);
    assert_ascending(rt, map, false, 672);
    puts_thirds(map)?;
    assert_ascending(rt, map, true, 1008);
    map.unmark();
    assert_count(rt, map.marked_count(), 0);
    Ok(())
}

#[test]
fn marks_in_any_order(rt: HostRuntime) -> Result<(), Fail> {
    let mut map = MarkedMap::new(rt.alloc());
    assert_count(&rt, map.len(), 0);
    for number in 0..MANY {
        map.put(number + 1, number)?;
    }
    assert_ascending(&rt, &map, true, 1008);
    mix_marks(&rt, &mut map, true)?;
    mix_marks(&rt, &mut map, false)
}
