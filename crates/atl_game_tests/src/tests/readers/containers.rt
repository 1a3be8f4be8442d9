//! Tests of `Text`, `Sequence` and `Numbered` (a map by number), call by call.
use crate::tests::compare::{assert_count, assert_numbers, assert_text_at};
use atl_world::{Numbered, Sequence, Text};
use std::alloc::Global;
use std::process::Abort;
use std::test::Fail;

fn assert_text_and_copy(
    rt: &impl Abort,
    alloc: Global,
    text: &Text,
    wanted: &str,
) -> Result<(), Fail> {
    assert!(rt; text.as_bytes() == wanted.as_bytes());
    assert_text_at(rt, wanted, text.as_str(), wanted);
    assert_text_at(rt, wanted, text.copy(alloc)?.as_str(), wanted);
    Ok(())
}

fn assert_made_in_each_way(rt: &impl Abort, alloc: Global, text: &str) -> Result<(), Fail> {
    assert_text_and_copy(rt, alloc, &Text::from_str(alloc, text)?, text)?;
    let string = String::from_str(alloc, text)?;
    assert_text_and_copy(rt, alloc, &Text::from_string(string), text)?;
    assert_text_and_copy(rt, alloc, &Text::from_utf8(alloc, text.as_bytes())?, text)
}

/// The texts of which each `Text` is made: empty, one letter, with a space, and beyond ASCII.
static TEXTS: [&str; 4] = ["", "a", "Big Bob", "\u{e9}\u{1f600}"];

#[test]
fn texts_have_their_bytes(rt: HostRuntime) -> Result<(), Fail> {
    for text in TEXTS.iter() {
        assert_made_in_each_way(&rt, rt.alloc(), text)?;
    }
    Ok(())
}

fn assert_list(rt: &impl Abort, list: &Sequence<u32>, wanted: &[u32]) {
    assert_count(rt, list.len(), wanted.len());
    assert_numbers(rt, list.as_slice(), wanted);
}

#[test]
fn sequences_keep_their_values(rt: HostRuntime) -> Result<(), Fail> {
    let mut list = Sequence::new(rt.alloc());
    assert_list(&rt, &list, &[]);
    list.push(3)?;
    list.push(1)?;
    let mut again = Sequence::from_vec(list.into_vec());
    again.push(2)?;
    assert_list(&rt, &again, &[3, 1, 2]);
    assert_list(&rt, &Sequence::from_slice(rt.alloc(), &[7, 7])?, &[7, 7]);
    Ok(())
}

/// Asserts the entries of a map: `wanted` is each number followed by its value.
pub(crate) fn assert_map(
    rt: &impl Abort,
    alloc: Global,
    map: &Numbered<u32>,
    wanted: &[u32],
) -> Result<(), Fail> {
    let mut entries = Vec::new(alloc);
    for (number, value) in map.iter() {
        entries.push(number)?;
        entries.push(*value)?;
    }
    assert_numbers(rt, &entries, wanted);
    assert_count(rt, map.len(), wanted.len() / 2);
    Ok(())
}

/// A map of the numbers 1, 20 and 30, with the values 1, 2 and 3.
pub(crate) fn map_of_three(alloc: Global) -> Result<Numbered<u32>, Fail> {
    let mut map = Numbered::new(alloc);
    map.insert(30, 3)?;
    map.insert(1, 1)?;
    map.insert(20, 2)?;
    Ok(map)
}

fn change_entries(rt: &impl Abort, map: &mut Numbered<u32>) {
    assert!(rt; map.get(20) == Some(&2));
    assert!(rt; map.get(2).is_none());
    if let Some(value) = map.get_mut(20) {
        *value = 9;
    }
    assert!(rt; map.get_mut(2).is_none());
    map.remove(1);
    map.remove(2);
}

#[test]
fn numbered_maps_keep_their_values(rt: HostRuntime) -> Result<(), Fail> {
    assert_map(&rt, rt.alloc(), &Numbered::new(rt.alloc()), &[])?;
    let mut map = map_of_three(rt.alloc())?;
    assert_map(&rt, rt.alloc(), &map, &[1, 1, 20, 2, 30, 3])?;
    change_entries(&rt, &mut map);
    assert_map(&rt, rt.alloc(), &map, &[20, 9, 30, 3])
}
