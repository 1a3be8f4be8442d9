//! Reads the table `output` of a terrain. A call that may return a fault may also return `Memory`.
//! `at` is the path of a table. What was read (`all`, `outputs`) is in its ranges.
//! See docs/FORMATS.md, "The world file".
ghost use Rattle.std.specs.Prelude.{◌≡◌, ◌≤◌, IfOk, map};
ghost use Rattle.std.specs.List.{All};
ghost use Rattle.toml.specs.View.{table_view};
ghost use Rattle.atl_tables.specs.Drafts.{IsOutput, IsWorldDraft};
ghost use Rattle.atl_tables.specs.Each.{conditions_on_each};
ghost use Rattle.atl_tables.specs.Faults.{first_fault};
ghost use Rattle.atl_tables.specs.Results.{Gives};
ghost use Rattle.atl_tables.specs.KeyByKey.{conditions_of, value_of};
ghost use Rattle.atl_world.specs.Limits.{most_amount};
ghost use Rattle.atl_tables.specs.OutputTable.{in_byte_order, amounts_keys, amounts_from, output_at, duplicate_key_at, known_key_at, amount_of};

use crate::fault::WorldFault;
use crate::item_table::ItemDraft;
use crate::keys::{integer_in_range, member, path};
use crate::titles::{add_name, known_number, same_name};
use crate::world_draft::WorldDraft;
use atl_world::limits::MOST_AMOUNT;
use atl_world::{Sequence, Text};
use std::alloc::{AllocError, Global};
use std::collections::BTreeSet;
use toml::Table;

/// One entry of a terrain's output: an item by name, and how much of it a region gives in a month.
#[derive(Drop)]
pub struct Output {
    /// The name of the item, as the key in the file writes it.
    pub item: Text,
    /// How much of the item a region gives in a month, at most `MOST_AMOUNT`.
    pub amount: u32,
}

/// The entries of the table `output` at a path, in byte order of keys, else the first fault of one.
fn output_entries(alloc: Global, at: &str, table: &Table) -> Result<Sequence<Output>, WorldFault>
    ensures value { Gives (λ v. v) result
        (first_fault (amounts_keys at.now (in_byte_order (table_view table.now))))
        (amounts_from at.now (in_byte_order (table_view table.now))) }
    ensures sound { IfOk result (λ v. All IsOutput v) }
{
    let mut outputs = Sequence::new(alloc);
    for (key, value) in table.iter() {
        let key = key.as_str();
        let amount = integer_in_range(alloc, 0, MOST_AMOUNT, key, at, value)?;
        let item = Text::from_str(alloc, key)?;
        outputs.push(Output { item, amount })?;
    }
    Ok(outputs)
}

/// The output of the terrain at a path, in byte order of its keys, empty if the file has none. An
/// error is the fault WrongType, if `output` is no table, or the first fault of an amount.
#[tactic(auto, unfolding(crate::specs::OutputTable::output_at, crate::specs::OutputTable::in_byte_order, crate::specs::Keys::optional_table_at))]
pub(crate) fn outputs(
    alloc: Global,
    at: &str,
    table: &Table,
) -> Result<Sequence<Output>, WorldFault>
    ensures value { Gives (λ v. v) result
        (first_fault (conditions_of output_at at.now (table_view table.now)))
        (value_of output_at at.now (table_view table.now)) }
    ensures sound { IfOk result (λ v. All IsOutput v) }
{
    match member(table, "output") {
        None => Ok(Sequence::new(alloc)),
        Some(value) => {
            let element = path(alloc, at, "output")?;
            match value.as_table() {
                None => Err(WorldFault::WrongType(element)),
                Some(table) => output_entries(alloc, element.as_str(), table),
            }
        }
    }
}

/// Checks that no two keys of the output at a path are equal, ignoring ASCII case, else gives the
/// fault TwoNames at the first that equals one before it.
pub(crate) fn no_duplicate_keys(
    alloc: Global,
    at: &str,
    outputs: &[Output],
) -> Result<(), WorldFault>
    ensures { Gives (λ u. u) result
        (first_fault (conditions_on_each (duplicate_key_at at.now outputs.now) 0 outputs.now))
        (tt {0}) }
{
    let mut seen = BTreeSet::new(alloc);
    for output in outputs {
        if !add_name(alloc, &mut seen, &output.item)? {
            return Err(WorldFault::TwoNames(path(alloc, at, output.item.as_str())?));
        }
    }
    Ok(())
}

/// Checks that each key of the output at a path names an item, ignoring ASCII case, else gives the
/// fault UnknownName at the first that doesn't.
pub(crate) fn keys_name_items(
    alloc: Global,
    all: &WorldDraft,
    at: &str,
    outputs: &[Output],
) -> Result<(), WorldFault>
    requires { IsWorldDraft all.now }
    ensures { Gives (λ u. u) result (first_fault
        (conditions_on_each (known_key_at all.now at.now) 0 outputs.now))
        (tt {0}) }
{
    for i in 0..outputs.len() {
        let item = &outputs[i].item;
        known_number(alloc, all.items.as_slice(), item.as_str(), at, item)?;
    }
    Ok(())
}

#[tactic(auto, unfolding(crate::specs::OutputTable::amount_of))]
fn amount_of(outputs: &[Output], item: &Text) -> u32
    requires { All IsOutput outputs.now }
    ensures value { result ≡ amount_of outputs.now item.now }
    ensures most { result ≤ most_amount }
{
    for output in outputs {
        if same_name(&output.item, item) {
            return output.amount;
        }
    }
    0
}

/// How much of each item of the world a terrain's output gives in a month, at the item's number; 0
/// for an item that no key names.
pub(crate) fn amounts_of(
    alloc: Global,
    items: &[ItemDraft],
    outputs: &[Output],
) -> Result<Sequence<u32>, AllocError>
    requires { All IsOutput outputs.now }
    ensures value { IfOk result (λ v. v ≡ map (λ item. amount_of outputs.now item.name) items.now) }
    ensures most { IfOk result (λ v. All (λ amount. amount ≤ most_amount) v) }
{
    let mut amounts = Sequence::new(alloc);
    for item in items {
        let amount = amount_of(outputs, &item.name);
        amounts.push(amount)?;
    }
    Ok(amounts)
}
