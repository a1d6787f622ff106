//! The costs of a client's requests.
ghost use Rattle.std.specs.Prelude.{◌≡◌, ◌<◌, ◌≤◌, IfSome, None, Some, is_some};
ghost use Rattle.std.specs.Option.{ok_or, option_and_then};
ghost use Rattle.std.specs.Result.{result_map_both};
ghost use Rattle.toml.specs.Data.{as_integer};
ghost use Rattle.toml.specs.View.{view, items_view, table_view};
ghost use Rattle.dmc_scene.specs.SceneValue.{cost_at, max_scene_cost};
ghost use Rattle.dmc_scene.specs.Keys.{meaning, optional};
ghost use Rattle.dmc_scene.specs.Reading.{each_as, as_integers, some_costs};
ghost use Rattle.dmc_scene.specs.internal.CostLists.{cost_of};
ghost use Rattle.dmc_scene.specs.declared.fault.SceneFault.TheVariants.{Kind};

use crate::fault::SceneFault;
use crate::held::{number, value_at};
use crate::key::Key;
use dmc_types::cost::Cost;
use std::marker::Model;
use toml::{Table, Value};

/// The greatest number of costs in a list.
const MAX_COSTS: usize = 16;

/// The greatest cost of a request in a scene.
const MAX_SCENE_COST: u64 = 1024;

/// The costs of a client's requests, in turn: 1 to 16 of them, each 1 to 1,024.
#[derive(Clone, Copy, Debug, PartialEq, Eq)]
pub struct CostList {
    units: [u32; 16],
    count: usize,
}

impl Model for CostList {
    ghost use Rattle.std.specs.Prelude.{ℕ, List, length, take};
    ghost use Rattle.dmc_scene.specs.internal.CostLists.{IsCostList, array_of, array_again};

    ghost Value = { List ℕ };

    ghost view = { λ c. take c.count c.units };

    ghost invariant = { λ c. IsCostList c.units c.count };

    ghost inverse = { λ costs. record { units = array_of costs; count = length costs } };

    ghost inverse_ok = { λ c h i. record { units = array_again c.units c.count h i; count = h.counts i } };
}

impl CostList {
    /// The cost of the request with this number, counted from 0.
    pub fn at(self, number: u32) -> Cost
        ensures value { result ≡ cost_at (Some self) number }
        ensures limit { result ≤ max_scene_cost }
    {
        Cost::new(self.units[number as usize % self.count]).unwrap()
    }

    /// The costs that a list's values are, if they are 1 to 16 whole numbers from 1 to 1,024.
    fn of(values: &[Value]) -> Option<CostList>
        ensures { result ≡ option_and_then some_costs (each_as as_integer (items_view values.now)) }
    {
        if values.is_empty() || values.len() > MAX_COSTS {
            return None;
        }
        let mut units = [0; 16];
        for (index, value) in values.iter().enumerate() {
            units[index] = cost_of(value)?;
        }
        Some(CostList {
            units,
            count: values.len(),
        })
    }
}

/// The cost that a value is, if it is a whole number from 1 to 1,024.
fn cost_of(value: &Value) -> Option<u32>
    ensures value { result ≡ cost_of (view value.now) }
    ensures some { IfSome result (λ units. 0 < units) }
    ensures limit { IfSome result (λ units. units ≤ max_scene_cost) }
{
    let units = number(value.as_integer()?, 1, MAX_SCENE_COST)?;
    Some(units as u32)
}

/// Whether each of the values is a whole number.
fn are_integers(values: &[Value]) -> bool
    ensures { result ≡ is_some (each_as as_integer (items_view values.now)) }
{
    values.iter().all(|value| value.as_integer().is_some())
}

/// The whole numbers in a key's value, which is a list of them.
fn integers_of(value: &Value) -> Result<&[Value], SceneFault>
    ensures { result_map_both (λ values. each_as as_integer (items_view values.now)) (λ fault. fault) result
        ≡ result_map_both (λ list. Some list) (λ fault. fault) (ok_or (as_integers (view value.now)) (Kind Key.Costs None)) }
{
    let values = value
        .as_array()
        .ok_or(SceneFault::Kind(Key::Costs, None))?
        .as_slice();
    if are_integers(values) {
        Ok(values)
    } else {
        Err(SceneFault::Kind(Key::Costs, None))
    }
}

/// The costs in a key's value.
fn costs_in(value: &Value) -> Result<CostList, SceneFault>
    ensures { result ≡ meaning as_integers some_costs Key.Costs (view value.now) }
{
    CostList::of(integers_of(value)?).ok_or(SceneFault::Value(Key::Costs, None))
}

/// The costs at their key, if it is there.
pub(crate) fn read_costs(table: &Table) -> Result<Option<CostList>, SceneFault>
    ensures { result ≡ optional as_integers some_costs Key.Costs (table_view table.now) }
{
    match value_at(table, Key::Costs) {
        None => Ok(None),
        Some(value) => Ok(Some(costs_in(value)?)),
    }
}
