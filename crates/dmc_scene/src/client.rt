//! The clients of a scene.
ghost use Rattle.std.specs.Prelude.{◌≡◌, ◌<◌, ◌≤◌, ◌==◌, IfOk, IfSome, false, is_some};
ghost use Rattle.std.specs.List.{list_any};
ghost use Rattle.dmc_types.specs.Limits.{max_window, max_client_requests};
ghost use Rattle.toml.specs.Data.{as_integer};
ghost use Rattle.toml.specs.View.{view, table_view};
ghost use Rattle.dmc_scene.specs.SceneValue.{has_spacing, HasSpacing, AreSpaced, cost_at, max_scene_cost};
ghost use Rattle.dmc_scene.specs.internal.SceneValue.{IsFresh};
ghost use Rattle.dmc_scene.specs.Keys.{meaning, required, optional};
ghost use Rattle.dmc_scene.specs.Reading.{rate, id_beside, client_in, client_of};

use crate::costs::{CostList, read_costs};
use crate::fault::SceneFault;
use crate::held::{integer, integer_of, number, required, value_at};
use crate::key::Key;
use dmc_types::config::TagKind;
use dmc_types::cost::Cost;
use dmc_types::ids::ClientId;
use dmc_types::info::ClientInfo;
use std::marker::Model;
use toml::{Table, Value};

/// The greatest number of requests of a client.
const MAX_CLIENT_REQUESTS: u64 = 1_000_000;

/// The greatest number of a client's requests that are outstanding at once.
const MAX_WINDOW: u64 = 1024;

/// A client of a scene: its id and rates, how many requests it makes (at most 1,000,000), how many of them may be outstanding
/// (1 to 1,024), and what they cost.
#[derive(Clone, Copy, Debug, PartialEq, Eq)]
pub struct SceneClient {
    id: ClientId,
    info: ClientInfo,
    requests: u32,
    window: u32,
    costs: Option<CostList>,
}

impl Model for SceneClient {
    ghost use Rattle.dmc_scene.specs.SceneValue.{ClientValue, IsClient};

    ghost Value = { ClientValue };

    ghost view = { λ c. record { id = c.id; info = c.info; requests = c.requests; window = c.window; costs = c.costs } };

    ghost invariant = { λ c. IsClient c.requests c.window };

    ghost inverse = { λ c. record { id = c.id; info = c.info; requests = c.requests; window = c.window; costs = c.costs } };
}

impl SceneClient {
    /// Its id.
    pub fn id(self) -> ClientId
        ensures { result ≡ self.id }
    {
        self.id
    }

    /// Its rates.
    pub fn info(self) -> ClientInfo
        ensures { result ≡ self.info }
    {
        self.info
    }

    /// How many requests it makes.
    pub fn requests(self) -> u32
        ensures value { result ≡ self.requests }
        ensures limit { result ≤ max_client_requests }
    {
        self.requests
    }

    /// How many of its requests may be outstanding.
    pub fn window(self) -> u32
        ensures value { result ≡ self.window }
        ensures some { 0 < result }
        ensures limit { result ≤ max_window }
    {
        self.window
    }

    /// Whether its requests have costs of their own. If not, each costs 1.
    pub fn has_costs(self) -> bool
        ensures { result ≡ is_some self.costs }
    {
        self.costs.is_some()
    }

    /// The cost of its request with this number, counted from 0.
    pub fn cost(self, number: u32) -> Cost
        ensures value { result ≡ cost_at self.costs number }
        ensures limit { result ≤ max_scene_cost }
    {
        match self.costs {
            None => Cost::ONE,
            Some(costs) => costs.at(number),
        }
    }
}

/// Whether the rate has a spacing: in ticks if it divides hz.
fn has_spacing(tags: TagKind, hz: u32, rate: u32) -> bool
    requires { 0 < rate }
    ensures { result ≡ has_spacing tags hz rate }
{
    match tags {
        TagKind::Tick => hz.is_multiple_of(rate),
        TagKind::Ratio => true,
    }
}

/// The number, if it is a rate and has a spacing.
fn rate_of(z: i64, tags: TagKind, hz: u32) -> Option<u32>
    ensures value { result ≡ rate tags hz z }
    ensures some { IfSome result (λ n. 0 < n) }
    ensures spaced { IfSome result (HasSpacing tags hz) }
{
    let rate = number(z, 1, u64::from(u32::MAX))? as u32;
    if has_spacing(tags, hz, rate) {
        Some(rate)
    } else {
        None
    }
}

/// The rate in a key's value.
fn rate_in(value: &Value, key: Key, tags: TagKind, hz: u32) -> Result<u32, SceneFault>
    ensures value { result ≡ meaning as_integer (rate tags hz) key (view value.now) }
    ensures some { IfOk result (λ n. 0 < n) }
    ensures spaced { IfOk result (HasSpacing tags hz) }
{
    rate_of(integer_of(value, key)?, tags, hz).ok_or(SceneFault::Value(key, None))
}

/// The rate at a key.
fn rate(table: &Table, key: Key, tags: TagKind, hz: u32) -> Result<u32, SceneFault>
    ensures value { result ≡ required as_integer (rate tags hz) key (table_view table.now) }
    ensures some { IfOk result (λ n. 0 < n) }
    ensures spaced { IfOk result (HasSpacing tags hz) }
{
    rate_in(required(table, key)?, key, tags, hz)
}

/// The rate at a key, if it is there.
fn optional_rate(table: &Table, key: Key, tags: TagKind, hz: u32) -> Result<Option<u32>, SceneFault>
    ensures value { result ≡ optional as_integer (rate tags hz) key (table_view table.now) }
    ensures some { IfOk result (λ o. IfSome o (λ n. 0 < n)) }
    ensures spaced { IfOk result (λ o. IfSome o (HasSpacing tags hz)) }
{
    match value_at(table, key) {
        None => Ok(None),
        Some(value) => Ok(Some(rate_in(value, key, tags, hz)?)),
    }
}

/// Whether one of the clients has the id.
fn has_id(clients: &[SceneClient], id: u32) -> bool
    ensures value { result ≡ list_any (λ c. c.id.0 == id) clients.now }
    ensures fresh { result ≡ false → IsFresh clients.now id }
{
    clients.iter().any(|client| client.id().0 == id)
}

/// The number, if it is an id that no client before has.
fn id_of(z: i64, before: &[SceneClient]) -> Option<u32>
    ensures value { result ≡ id_beside before.now z }
    ensures fresh { IfSome result (IsFresh before.now) }
{
    let id = number(z, 0, u64::from(u32::MAX))? as u32;
    if has_id(before, id) { None } else { Some(id) }
}

/// The id at its key, if no client before has it.
fn id_beside(table: &Table, before: &[SceneClient]) -> Result<u32, SceneFault>
    ensures value { result ≡ required as_integer (id_beside before.now) Key.Id (table_view table.now) }
    ensures fresh { IfOk result (IsFresh before.now) }
{
    let number = integer_of(required(table, Key::Id)?, Key::Id)?;
    id_of(number, before).ok_or(SceneFault::Value(Key::Id, None))
}

/// The client of a table, after the clients before it. A fault says its place.
pub(crate) fn read_client(
    table: &Table,
    tags: TagKind,
    hz: u32,
    before: &[SceneClient],
) -> Result<SceneClient, SceneFault>
    ensures value { result ≡ client_of tags hz before.now (table_view table.now) }
    ensures fresh { IfOk result (λ client. IsFresh before.now client.id.0) }
    ensures spaced { IfOk result (λ client. AreSpaced tags hz client.info) }
{
    match client_in(table, tags, hz, before) {
        Ok(client) => Ok(client),
        Err(fault) => Err(fault.of_client(before.len() as u64 + 1)),
    }
}

/// The client of a table, after the clients before it.
fn client_in(
    table: &Table,
    tags: TagKind,
    hz: u32,
    before: &[SceneClient],
) -> Result<SceneClient, SceneFault>
    ensures value { result ≡ client_in tags hz before.now (table_view table.now) }
    ensures fresh { IfOk result (λ client. IsFresh before.now client.id.0) }
    ensures spaced { IfOk result (λ client. AreSpaced tags hz client.info) }
{
    let id = id_beside(table, before)?;
    let reservation = optional_rate(table, Key::Reservation, tags, hz)?;
    let weight = rate(table, Key::Weight, tags, hz)?;
    let limit = optional_rate(table, Key::Limit, tags, hz)?;
    let requests = integer(table, Key::Requests, 0, MAX_CLIENT_REQUESTS)? as u32;
    let window = integer(table, Key::Window, 1, MAX_WINDOW)? as u32;
    let costs = read_costs(table)?;
    Ok(SceneClient {
        id: ClientId(id),
        info: ClientInfo::new(reservation, weight, limit).unwrap(),
        requests,
        window,
        costs,
    })
}
