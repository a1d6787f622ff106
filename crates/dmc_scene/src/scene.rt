//! The scene.
ghost use Rattle.std.specs.Prelude.{◌≡◌, ◌≢◌, ◌<◌, ◌≤◌, ◌^◌, IfOk, IfErr, IsUtf8, Some, None, Ok, Err, true, [], length, All, AllPairs};
ghost use Rattle.std.specs.Option.{ok_or};
ghost use Rattle.std.specs.Result.{result_map_both};
ghost use Rattle.dmc_types.specs.Limits.{max_hz, max_step, limit_of_pulls, max_scene_bytes, max_scene_clients, max_server_workers, max_servers};
ghost use Rattle.toml.specs.Data.{as_array};
ghost use Rattle.toml.specs.View.{view, items_view, table_view};
ghost use Rattle.dmc_scene.specs.declared.fault.SceneFault.TheVariants.{Kind, Memory};
ghost use Rattle.dmc_types.specs.Values.{IsSetting, threshold_of};
ghost use Rattle.dmc_types.specs.declared.config.AtLimit.TheVariants as limits;
ghost use Rattle.dmc_scene.specs.SceneValue.{AreApart, AreSizes, AreSpaced, has_costs};
ghost use Rattle.dmc_scene.specs.Keys.{required};
ghost use Rattle.dmc_scene.specs.Reading.{are_tables, tables_in, as_tables, some_clients, clients_of, ages_of, sizes_of, scene_of, scene_in};

use crate::client::{SceneClient, read_client};
use crate::fault::SceneFault;
use crate::held::{integer, integer_or, required};
use crate::key::Key;
use crate::modes::{read_at_limit, read_counting, read_shares, read_tags};
use crate::text::table_of;
use dmc_types::config::{AtLimit, Counting, QueueConfig, Shares, TagKind};
use dmc_types::limits::{MAX_AGE, MAX_HZ, MAX_SERVERS};
use std::alloc::Global;
use std::marker::Model;
use toml::{Table, Value};

/// The greatest number of workers of a server.
const MAX_SERVER_WORKERS: u64 = 16;

/// The greatest number of ticks of a step.
const MAX_STEP: u64 = 1_000_000_000;

/// The greatest number of rounds, and of turns of a worker.
const LIMIT_OF_PULLS: u64 = 1 << 30;

/// The greatest number of clients.
const MAX_SCENE_CLIENTS: usize = 256;

/// The settings of a run: the queues' configuration, the tags, the numbers of servers and workers, the step of a simulation's
/// round, the seed of the plans, the greatest number of pulls, the counting form, and the clients.
///
/// A scene is within the limits of its text: 1 to 64 servers, 1 to 16 workers each, a step of 1 to 1,000,000,000 ticks, a seed
/// below 2^63, 1 to 2^30 pulls, and 1 to 256 clients of different ids, each of whose rates has a spacing.
#[derive(Drop)]
pub struct Scene {
    config: QueueConfig,
    tags: TagKind,
    servers: u32,
    workers: u32,
    step: u64,
    seed: u64,
    max_pulls: u32,
    counting: Counting,
    clients: Vec<SceneClient>,
}

impl Model for Scene {
    ghost use Rattle.dmc_scene.specs.SceneValue.{SceneValue, AreSizes, AreClients};

    ghost Value = { SceneValue };

    ghost view = { λ s. record {
      config = s.config;
      tags = s.tags;
      servers = s.servers;
      workers = s.workers;
      step = s.step;
      seed = s.seed;
      max_pulls = s.max_pulls;
      counting = s.counting;
      clients = s.clients.items;
    } };

    ghost invariant = { λ s. AreSizes s.servers s.workers s.step s.seed s.max_pulls
        × AreClients s.tags s.config.hz s.clients.items };
}

impl Scene {
    /// The configuration of each queue: hz, the ages, what is done at the limit, and in which time shares are compared.
    pub fn config(&self) -> QueueConfig
        ensures { result ≡ self.now.config }
    {
        self.config
    }

    /// Which tags the queues run on. Each rate of the clients has a spacing in them.
    pub fn tags(&self) -> TagKind
        ensures value { result ≡ self.now.tags }
        ensures some_hz { 0 < self.now.config.hz }
        ensures hz_limit { self.now.config.hz ≤ max_hz }
        ensures spaced { All (λ client. AreSpaced result self.now.config.hz client.info) self.now.clients }
    {
        self.tags
    }

    /// The number of servers.
    pub fn servers(&self) -> u32
        ensures value { result ≡ self.now.servers }
        ensures some { 0 < result }
        ensures limit { result ≤ max_servers }
    {
        self.servers
    }

    /// The number of workers of each server.
    pub fn workers(&self) -> u32
        ensures value { result ≡ self.now.workers }
        ensures some { 0 < result }
        ensures limit { result ≤ max_server_workers }
    {
        self.workers
    }

    /// The ticks of a round of the simulation.
    pub fn step(&self) -> u64
        ensures value { result ≡ self.now.step }
        ensures some { 0 < result }
        ensures limit { result ≤ max_step }
    {
        self.step
    }

    /// The seed of the clients' plans.
    pub fn seed(&self) -> u64
        ensures value { result ≡ self.now.seed }
        ensures limit { result < 2 ^ 63 }
    {
        self.seed
    }

    /// The greatest number of rounds of a simulation, and of turns of a server's worker.
    pub fn max_pulls(&self) -> u32
        ensures value { result ≡ self.now.max_pulls }
        ensures some { 0 < result }
        ensures limit { result ≤ limit_of_pulls }
    {
        self.max_pulls
    }

    /// Which completions a stamp counts.
    pub fn counting(&self) -> Counting
        ensures { result ≡ self.now.counting }
    {
        self.counting
    }

    /// Whether a client's requests have costs of their own.
    pub fn has_costs(&self) -> bool
        ensures { result ≡ has_costs self.now.clients }
    {
        self.clients.iter().any(|client| client.has_costs())
    }

    /// The clients, in the scene's order.
    pub fn clients(&self) -> &[SceneClient]
        ensures value { result.now ≡ self.now.clients }
        ensures some { 0 < length result.now }
        ensures limit { length result.now ≤ max_scene_clients }
        ensures apart { AllPairs AreApart result.now }
        ensures spaced { All (λ client. AreSpaced self.now.tags self.now.config.hz client.info) result.now }
    {
        self.clients.as_slice()
    }
}

/// The scene of a text, or the first fault: `Text` or `Memory` while it is parsed, then the keys in the order of `Key`
/// (extension). Keys that a scene does not have are ignored: `ignored_keys` of `ignored` lists them.
pub fn read_scene(alloc: Global, text: &[u8]) -> Result<Scene, SceneFault>
    ensures read { result ≢ Err SceneFault.Memory → result ≡ scene_in text.now }
    ensures memory { result ≡ Err SceneFault.Memory → (length text.now ≤ max_scene_bytes) × IsUtf8 text.now }
{
    read_table(alloc, &table_of(alloc, text)?)
}

/// The scene of a table, or the first fault.
fn read_table(alloc: Global, table: &Table) -> Result<Scene, SceneFault>
    ensures { result ≢ Err SceneFault.Memory → result ≡ scene_of (table_view table.now) }
{
    let ages = read_ages(table)?;
    let tags = read_tags(table)?;
    let sizes = read_sizes(table)?;
    let counting = read_counting(table)?;
    let config = config_of(ages, read_at_limit(table)?, read_shares(table)?);
    let clients = read_clients(alloc, tags, ages.hz, client_tables(table)?)?;
    Ok(Scene {
        config,
        tags,
        servers: sizes.servers,
        workers: sizes.workers,
        step: sizes.step,
        seed: sizes.seed,
        max_pulls: sizes.max_pulls,
        counting,
        clients,
    })
}

/// The ticks a second, and the ages in ticks after which a client is marked idle and erased.
#[derive(Clone, Copy)]
struct Ages {
    hz: u32,
    idle_age: u64,
    erase_age: u64,
}

/// The ticks a second, and the ages. An age is by default the greatest.
fn read_ages(table: &Table) -> Result<Ages, SceneFault>
    ensures value { result ≡ ages_of (table_view table.now) }
    ensures setting { IfOk result (λ ages. IsSetting ages.hz ages.idle_age ages.erase_age limits.Wait) }
{
    let hz = integer(table, Key::Hz, 1, MAX_HZ)? as u32;
    let idle_age = integer_or(table, Key::IdleAge, MAX_AGE, 1, MAX_AGE)?;
    let erase_age = integer_or(table, Key::EraseAge, MAX_AGE, idle_age, MAX_AGE)?;
    Ok(Ages {
        hz,
        idle_age,
        erase_age,
    })
}

/// The configuration with these ages. A scene refuses nothing at the limit.
fn config_of(ages: Ages, at_limit: AtLimit, shares: Shares) -> QueueConfig
    requires setting { IsSetting ages.hz ages.idle_age ages.erase_age limits.Wait }
    requires limit { threshold_of at_limit ≡ 0 }
    ensures { result ≡ record { hz = ages.hz; idle_age = ages.idle_age; erase_age = ages.erase_age; at_limit = at_limit; shares = shares } }
{
    QueueConfig::new(u64::from(ages.hz), ages.idle_age, ages.erase_age, at_limit)
        .unwrap()
        .with_shares(shares)
}

/// The numbers of a scene besides those of its configuration and its clients.
#[derive(Clone, Copy)]
struct Sizes {
    servers: u32,
    workers: u32,
    step: u64,
    seed: u64,
    max_pulls: u32,
}

fn read_sizes(table: &Table) -> Result<Sizes, SceneFault>
    ensures value { result ≡ sizes_of (table_view table.now) }
    ensures sizes { IfOk result (λ s. AreSizes s.servers s.workers s.step s.seed s.max_pulls) }
{
    let servers = integer(table, Key::Servers, 1, MAX_SERVERS as u64)? as u32;
    let workers = integer(table, Key::Workers, 1, MAX_SERVER_WORKERS)? as u32;
    let step = integer(table, Key::Step, 1, MAX_STEP)?;
    let seed = integer(table, Key::Seed, 0, (1 << 63) - 1)?;
    let max_pulls = integer(table, Key::MaxPulls, 1, LIMIT_OF_PULLS)? as u32;
    Ok(Sizes {
        servers,
        workers,
        step,
        seed,
        max_pulls,
    })
}

/// Whether each of the values is a table.
fn are_tables(values: &[Value]) -> bool
    ensures value { result ≡ are_tables (items_view values.now) }
    ensures len { result ≡ true → length (tables_in (items_view values.now)) ≡ length values.now }
{
    values.iter().all(|value| value.is_table())
}

/// The tables in a key's value.
fn tables_of(value: &Value) -> Result<&[Value], SceneFault>
    ensures value { result_map_both (λ values. tables_in (items_view values.now)) (λ fault. fault) result
        ≡ ok_or (as_tables (view value.now)) (Kind Key.Client None) }
    ensures len { IfOk result (λ values. length (tables_in (items_view values.now)) ≡ length values.now) }
{
    let values = value
        .as_array()
        .ok_or(SceneFault::Kind(Key::Client, None))?
        .as_slice();
    if are_tables(values) {
        Ok(values)
    } else {
        Err(SceneFault::Kind(Key::Client, None))
    }
}

/// The tables at the key of the clients, 1 to 256 of them.
fn client_tables(table: &Table) -> Result<&[Value], SceneFault>
    ensures value { result_map_both (λ values. tables_in (items_view values.now)) (λ fault. fault) result
        ≡ required as_tables some_clients Key.Client (table_view table.now) }
    ensures some { IfOk result (λ values. 0 < length values.now) }
    ensures limit { IfOk result (λ values. length values.now ≤ max_scene_clients) }
    ensures len { IfOk result (λ values. length (tables_in (items_view values.now)) ≡ length values.now) }
{
    let values = tables_of(required(table, Key::Client)?)?;
    if values.is_empty() || values.len() > MAX_SCENE_CLIENTS {
        return Err(SceneFault::Value(Key::Client, None));
    }
    Ok(values)
}

/// The clients of the tables of a list.
fn read_clients(
    alloc: Global,
    tags: TagKind,
    hz: u32,
    values: &[Value],
) -> Result<Vec<SceneClient>, SceneFault>
    ensures ok { IfOk result (λ clients. clients_of tags hz [] (tables_in (items_view values.now)) ≡ Ok clients.items) }
    ensures fault { IfErr result (λ fault. fault ≢ Memory → clients_of tags hz [] (tables_in (items_view values.now)) ≡ Err fault) }
    ensures len { IfOk result (λ clients. length clients.items ≡ length (tables_in (items_view values.now))) }
    ensures apart { IfOk result (λ clients. AllPairs AreApart clients.items) }
    ensures spaced { IfOk result (λ clients. All (λ client. AreSpaced tags hz client.info) clients.items) }
{
    let mut clients = Vec::with_capacity(alloc, values.len())?;
    for value in values {
        if let Some(table) = value.as_table() {
            let client = read_client(table, tags, hz, clients.as_slice())?;
            clients.push(client).unwrap();
        }
    }
    Ok(clients)
}
