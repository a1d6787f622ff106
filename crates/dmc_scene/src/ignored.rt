//! The keys of a text that are ignored, since no scene has them.
ghost use Rattle.std.specs.Prelude.{◌≡◌, ◌++◌, IfOk, OnOk, flat_map};
ghost use Rattle.std.specs.List.{enumerate_from};
ghost use Rattle.toml.specs.View.{view, items_view, table_view};
ghost use Rattle.dmc_scene.specs.Ignored.{client_items, has_name, ignored_in, ignored_names, ignored_of, ignored_of_client, list_of, names_of};

use crate::fault::SceneFault;
use crate::held::value_at;
use crate::key::{CLIENT_KEYS, Key, SCENE_KEYS};
use crate::text::table_of;
use std::alloc::{AllocError, Global};
use std::marker::Model;
use toml::{Table, Value};

/// A key that is ignored, since no scene has it: in the scene's own table or in a client's.
#[derive(Debug, Drop)]
pub struct IgnoredKey {
    client: Option<u64>,
    name: String,
}

impl Model for IgnoredKey {
    ghost use Rattle.std.specs.Prelude.{string_bytes};
    ghost use Rattle.dmc_scene.specs.Ignored.{IgnoredValue};

    ghost Value = { IgnoredValue };

    ghost view = { λ k. record { client = k.client; name = string_bytes k.name } };
}

impl IgnoredKey {
    /// The place of the client in whose table it is, counted from 1.
    pub fn client(&self) -> Option<u64>
        ensures { result ≡ self.now.client }
    {
        self.client
    }

    /// Its name, as it is in the text.
    pub fn name(&self) -> &str
        ensures { result.now ≡ self.now.name }
    {
        self.name.as_str()
    }
}

/// The keys of a text that `read_scene` ignores, whether the text is a scene or not: those of its own table that no scene has,
/// and then, client by client, those of the clients' tables that no client has. The keys of a table ascend by their bytes. A text
/// that is no TOML has none.
pub fn ignored_keys(alloc: Global, text: &[u8]) -> Result<Vec<IgnoredKey>, AllocError>
    ensures { IfOk result (λ keys. keys.items ≡ ignored_in text.now) }
{
    match table_of(alloc, text) {
        Ok(table) => ignored_of(alloc, &table),
        Err(SceneFault::Memory) => Err(AllocError),
        Err(_) => Ok(Vec::new(alloc)),
    }
}

/// Those of a table and of its clients.
fn ignored_of(alloc: Global, table: &Table) -> Result<Vec<IgnoredKey>, AllocError>
    ensures { IfOk result (λ keys. keys.items ≡ ignored_of (table_view table.now)) }
{
    let mut ignored = Vec::new(alloc);
    add_names(alloc, table, None, &SCENE_KEYS, &mut ignored)?;
    add_clients(alloc, clients_in(table), &mut ignored)?;
    Ok(ignored)
}

/// The values in the list of the clients, if there is one.
fn clients_in(table: &Table) -> &[Value]
    ensures { list_of (items_view result.now) ≡ client_items (table_view table.now) }
{
    match value_at(table, Key::Client) {
        Some(Value::Array(values)) => values.as_slice(),
        _ => &[],
    }
}

/// Adds those of the clients in turn.
fn add_clients(
    alloc: Global,
    values: &[Value],
    ignored: &mut Vec<IgnoredKey>,
) -> Result<(), AllocError>
    ensures { OnOk result (ignored.new.items ≡ ignored.old.items ++ flat_map ignored_of_client (enumerate_from 1 (list_of (items_view values.now)))) }
{
    for (index, value) in values.iter().enumerate() {
        add_client(alloc, value, index as u64 + 1, ignored)?;
    }
    Ok(())
}

/// Adds those of the client at a place.
fn add_client(
    alloc: Global,
    value: &Value,
    place: u64,
    ignored: &mut Vec<IgnoredKey>,
) -> Result<(), AllocError>
    ensures { OnOk result (ignored.new.items ≡ ignored.old.items ++ ignored_of_client (place, view value.now)) }
{
    match value.as_table() {
        Some(table) => add_names(alloc, table, Some(place), &CLIENT_KEYS, ignored),
        None => Ok(()),
    }
}

/// Adds the names in a table that none of the keys has.
fn add_names(
    alloc: Global,
    table: &Table,
    client: Option<u64>,
    known: &[Key],
    ignored: &mut Vec<IgnoredKey>,
) -> Result<(), AllocError>
    ensures { OnOk result (ignored.new.items ≡ ignored.old.items ++ ignored_names client known.now (names_of (table_view table.now))) }
{
    for name in table.keys() {
        if !has_name(known, name.as_str()) {
            let name = String::from_str(alloc, name.as_str())?;
            ignored.push(IgnoredKey { client, name })?;
        }
    }
    Ok(())
}

/// Whether one of the keys has the name.
fn has_name(known: &[Key], name: &str) -> bool
    ensures { result ≡ has_name known.now name.now }
{
    known.iter().any(|key| key.name() == name)
}
