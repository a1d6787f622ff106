//! The values of a table's keys.
ghost use Rattle.std.specs.Prelude.{◌≡◌, ◌<◌, ◌≤◌, Result, IfOk, IfSome, None, Some};
ghost use Rattle.std.specs.Option.{option_map, ok_or};
ghost use Rattle.std.specs.Result.{result_map_both};
ghost use Rattle.toml.specs.Data.{as_integer, as_str, get_member};
ghost use Rattle.toml.specs.View.{view, table_view};
ghost use Rattle.dmc_scene.specs.Keys.{name_of, meaning, required, defaulted, number};
ghost use Rattle.dmc_scene.specs.declared.fault.SceneFault.TheVariants.{Missing, Kind};

use crate::fault::SceneFault;
use crate::key::Key;
use toml::{Table, Value};

/// The value of a key, if it is there.
pub fn value_at<'a>(table: &'a Table, key: Key) -> Option<&'a Value>
    ensures { option_map (λ v. view v.now) result ≡ get_member (name_of key) (table_view table.now) }
{
    table.get(key.name())
}

/// The value of a key that must be there.
pub fn required<'a>(table: &'a Table, key: Key) -> Result<&'a Value, SceneFault>
    ensures { result_map_both (λ v. view v.now) (λ fault. fault) result ≡ ok_or (get_member (name_of key) (table_view table.now)) (Missing key None) }
{
    value_at(table, key).ok_or(SceneFault::Missing(key, None))
}

/// The whole number in a key's value.
pub fn integer_of(value: &Value, key: Key) -> Result<i64, SceneFault>
    ensures { result ≡ ok_or (as_integer (view value.now)) (Kind key None) }
{
    value.as_integer().ok_or(SceneFault::Kind(key, None))
}

/// The text in a key's value.
pub fn text_of<'a>(value: &'a Value, key: Key) -> Result<&'a str, SceneFault>
    ensures { result_map_both (λ s. s.now) (λ fault. fault) result ≡ ok_or (as_str (view value.now)) (Kind key None) }
{
    value.as_str().ok_or(SceneFault::Kind(key, None))
}

/// The number, if it is between the two bounds.
pub fn number(z: i64, least: u64, greatest: u64) -> Option<u64>
    ensures value { result ≡ number least greatest z }
    ensures least { IfSome result (λ n. least ≤ n) }
    ensures greatest { IfSome result (λ n. n ≤ greatest) }
{
    match u64::try_from(z) {
        Ok(n) if least <= n && n <= greatest => Some(n),
        _ => None,
    }
}

/// The whole number between the two bounds in a key's value.
pub fn integer_in(value: &Value, key: Key, least: u64, greatest: u64) -> Result<u64, SceneFault>
    ensures value { result ≡ meaning as_integer (number least greatest) key (view value.now) }
    ensures least { IfOk result (λ n. least ≤ n) }
    ensures greatest { IfOk result (λ n. n ≤ greatest) }
{
    number(integer_of(value, key)?, least, greatest).ok_or(SceneFault::Value(key, None))
}

/// The whole number at a key.
pub fn integer(table: &Table, key: Key, least: u64, greatest: u64) -> Result<u64, SceneFault>
    ensures value { result ≡ required as_integer (number least greatest) key (table_view table.now) }
    ensures least { IfOk result (λ n. least ≤ n) }
    ensures greatest { IfOk result (λ n. n ≤ greatest) }
{
    integer_in(required(table, key)?, key, least, greatest)
}

/// The whole number at a key, or the default if there is none.
pub fn integer_or(
    table: &Table,
    key: Key,
    default: u64,
    least: u64,
    greatest: u64,
) -> Result<u64, SceneFault>
    ensures value { result ≡ defaulted default as_integer (number least greatest) key (table_view table.now) }
    ensures least { least ≤ default → IfOk result (λ n. least ≤ n) }
    ensures greatest { default ≤ greatest → IfOk result (λ n. n ≤ greatest) }
{
    match value_at(table, key) {
        None => Ok(default),
        Some(value) => integer_in(value, key, least, greatest),
    }
}
