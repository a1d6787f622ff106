//! The keys of a scene whose values are words.
ghost use Rattle.std.specs.Prelude.{◌≡◌, IfOk, IfSome};
ghost use Rattle.toml.specs.Data.{as_str};
ghost use Rattle.toml.specs.View.{table_view};
ghost use Rattle.dmc_types.specs.Values.{threshold_of};
ghost use Rattle.dmc_types.specs.declared.config.AtLimit.TheVariants as at_limit;
ghost use Rattle.dmc_types.specs.declared.config.Counting.TheVariants as counting;
ghost use Rattle.dmc_types.specs.declared.config.Shares.TheVariants as shares;
ghost use Rattle.dmc_scene.specs.Keys.{required, defaulted};
ghost use Rattle.dmc_scene.specs.Reading.{tags_named, counting_named, at_limit_named, shares_named};

use crate::fault::SceneFault;
use crate::held::{required, text_of, value_at};
use crate::key::Key;
use dmc_types::config::{AtLimit, Counting, Shares, TagKind};
use toml::Table;

fn tags_named(text: &str) -> Option<TagKind>
    ensures { result ≡ tags_named text.now }
{
    match text {
        "tick" => Some(TagKind::Tick),
        "ratio" => Some(TagKind::Ratio),
        _ => None,
    }
}

fn counting_named(text: &str) -> Option<Counting>
    ensures { result ≡ counting_named text.now }
{
    match text {
        "all" => Some(Counting::All),
        "others" => Some(Counting::Others),
        _ => None,
    }
}

fn at_limit_named(text: &str) -> Option<AtLimit>
    ensures named { result ≡ at_limit_named text.now }
    ensures limit { IfSome result (λ limit. threshold_of limit ≡ 0) }
{
    match text {
        "wait" => Some(AtLimit::Wait),
        "allow" => Some(AtLimit::Allow),
        _ => None,
    }
}

fn shares_named(text: &str) -> Option<Shares>
    ensures { result ≡ shares_named text.now }
{
    match text {
        "clock" => Some(Shares::Clock),
        "virtual" => Some(Shares::Virtual),
        _ => None,
    }
}

/// The tags at their key.
pub fn read_tags(table: &Table) -> Result<TagKind, SceneFault>
    ensures { result ≡ required as_str tags_named Key.Tags (table_view table.now) }
{
    let text = text_of(required(table, Key::Tags)?, Key::Tags)?;
    tags_named(text).ok_or(SceneFault::Value(Key::Tags, None))
}

/// The counting form at its key, by default `All`.
pub fn read_counting(table: &Table) -> Result<Counting, SceneFault>
    ensures { result ≡ defaulted counting.All as_str counting_named Key.Counting (table_view table.now) }
{
    match value_at(table, Key::Counting) {
        None => Ok(Counting::All),
        Some(value) => counting_named(text_of(value, Key::Counting)?).ok_or(SceneFault::Value(
            Key::Counting,
            None,
        )),
    }
}

/// What is done at the limit, at its key, by default `Wait`.
pub fn read_at_limit(table: &Table) -> Result<AtLimit, SceneFault>
    ensures value { result ≡ defaulted at_limit.Wait as_str at_limit_named Key.AtLimit (table_view table.now) }
    ensures limit { IfOk result (λ limit. threshold_of limit ≡ 0) }
{
    match value_at(table, Key::AtLimit) {
        None => Ok(AtLimit::Wait),
        Some(value) => at_limit_named(text_of(value, Key::AtLimit)?).ok_or(SceneFault::Value(
            Key::AtLimit,
            None,
        )),
    }
}

/// In which time shares are compared, at its key, by default by the clock.
pub fn read_shares(table: &Table) -> Result<Shares, SceneFault>
    ensures { result ≡ defaulted shares.Clock as_str shares_named Key.Shares (table_view table.now) }
{
    match value_at(table, Key::Shares) {
        None => Ok(Shares::Clock),
        Some(value) => shares_named(text_of(value, Key::Shares)?).ok_or(SceneFault::Value(
            Key::Shares,
            None,
        )),
    }
}
