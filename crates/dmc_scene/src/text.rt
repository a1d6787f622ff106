//! The table of a text.
ghost use Rattle.std.specs.Prelude.{◌≡◌, ◌≢◌, IfErr, IfOk, None, Some};
ghost use Rattle.toml.specs.Parse.{parse_document};
ghost use Rattle.toml.specs.View.{table_view};
ghost use Rattle.dmc_scene.specs.Reading.{table_of};
ghost use Rattle.dmc_scene.specs.internal.Texts.{MayBeScene};

use crate::fault::SceneFault;
use std::alloc::Global;
use toml::Table;

/// The greatest length of a scene in bytes.
const MAX_SCENE_BYTES: usize = 1 << 20;

/// The table of a text.
pub(crate) fn table_of(alloc: Global, text: &[u8]) -> Result<Table, SceneFault>
    ensures ok { IfOk result (λ table. table_of text.now ≡ Some (table_view table)) }
    ensures fault { IfErr result (λ fault. fault ≢ SceneFault.Memory → (fault ≡ SceneFault.Text) × (table_of text.now ≡ None)) }
    // nothing is allocated before the text is known to be short enough and UTF-8
    ensures read { IfOk result (λ _. MayBeScene text.now) }
    ensures memory { IfErr result (λ fault. fault ≡ SceneFault.Memory → MayBeScene text.now) }
{
    if text.len() > MAX_SCENE_BYTES {
        return Err(SceneFault::Text);
    }
    match std::str::from_utf8(text) {
        Ok(text) => table_in(alloc, text),
        Err(_) => Err(SceneFault::Text),
    }
}

/// The table of a text that is UTF-8.
fn table_in(alloc: Global, text: &str) -> Result<Table, SceneFault>
    ensures ok { IfOk result (λ table. parse_document text.now ≡ Some (table_view table)) }
    ensures fault { IfErr result (λ fault. fault ≢ SceneFault.Memory → (fault ≡ SceneFault.Text) × (parse_document text.now ≡ None)) }
{
    toml::table_from_str(alloc, text).map_err(|e| {
        if e.is_memory() {
            SceneFault::Memory
        } else {
            SceneFault::Text
        }
    })
}
