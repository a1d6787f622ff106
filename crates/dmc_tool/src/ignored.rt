//! The lines on the keys of a text that are ignored, since no scene has them.
ghost use Rattle.std.specs.Prelude.{◌≡◌, ◌++◌, ◌<◌, IfOk, OnErr, OnOk, flat_map, if◌then◌else◌, map, string_bytes};
ghost use Rattle.dmc_tool.specs.Explanations.{place_text};
ghost use Rattle.dmc_tool.specs.Ignored.{ignored_line, ignored_lines, shown_byte, shown_name};

use dmc_scene::ignored::{IgnoredKey, ignored_keys};
use std::alloc::{AllocError, Global};

/// The most bytes of a name that are shown.
const MAX_SHOWN: usize = 64;

/// Makes these lines what is remarked on a text, if that is asked for.
pub(crate) fn remark(
    alloc: Global,
    is_explained: bool,
    text: &[u8],
    remarks: &mut String,
) -> Result<(), AllocError>
    ensures ok { OnOk result (string_bytes remarks.new ≡ (if is_explained then ignored_lines text.now else string_bytes remarks.old)) }
    ensures err { OnErr result (string_bytes remarks.new ≡ string_bytes remarks.old) }
{
    if is_explained {
        *remarks = ignored_lines(alloc, text)?;
    }
    Ok(())
}

/// The lines, in the order of the keys.
fn ignored_lines(alloc: Global, text: &[u8]) -> Result<String, AllocError>
    ensures { IfOk result (λ lines. string_bytes lines ≡ ignored_lines text.now) }
{
    let keys = ignored_keys(alloc, text)?;
    let mut lines = String::new(alloc);
    put_keys(&keys, &mut lines)?;
    Ok(lines)
}

/// Adds the line of each key.
fn put_keys(keys: &[IgnoredKey], lines: &mut String) -> Result<(), AllocError>
    ensures { OnOk result (string_bytes lines.new ≡ string_bytes lines.old ++ flat_map ignored_line keys.now) }
{
    for key in keys {
        put_key(key, lines)?;
    }
    Ok(())
}

/// Adds the line of a key.
fn put_key(key: &IgnoredKey, lines: &mut String) -> Result<(), AllocError>
    ensures { OnOk result (string_bytes lines.new ≡ string_bytes lines.old ++ ignored_line key.now) }
{
    put_place(key.client(), lines)?;
    lines.push_str(": key ")?;
    put_name(key.name(), lines)?;
    match key.client() {
        None => writeln!(lines, ": ignored, since no scene has it"),
        Some(_) => writeln!(lines, ": ignored, since no client has it"),
    }
}

/// Adds the first words of a line on a key.
fn put_place(client: Option<u64>, lines: &mut String) -> Result<(), AllocError>
    ensures { OnOk result (string_bytes lines.new ≡ string_bytes lines.old ++ place_text client) }
{
    match client {
        None => lines.push_str("dmclock"),
        Some(place) => write!(lines, "dmclock: client {place}"),
    }
}

/// Adds a name as it is shown.
fn put_name(name: &str, lines: &mut String) -> Result<(), AllocError>
    ensures { OnOk result (string_bytes lines.new ≡ string_bytes lines.old ++ shown_name name.now) }
{
    let bytes = name.as_bytes();
    if bytes.len() <= MAX_SHOWN {
        return put_bytes(bytes, lines);
    }
    let (first, _) = bytes.split_at(MAX_SHOWN);
    put_bytes(first, lines)?;
    lines.push_str("..")
}

/// Adds bytes of a name as they are shown.
fn put_bytes(bytes: &[u8], lines: &mut String) -> Result<(), AllocError>
    ensures { OnOk result (string_bytes lines.new ≡ string_bytes lines.old ++ map shown_byte bytes.now) }
{
    for byte in bytes {
        lines.push(shown(*byte))?;
    }
    Ok(())
}

/// A byte of a name as it is shown, so that none controls a terminal.
fn shown(byte: u8) -> char
    ensures value { result ≡ shown_byte byte }
    ensures ascii { result < 128 }
{
    if 32 <= byte && byte <= 126 {
        char::from(byte)
    } else {
        '?'
    }
}
