//! Bytes that are sent to a watched writer.
ghost use Rattle.std.specs.Prelude.{◌≡◌, ◌≢◌, ◌<◌, [], length, true, OnOk, OnErr, IfErr};
ghost use Rattle.std.specs.Io.KnownBytes.{Appends};
ghost use Rattle.std.specs.IoError.{error_kind};
ghost use Rattle.dmc_text.specs.Texts.{AppendsSome};
ghost use Rattle.dmc_text.specs.Watching.{stream_of, IsNoted, IsNotedBy};

use crate::watched::Watched;
use std::io::{self, ErrorKind, Write};

/// Writes what is to be written, and empties it. If the writer fails, the rest is dropped.
pub(crate) fn drain<W: Write>(out: &mut Vec<u8>, writer: &mut Watched<W>) -> io::Result<()>
    ensures ok { OnOk result (Appends (W.contents (stream_of writer.old)) (W.contents (stream_of writer.new)) out.old.items) }
    ensures err { OnErr result (AppendsSome (W.contents (stream_of writer.old)) (W.contents (stream_of writer.new)) out.old.items) }
    ensures some { OnErr result (0 < length out.old.items) }
    ensures empty { out.new.items ≡ [] }
    ensures note { IsNoted writer.old writer.new result }
{
    let sent = send_all(out, writer);
    out.clear();
    sent
}

/// Writes all bytes, and makes an interrupted write again: an interruption is never the error. If there are no bytes, there is
/// no error.
pub fn send_all<W: Write>(bytes: &[u8], writer: &mut Watched<W>) -> io::Result<()>
    ensures ok { OnOk result (Appends (W.contents (stream_of writer.old)) (W.contents (stream_of writer.new)) bytes.now) }
    ensures err { OnErr result (AppendsSome (W.contents (stream_of writer.old)) (W.contents (stream_of writer.new)) bytes.now) }
    ensures some { OnErr result (0 < length bytes.now) }
    ensures retried { IfErr result (λ e. error_kind e ≢ ErrorKind.Interrupted) }
    ensures note { IsNoted writer.old writer.new result }
{
    let mut at = 0;
    while at < bytes.len() {
        at += writer.write(&bytes[at..])?;
    }
    Ok(())
}

/// Writes all bytes, and flushes. Returns false if the writer fails.
pub fn send<W: Write>(bytes: &[u8], writer: &mut Watched<W>) -> bool
    ensures all { result ≡ true → Appends (W.contents (stream_of writer.old)) (W.contents (stream_of writer.new)) bytes.now }
    ensures some { AppendsSome (W.contents (stream_of writer.old)) (W.contents (stream_of writer.new)) bytes.now }
    ensures note { IsNotedBy writer.old writer.new result }
{
    if send_all(bytes, writer).is_err() {
        return false;
    }
    writer.flush().is_ok()
}
