//! The scene on standard input, which `sim` and `run` work on.
ghost use Rattle.std.specs.Prelude.{◌≡◌, string_bytes};
ghost use Rattle.dmc_text.specs.Watching.{stream_of};
ghost use Rattle.dmc_tool.specs.Faults.{fault_of_scene};
ghost use Rattle.dmc_tool.specs.Notes.{SceneNoted};
ghost use Rattle.dmc_tool.specs.Remarks.{RemarksOn};
ghost use Rattle.dmc_tool.specs.Scenes.{ReadsScene};

use crate::fault::Fault;
use crate::ignored::remark;
use dmc_scene::fault::SceneFault;
use dmc_scene::scene::{Scene, read_scene};
use dmc_text::lines::read_text;
use dmc_text::watched::Watched;
use std::alloc::{AllocError, Global};
use std::io::Read;

/// The greatest number of bytes that are read: one more than a scene may have, which shows that it has too many.
const MAX_BYTES: usize = (1 << 20) + 1;

impl From<AllocError> for Fault {
    ghost use Rattle.dmc_tool.specs.declared.fault.Fault.TheVariants.{Memory};

    ghost from_gives = { λ _ fault. fault ≡ Memory };

    fn from(_: AllocError) -> Fault {
        Fault::Memory
    }
}

impl From<SceneFault> for Fault {
    ghost from_gives = { λ scene fault. fault ≡ fault_of_scene scene };

    fn from(fault: SceneFault) -> Fault {
        match fault {
            SceneFault::Text => Fault::SceneText,
            SceneFault::Missing(key, client) => Fault::SceneMissing(key, client),
            SceneFault::Kind(key, client) => Fault::SceneKind(key, client),
            SceneFault::Value(key, client) => Fault::SceneValue(key, client),
            SceneFault::Memory => Fault::Memory,
        }
    }
}

/// Reads a scene. If an explanation is asked for, the lines on its keys that are ignored are what is remarked.
pub fn scene_of<R: Read>(
    alloc: Global,
    is_explained: bool,
    reader: &mut Watched<R>,
    remarks: &mut String,
) -> Result<Scene, Fault>
    ensures bytes { ReadsScene (R.remaining (stream_of reader.old)) (R.remaining (stream_of reader.new)) result }
    ensures note { SceneNoted reader.old reader.new result }
    ensures remarks { RemarksOn is_explained (R.remaining (stream_of reader.old)) (R.remaining (stream_of reader.new)) result (string_bytes remarks.old) (string_bytes remarks.new) }
{
    let mut text = vec![in alloc; 0; MAX_BYTES]?;
    let Ok(len) = read_text(reader, &mut text) else {
        return Err(Fault::Read);
    };
    let text = &text[..len];
    remark(alloc, is_explained, text, remarks)?;
    Ok(read_scene(alloc, text)?)
}
