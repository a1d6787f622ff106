//! Faults of a scene's text.
ghost use Rattle.std.specs.Prelude.{◌≡◌};
ghost use Rattle.dmc_scene.specs.Keys.{fault_of_client};
ghost use Rattle.dmc_scene.specs.declared.fault.SceneFault.TheVariants.{Memory};

use crate::key::Key;
use std::alloc::AllocError;
use thiserror::Error;

/// The reason why a text is no scene. Of several reasons the first is reported, in the order of the keys. Beside a key is the place
/// of the client in whose table it is, counted from 1, if it is in one.
#[derive(Clone, Copy, Debug, PartialEq, Eq, Error)]
pub enum SceneFault {
    /// The text has more than 2^20 bytes, or is no UTF-8, or no TOML.
    #[error("the text is no TOML of at most 2^20 bytes")]
    Text,
    /// There is no such key, and it has no default.
    #[error("the key {} is missing", .0.name())]
    Missing(Key, Option<u64>),
    /// The value of the key is of another kind.
    #[error("the value of the key {} is of another kind", .0.name())]
    Kind(Key, Option<u64>),
    /// The value of the key is out of its limits.
    #[error("the value of the key {} is past its limits", .0.name())]
    Value(Key, Option<u64>),
    /// An allocation failed, which says nothing of the text.
    #[error("out of memory")]
    Memory,
}

impl SceneFault {
    /// The same fault, of a key in the table of the client at this place.
    pub(crate) fn of_client(self, place: u64) -> SceneFault
        ensures { result ≡ fault_of_client place self }
    {
        match self {
            SceneFault::Missing(key, _) => SceneFault::Missing(key, Some(place)),
            SceneFault::Kind(key, _) => SceneFault::Kind(key, Some(place)),
            SceneFault::Value(key, _) => SceneFault::Value(key, Some(place)),
            SceneFault::Text | SceneFault::Memory => self,
        }
    }
}

impl From<AllocError> for SceneFault {
    ghost from_gives = { λ _ fault. fault ≡ Memory };

    fn from(_: AllocError) -> SceneFault {
        SceneFault::Memory
    }
}
