//! The files that the words name.
ghost use Rattle.std.specs.Prelude.{IfErr, IfOk, List, ℕ, ⊤};

use crate::progress::{Counted, Progress};
use std::fs::{self, Files};
use std::io::{self, Read};

/// Opens the files that the words name.
pub trait Inputs {
    /// An open file.
    type Input: Read + Drop;

    /// Whether this is the file of a name, as it was opened.
    ghost is_opened: { Self → List ℕ → Self.Input → Type 0 };

    /// Whether the file of a name can't be opened.
    ghost is_refused: { Self → List ℕ → Type 0 };

    /// Opens the file of this name, to be read. It is an error if it can't be opened.
    fn open(&self, name: &str) -> io::Result<Self::Input>
        ensures ok { IfOk result (λ input. is_opened self.now name.now input) }
        ensures err { IfErr result (λ _. is_refused self.now name.now) };
}

/// The files of the system, whose lines are counted as they are read. Which file has a name there, and what is in it, no contract
/// says.
#[derive(Drop)]
pub struct SystemFiles<'a, R> {
    rt: &'a R,
    progress: &'a Progress,
}

impl<'a, R> SystemFiles<'a, R> {
    /// The files that this runtime opens.
    pub fn new(rt: &'a R, progress: &'a Progress) -> SystemFiles<'a, R> {
        SystemFiles { rt, progress }
    }
}

impl<'a, R: Files> Inputs for SystemFiles<'a, R> {
    type Input = Counted<'a, R::File>;

    ghost is_opened = { λ _ _ _. ⊤ };

    ghost is_refused = { λ _ _. ⊤ };

    fn open(&self, name: &str) -> io::Result<Counted<'a, R::File>> {
        Ok(Counted::new(fs::open(self.rt, name)?, self.progress))
    }
}
