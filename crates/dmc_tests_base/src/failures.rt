//! Allocation failures that a test sees. After one the test goes on: the value is as it was, and the call works when it is made
//! again. The test ends with the failure, so with ample memory no call may report one.
use std::alloc::AllocError;

/// Whether a call reported an allocation failure.
#[derive(Clone, Copy)]
pub struct Failures {
    seen: bool,
}

impl Failures {
    /// No failure yet.
    pub fn none() -> Failures {
        Failures { seen: false }
    }

    /// A call reported a failure.
    pub fn note(&mut self) {
        self.seen = true;
    }

    /// The end of the test.
    pub fn end(self) -> Result<(), AllocError> {
        if self.seen {
            return Err(AllocError);
        }
        Ok(())
    }
}
