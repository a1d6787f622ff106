//! The reasons why a load does not run.
use dmc_types::refusal::{QueueFault, ValueFault};
use std::alloc::{AllocError, AllocFailed};
use std::io;
use std::num::ParseIntError;

/// The reason why a load does not run.
#[derive(Clone, Copy, Debug, PartialEq, Eq)]
pub enum Fault {
    /// The words name no load.
    Usage,
    /// An allocation failed, there is no clock, or a standard stream fails.
    Failed,
}

impl From<AllocError> for Fault {
    fn from(_error: AllocError) -> Fault {
        Fault::Failed
    }
}

impl<X: Drop> From<AllocFailed<X>> for Fault {
    fn from(_refused: AllocFailed<X>) -> Fault {
        Fault::Failed
    }
}

impl From<io::Error> for Fault {
    fn from(_error: io::Error) -> Fault {
        Fault::Failed
    }
}

impl From<ValueFault> for Fault {
    fn from(_fault: ValueFault) -> Fault {
        Fault::Usage
    }
}

impl From<ParseIntError> for Fault {
    fn from(_error: ParseIntError) -> Fault {
        Fault::Usage
    }
}

/// A limit may have no whole spacing.
impl From<QueueFault> for Fault {
    fn from(fault: QueueFault) -> Fault {
        match fault {
            QueueFault::Refused(_) => Fault::Usage,
            QueueFault::Memory => Fault::Failed,
        }
    }
}
