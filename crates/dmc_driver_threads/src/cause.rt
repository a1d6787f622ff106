//! What a worker that is refused reports as the cause of its stop.
ghost use Rattle.std.specs.Prelude.{◌≡◌};
ghost use Rattle.dmc_driver_threads.specs.internal.Causes.{of_entry, of_pull, of_run, of_submit};

use dmc_book::fault::{RunFault, SubmitCause};
use dmc_qlock::fault::RunOrRange;
use dmc_settle::report::StopCause;
use dmc_tlock::fault::EntryFault;
use dmc_types::refusal::Refusal;

/// Why a tracker refused a stamp or a response.
pub(crate) fn of_entry(fault: EntryFault) -> StopCause
    ensures { result ≡ of_entry fault }
{
    match fault {
        EntryFault::TrackFull => StopCause::TrackFull,
        EntryFault::HistoryFull => StopCause::HistoryFull,
        EntryFault::Memory => StopCause::Memory,
        EntryFault::NoServer | EntryFault::Stranger => StopCause::Stray,
    }
}

/// Why a queue refused a request.
pub(crate) fn of_submit(cause: SubmitCause) -> StopCause
    ensures { result ≡ of_submit cause }
{
    match cause {
        SubmitCause::Refused(refusal) => StopCause::Refused(refusal),
        SubmitCause::HistoryFull => StopCause::HistoryFull,
        SubmitCause::Memory => StopCause::Memory,
        SubmitCause::Stranger | SubmitCause::Closed => StopCause::Stray,
    }
}

/// Why a queue was not handed a command.
pub(crate) fn of_run(fault: RunFault) -> StopCause
    ensures { result ≡ of_run fault }
{
    match fault {
        RunFault::HistoryFull => StopCause::HistoryFull,
        RunFault::Memory => StopCause::Memory,
        RunFault::Stranger | RunFault::Behind | RunFault::NoDesk => StopCause::Stray,
    }
}

/// Why a queue refused a pull.
pub(crate) fn of_pull(fault: RunOrRange) -> StopCause
    ensures { result ≡ of_pull fault }
{
    match fault {
        RunOrRange::Range => StopCause::Refused(Refusal::Range),
        RunOrRange::Run(fault) => of_run(fault),
    }
}
