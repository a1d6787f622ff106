//! The registrations with which each server's history begins.
ghost use Rattle.std.specs.Prelude.{◌≡◌, ◌<◌, ◌≤◌, ◌++◌, ◌∷◌, [], length, map, true, is_some, OnOk};
ghost use Rattle.dmc_book.specs.BookState.{pass_state};
ghost use Rattle.dmc_book.specs.Moves.{IsEnrolled, desk_place};
ghost use Rattle.dmc_driver_threads.specs.Opened.{commands_of, registration};
ghost use Rattle.dmc_driver_threads.specs.internal.Books.{IsSetAsBefore};
ghost use Rattle.dmc_driver_threads.specs.internal.Desks.{ids_of};

use dmc_book::book::QueueBook;
use dmc_book::fault::RunFault;
use dmc_book::pass::WorkerPass;
use dmc_index::index::Indexes;
use dmc_ledger::setup::Setup;
use dmc_scene::client::SceneClient;
use dmc_settle::report::StopCause;
use dmc_tag::reply::Reply;
use dmc_tag::tag::Tag;
use dmc_types::command::Command;
use dmc_types::moment::Moment;
use std::alloc::AllocError;

/// Registers these clients, for which the book has desks.
pub(super) fn register_each<T: Tag, I: Indexes<T>, S: Setup>(
    book: &mut QueueBook<T, I, S>,
    pass: &mut WorkerPass<S>,
    clients: &[SceneClient],
    stops: &mut Vec<StopCause>,
) -> Result<(), AllocError>
    requires new { book.old.history ≡ [] }
    requires desks { map (λ d. d.client) book.old.desks ≡ ids_of clients.now }
    requires room { length clients.now ≤ book.old.most }
    requires enrolled { IsEnrolled book.old.workers (pass_state pass.old) }
    ensures kept { OnOk result (IsSetAsBefore book.old book.new) }
    ensures registered { OnOk result (commands_of book.new.history ≡ map registration clients.now) }
{
    for client in clients {
        register(book, pass, *client, stops)?;
    }
    Ok(())
}

/// Registers a client at moment 0. It is refused memory alone.
fn register<T: Tag, I: Indexes<T>, S: Setup>(
    book: &mut QueueBook<T, I, S>,
    pass: &mut WorkerPass<S>,
    client: SceneClient,
    stops: &mut Vec<StopCause>,
) -> Result<(), AllocError>
    requires enrolled { IsEnrolled book.old.workers (pass_state pass.old) }
    requires desk { is_some (desk_place client.id.0 book.old.desks) ≡ true }
    requires place { length book.old.history < book.old.most }
    ensures kept { OnOk result (IsSetAsBefore book.old book.new) }
    ensures registered { OnOk result (commands_of book.new.history ≡ commands_of book.old.history ++ registration client ∷ []) }
    ensures enrolled { OnOk result (IsEnrolled book.new.workers (pass_state pass.new)) }
{
    let command = Command::Register {
        client: client.id(),
        info: client.info(),
        at: Moment::zero(),
    };
    match book.run(pass, command) {
        Ok(reply) => keep_refusal(reply, stops),
        Err(RunFault::Memory) => Err(AllocError),
        Err(RunFault::Stranger) => unreachable!(),
        Err(RunFault::Behind) => unreachable!(),
        Err(RunFault::NoDesk) => unreachable!(),
        Err(RunFault::HistoryFull) => unreachable!(),
    }
}

/// Puts what the queue refused among the stops.
fn keep_refusal<T: Tag>(reply: Reply<T>, stops: &mut Vec<StopCause>) -> Result<(), AllocError> {
    if let Reply::Refused(refusal) = reply {
        stops.push(StopCause::Refused(refusal))?;
    }
    Ok(())
}
