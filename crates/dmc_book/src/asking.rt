//! Commands passed to the queue.
ghost use Rattle.std.specs.Prelude.{◌≡◌, ◌<◌, false, length, ⊤};
ghost use Rattle.dmc_tag.specs.Steps.{Steps};
ghost use Rattle.dmc_types.specs.declared.command.Command.TheVariants as commands;
ghost use Rattle.dmc_pull.specs.Queue.{state_of};
ghost use Rattle.dmc_book.specs.BookState.{pass_state};
ghost use Rattle.dmc_book.specs.Calls.{Asks, asked, is_add};
ghost use Rattle.dmc_book.specs.internal.Calls.{IsOfDeclined, added_reply};
ghost use Rattle.dmc_book.specs.Moves.{takes};

use crate::accounts::Accounts;
use crate::desk::UnitTest;
use crate::fault::{RunFault, RunOrRange};
use crate::pass::WorkerPass;
use dmc_index::index::Indexes;
use dmc_ledger::setup::Setup;
use dmc_pull::granting::PullFault;
use dmc_pull::queue::PullQueue;
use dmc_tag::answers;
use dmc_tag::reply::{Pulled, Reply, Tags};
use dmc_tag::scheduler::Scheduler;
use dmc_tag::tag::Tag;
use dmc_types::command::Command;
use dmc_types::ids::{ClientId, Token};
use dmc_types::moment::Moment;
use dmc_types::params::ReqParams;
use dmc_types::refusal::{QueueFault, Refusal};
use std::alloc::AllocError;

/// What the queue makes of an add.
#[derive(Copy)]
pub(crate) enum Added<T> {
    Tagged(Tags<T>),
    Refused(Refusal),
    Memory,
}

impl<T: Copy> Clone for Added<T> {
    ghost is_clone = { λ x y. y ≡ x };

    ghost is_infallible = { λ _. ⊤ };

    fn clone(&self) -> Result<Added<T>, AllocError> {
        Ok(*self)
    }
}

/// Hands an add to the queue. The client is looked for at a place in order of registration first.
#[inline(always)]
pub(crate) fn ask_to_add<T: Tag, I: Indexes<T>>(
    queue: &mut PullQueue<T, I>,
    hint: usize,
    client: ClientId,
    token: Token,
    params: ReqParams,
    at: Moment,
) -> Added<T>
    ensures { Steps T.ops (state_of queue.old) (state_of queue.new) (commands.Add client token params at) (added_reply result) }
{
    match queue.add_request_with_hint(hint, client, token, params, at) {
        Ok(tags) => Added::Tagged(tags),
        Err(QueueFault::Refused(refusal)) => Added::Refused(refusal),
        Err(QueueFault::Memory) => Added::Memory,
    }
}

/// Why a pull is refused whose grant the pass has no till for.
fn fault_of_declined<T: Tag, S: Setup>(accounts: &Accounts<T, S>, pass: &WorkerPass<S>) -> RunFault
    ensures { IsOfDeclined (length (pass_state pass.now).units < length accounts.now.desks) result }
{
    if pass.units.len() < accounts.desks.len() {
        return RunFault::Behind;
    }
    RunFault::Stranger
}

/// Pulls, if the pass has a till for the grant. The pass keeps the place of a granted client's desk.
#[inline(always)]
pub(crate) fn ask_to_pull<T: Tag, I: Indexes<T>, S: Setup>(
    queue: &mut PullQueue<T, I>,
    accounts: &Accounts<T, S>,
    pass: &WorkerPass<S>,
    at: Moment,
) -> Result<Pulled, RunOrRange>
    ensures { Asks T.ops (length (pass_state pass.now).units < length accounts.now.desks) (takes accounts.now.desks (pass_state pass.now).clients (pass_state pass.now).units) (state_of queue.old) (state_of queue.new) (commands.Pull at) (asked result) }
{
    let test = UnitTest { accounts, pass };
    match queue.pull_allowed(at, &test) {
        Ok(pulled) => Ok(pulled),
        Err(PullFault::Refused(refusal)) => Err(RunOrRange::Range),
        Err(PullFault::Declined) => Err(RunOrRange::Run(fault_of_declined(accounts, pass))),
    }
}

/// What a pull returns, as a reply.
pub(crate) fn reply_of<T>(answer: &Result<Pulled, RunOrRange>) -> Result<Reply<T>, RunFault>
    ensures { result ≡ asked answer.now }
{
    match *answer {
        Ok(pulled) => Ok(answers::pulled(Ok(pulled))),
        Err(RunOrRange::Range) => Ok(Reply::Refused(Refusal::Range)),
        Err(RunOrRange::Run(fault)) => Err(fault),
    }
}

/// Runs any command but an Add at the queue. The pass keeps the place of a granted client's desk.
pub(crate) fn ask<T: Tag, I: Indexes<T>, S: Setup>(
    queue: &mut PullQueue<T, I>,
    accounts: &Accounts<T, S>,
    pass: &WorkerPass<S>,
    command: &Command,
) -> Result<Reply<T>, RunFault>
    requires plain { is_add command.now ≡ false }
    ensures { Asks T.ops (length (pass_state pass.now).units < length accounts.now.desks) (takes accounts.now.desks (pass_state pass.now).clients (pass_state pass.now).units) (state_of queue.old) (state_of queue.new) command.now result }
{
    if let Command::Pull { at } = *command {
        return reply_of(&ask_to_pull(queue, accounts, pass, at));
    }
    match queue.apply(command) {
        Ok(reply) => Ok(reply),
        Err(_) => Err(RunFault::Memory),
    }
}
