//! What an event adds to the counts.
ghost use Rattle.std.specs.Prelude.{◌≡◌};
ghost use Rattle.dmc_book.specs.Counts as counts;
ghost use Rattle.dmc_book.specs.internal.Counts.{IsSmall};

use crate::per_count::WorkerCounts;
use dmc_tag::reply::Reply;
use dmc_types::command::Command;
use dmc_types::config::PhaseType;
use dmc_types::cost::Cost;
use dmc_types::ids::{ClientId, Token};

/// The token of an add that was accepted, else 0.
fn token_added<T: Copy>(command: &Command, reply: &Reply<T>) -> u32
    ensures { result ≡ (counts.numbers_of command.now reply.now).tokens }
{
    match (*command, *reply) {
        (
            Command::Add {
                client: _,
                token: Token(token),
                params: _,
                at: _,
            },
            Reply::Tagged(_),
        ) => token,
        _ => 0,
    }
}

fn is_miss<T: Copy>(reply: &Reply<T>) -> bool
    ensures { result ≡ counts.is_miss reply.now }
{
    matches!(*reply, Reply::Later(_) | Reply::Nothing | Reply::Refused(_))
}

/// The token of a grant, else 0.
fn token_granted<T: Copy>(reply: &Reply<T>) -> u32
    ensures { result ≡ counts.token_granted reply.now }
{
    match *reply {
        Reply::Granted {
            client: _,
            token: Token(token),
            phase: _,
            beyond: _,
            cost: _,
        } => token,
        _ => 0,
    }
}

/// What a grant costs, else 0.
fn cost_granted<T: Copy>(reply: &Reply<T>) -> u32
    ensures { result ≡ counts.cost_granted reply.now }
{
    match *reply {
        Reply::Granted {
            client: _,
            token: _,
            phase: _,
            beyond: _,
            cost,
        } => cost.units(),
        _ => 0,
    }
}

/// Who is granted, in which phase, and what that costs.
#[derive(Clone, Copy)]
pub(crate) struct Grant {
    pub(crate) client: ClientId,
    pub(crate) phase: PhaseType,
    pub(crate) cost: Cost,
}

/// The grant of a reply.
pub(crate) fn grant_in<T: Copy>(reply: &Reply<T>) -> Option<Grant>
    ensures { result ≡ counts.grant_in reply.now }
{
    match *reply {
        Reply::Granted {
            client,
            token: _,
            phase,
            beyond: _,
            cost,
        } => Some(Grant {
            client,
            phase,
            cost,
        }),
        _ => None,
    }
}

/// What an event of this command and this reply adds to the counts of its worker.
#[inline(always)]
pub(crate) fn numbers_of<T: Copy>(command: &Command, reply: &Reply<T>) -> WorkerCounts<u32>
    ensures value { result ≡ counts.numbers_of command.now reply.now }
    ensures small { IsSmall result }
{
    WorkerCounts {
        calls: 1,
        misses: u32::from(is_miss(reply)),
        tokens: token_added(command, reply),
        grants: u32::from(grant_in(reply).is_some()),
        granted: token_granted(reply),
        cost: cost_granted(reply),
    }
}
