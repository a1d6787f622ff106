//! Whole runs of commands.
ghost use Rattle.std.specs.Prelude.{◌≡◌, ◌≤◌, ◌⊎◌, length, take, IsTrue, IfOk, IfErr};
ghost use Rattle.dmc_tag.specs.Replay.{state_after};
ghost use Rattle.dmc_tag.specs.Steps.{Runs, grows_at};

use crate::reply::Reply;
use crate::scheduler::Scheduler;
use crate::tag::Tag;
use dmc_types::command::Command;
use std::alloc::Global;
use thiserror::Error;

/// An allocation failed. The first `done` commands were carried out, and no other.
#[derive(Clone, Copy, Debug, PartialEq, Eq, Error)]
#[error("out of memory after {done} commands")]
pub struct Stop {
    pub done: usize,
}

/// Applies the commands to the scheduler in order, and returns their replies.
pub fn run_commands<T: Tag, S: Scheduler<T>>(
    alloc: Global,
    scheduler: &mut S,
    commands: &[Command],
) -> Result<Vec<Reply<T>>, Stop>
    ensures replies { IfOk result (λ replies. Runs T.ops (S.state scheduler.old) (S.state scheduler.new) commands.now replies.items) }
    ensures stop { IfErr result (λ stop. (stop.done ≤ length commands.now) × (S.state scheduler.new ≡ state_after T.ops (S.state scheduler.old) (take stop.done commands.now))) }

    // Two allocations may fail: the one for the replies, before the first command, and one of a command that may allocate.
    ensures cause { IfErr result (λ stop. (stop.done ≡ 0) ⊎ IsTrue (grows_at commands.now stop.done)) }
{
    let Ok(mut replies) = Vec::with_capacity(alloc, commands.len()) else {
        return Err(Stop { done: 0 });
    };
    for (done, command) in commands.iter().enumerate() {
        let reply = match scheduler.apply(command) {
            Ok(reply) => reply,
            Err(_) => return Err(Stop { done }),
        };
        if replies.push(reply).is_err() {
            return Err(Stop { done: done + 1 });
        }
    }
    Ok(replies)
}
