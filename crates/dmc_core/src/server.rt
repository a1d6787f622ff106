//! A server of the cluster: its queue, and how many of its lists of grants can't grow.
ghost use Rattle.std.specs.Prelude.{◌≡◌, Some};
ghost use Rattle.std.specs.Result.{result_ok};
ghost use Rattle.dmc_tag.specs.Steps.{Steps};
ghost use Rattle.dmc_types.specs.declared.command.Command.TheVariants as commands;

use crate::event::Message;
use dmc_tag::answers;
use dmc_tag::reply::Reply;
use dmc_tag::scheduler::{Scheduler, apply_to};
use dmc_tag::tag::Tag;
use dmc_types::command::Command;
use dmc_types::ids::ClientId;
use dmc_types::moment::Moment;
use std::alloc::AllocError;

/// A server. It knows how many of its lists of grants have 2^32-1 of them, so that a pull need not look at the clients.
#[derive(Drop)]
pub struct CoreServer<Q> {
    pub queue: Q,
    pub full: u32,
}

impl<Q> CoreServer<Q> {
    /// A message arrives at the queue, of a client that may be the one that was the `hint`-th to register. An error is a
    /// failed allocation.
    pub fn add<T: Tag>(
        &mut self,
        hint: usize,
        client: ClientId,
        message: Message,
        at: Moment,
    ) -> Result<Reply<T>, AllocError>
    where
        Q: Scheduler<T>,
        ensures full { self.new.full ≡ self.old.full }
        ensures steps { Steps T.ops (Q.state self.old.queue) (Q.state self.new.queue)
            (commands.Add client message.token message.params at) (result_ok result) }
    {
        answers::tagged(
            self.queue
                .add_request_with_hint(hint, client, message.token, message.params, at),
        )
    }

    /// The queue pulls.
    pub fn pull<T: Tag>(&mut self, at: Moment) -> Reply<T>
    where
        Q: Scheduler<T>,
        ensures full { self.new.full ≡ self.old.full }
        ensures steps { Steps T.ops (Q.state self.old.queue) (Q.state self.new.queue) (commands.Pull at) (Some result) }
    {
        answers::pulled(self.queue.pull_request(at))
    }

    /// The queue carries out a command. An error is a failed allocation.
    pub fn serve<T: Tag>(&mut self, command: &Command) -> Result<Reply<T>, AllocError>
    where
        Q: Scheduler<T>,
        ensures full { self.new.full ≡ self.old.full }
        ensures steps { Steps T.ops (Q.state self.old.queue) (Q.state self.new.queue) command.now (result_ok result) }
    {
        apply_to(&mut self.queue, command)
    }
}
