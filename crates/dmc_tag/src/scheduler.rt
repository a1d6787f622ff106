//! What every queue promises.
ghost use Rattle.std.specs.Prelude.{◌≡◌, length, Some};
ghost use Rattle.std.specs.Result.{result_ok};
ghost use Rattle.dmc_tag.specs.Answers.{call_reply, sure_call_reply, pull_reply, clean_reply};
ghost use Rattle.dmc_tag.specs.State.{State, queued_requests};
ghost use Rattle.dmc_tag.specs.Steps.{Steps};
ghost use Rattle.dmc_types.specs.declared.command.Command.TheVariants as commands;
ghost use Rattle.dmc_tag.specs.declared.reply.Reply.TheVariants as replies;

use crate::answers;
use crate::reply::{Pulled, Reply, Tags};
use crate::tag::Tag;
use dmc_types::command::Command;
use dmc_types::config::Counting;
use dmc_types::ids::{ClientId, Token};
use dmc_types::info::ClientInfo;
use dmc_types::moment::Moment;
use dmc_types::params::ReqParams;
use dmc_types::refusal::{QueueFault, Refusal};
use std::alloc::AllocError;

/// A queue of dmClock: each call is a step of the rules.
pub trait Scheduler<T: Tag> {
    /// The plain state that the scheduler holds.
    ghost state: { Self → State T };

    /// Registers a client. It is refused `Known`, `Inexact`, `Clients`, in this order, and `Memory` last.
    fn register(&mut self, client: ClientId, info: ClientInfo, at: Moment) -> Result<(), QueueFault>
        ensures { Steps T.ops (state self.old) (state self.new) (commands.Register client info at)
            (call_reply (λ _. replies.Registered) result) };

    /// Replaces a client's rates. It is refused `Unknown`, `Inexact`, `Busy`, in this order.
    fn update_info(&mut self, client: ClientId, info: ClientInfo, at: Moment) -> Result<(), Refusal>
        ensures { Steps T.ops (state self.old) (state self.new) (commands.Update client info at)
            (sure_call_reply (λ _. replies.Updated) result) };

    /// Queues a request, and returns its tags. It is refused `Unknown`, `QueueFull`, `Range`, in this order, and `Memory` last.
    fn add_request(
        &mut self,
        client: ClientId,
        token: Token,
        params: ReqParams,
        at: Moment,
    ) -> Result<Tags<T>, QueueFault>
        ensures { Steps T.ops (state self.old) (state self.new) (commands.Add client token params at)
            (call_reply replies.Tagged result) };

    /// Queues a request as `add_request` does, with a hint: the client may be the one at the index `hint`, in order of
    /// registration, counted from 0. A queue that can looks there first, and so finds the client without a hash (extension).
    fn add_request_with_hint(
        &mut self,
        _hint: usize,
        client: ClientId,
        token: Token,
        params: ReqParams,
        at: Moment,
    ) -> Result<Tags<T>, QueueFault>
        ensures { Steps T.ops (state self.old) (state self.new) (commands.Add client token params at)
            (call_reply replies.Tagged result) }
    {
        self.add_request(client, token, params, at)
    }

    /// Grants the next request, or returns the moment at which one is due. It is refused `Range`.
    fn pull_request(&mut self, at: Moment) -> Result<Pulled, Refusal>
        ensures { Steps T.ops (state self.old) (state self.new) (commands.Pull at) (sure_call_reply pull_reply result) };

    /// Removes a client's queued requests, and returns how many. It is refused `Unknown`.
    fn remove_by_client(&mut self, client: ClientId) -> Result<u32, Refusal>
        ensures { Steps T.ops (state self.old) (state self.new) (commands.Remove client)
            (sure_call_reply replies.Removed result) };

    /// Takes back a client's queued requests with this token, wherever they are, and returns how many. If their stamps counted
    /// their own cost (`Counting::Others`), what they were charged is given back to the client's later requests. It is refused
    /// `Unknown`.
    fn cancel(&mut self, client: ClientId, token: Token, counting: Counting) -> Result<u32, Refusal>
        ensures { Steps T.ops (state self.old) (state self.new) (commands.Cancel client token counting)
            (sure_call_reply replies.Removed result) };

    /// Marks idle clients and erases old ones. Returns how many became idle and how many were erased.
    fn clean(&mut self, at: Moment) -> (u32, u32)
        ensures { Steps T.ops (state self.old) (state self.new) (commands.Clean at) (Some (clean_reply result)) };

    /// The number of registered clients.
    fn client_count(&self) -> u32
        ensures { result ≡ length (state self.now).clients };

    /// The number of queued requests.
    fn request_count(&self) -> u32
        ensures { result ≡ length (queued_requests (state self.now).clients) };

    /// The reply to a command. An error is an allocation failure, of a Register or an Add alone, and changes nothing.
    final fn apply(&mut self, command: &Command) -> Result<Reply<T>, AllocError>
        ensures { Steps T.ops (state self.old) (state self.new) command.now (result_ok result) }
    {
        apply_to(self, command)
    }
}

/// The reply of a queue to a command, for `Scheduler::apply`. It is inlined into its caller, if the command is known.
#[inline(always)]
pub fn apply_to<T: Tag, Q: Scheduler<T>>(
    queue: &mut Q,
    command: &Command,
) -> Result<Reply<T>, AllocError>
    ensures { Steps T.ops (Q.state queue.old) (Q.state queue.new) command.now (result_ok result) }
{
    match *command {
        Command::Register { client, info, at } => {
            answers::registered(queue.register(client, info, at))
        }
        Command::Update { client, info, at } => {
            Ok(answers::updated(queue.update_info(client, info, at)))
        }
        Command::Add {
            client,
            token,
            params,
            at,
        } => answers::tagged(queue.add_request(client, token, params, at)),
        Command::Pull { at } => Ok(answers::pulled(queue.pull_request(at))),
        Command::Remove { client } => Ok(answers::removed(queue.remove_by_client(client))),
        Command::Cancel {
            client,
            token,
            counting,
        } => Ok(answers::removed(queue.cancel(client, token, counting))),
        Command::Clean { at } => Ok(answers::cleaned(queue.clean(at))),
    }
}
