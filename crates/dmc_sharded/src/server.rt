//! A server of shards.
ghost use Rattle.std.specs.Prelude.{◌≡◌, ◌<◌, ◌≤◌, ◌↔◌, length, IfOk, IfErr, IfSome, IsOk, IsSome, IsErrOf, IsTrue};
ghost use Rattle.dmc_types.specs.Values.{Params};
ghost use Rattle.dmc_tag.specs.declared.reply.Reply.TheVariants as replies;
ghost use Rattle.dmc_types.specs.declared.command.Command.TheVariants as commands;
ghost use Rattle.dmc_book.specs.BookState.{pass_state};
ghost use Rattle.dmc_qlock.specs.Calls.{Replied};
ghost use Rattle.dmc_sharded.specs.Arriving.{IsStampFor, PassAfter};
ghost use Rattle.dmc_sharded.specs.BookState.{AreInOrder};

use crate::fault::ArriveFault;
use crate::lock::ArrivalLock;
use dmc_book::book::QueueBook;
use dmc_book::pass::WorkerPass;
use dmc_index::index::Indexes;
use dmc_ledger::setup::Setup;
use dmc_qlock::lock::Locked;
use dmc_shared::witness::Lasting;
use dmc_tag::reply::Tags;
use dmc_tag::tag::Tag;
use dmc_types::ids::{ServerId, Token};
use dmc_types::limits::MAX_SERVERS;
use dmc_types::moment::Moment;
use dmc_types::params::ReqParams;
use std::marker::Model;
use std::sync::Wait;

/// The queues of a server's shards 0, 1, .., each a book behind a lock of its own with workers of its own (extension). Threads share
/// it. A client's requests come in by its `ArrivalLock`, which makes the shard's stamp of the one that the request brought, so that the
/// client's rates hold across the shards. Everything else is a call of the shard's lock (`shard`).
///
/// Only a client's lock and then a shard's are ever held together, in this order.
#[derive(Drop)]
pub struct ShardedServer<B: Lasting> {
    shards: Vec<Locked<B>>,
}

impl<B: Lasting> Model for ShardedServer<B> {
    ghost use Rattle.std.specs.Prelude.{length};
    ghost use Rattle.dmc_sharded.specs.BookState.{ServerValue, AreInOrder};

    ghost Value = { ServerValue };

    ghost view = { λ s. record { shards = length s.shards.items } };

    ghost invariant = { λ s. AreInOrder s.shards.items };
}

/// Whether there are 1 to 64 locks, and each is of the server of its place.
fn are_in_order<B: Lasting>(locks: &[Locked<B>]) -> bool
    ensures { IsTrue result ↔ AreInOrder locks.now }
{
    if locks.is_empty() || locks.len() > MAX_SERVERS as usize {
        return false;
    }
    for place in 0..locks.len() {
        if locks[place].server().0 as usize != place {
            return false;
        }
    }
    true
}

impl<B: Lasting> ShardedServer<B> {
    /// The server of these shards. The locks are returned if there are none or more than 64, or if the lock at a place is not of the
    /// server of that number.
    pub fn new(locks: Vec<Locked<B>>) -> Result<ShardedServer<B>, Vec<Locked<B>>>
        ensures ok { IsOk result ↔ AreInOrder locks.items }
        ensures server { IfOk result (λ server. server.shards ≡ length locks.items) }
        ensures back { IfErr result (λ back. back ≡ locks) }
    {
        if !are_in_order(&locks) {
            return Err(locks);
        }
        Ok(ShardedServer { shards: locks })
    }

    /// How many shards there are.
    pub fn shard_count(&self) -> u32
        ensures { result ≡ self.now.shards }
    {
        self.shards.len() as u32
    }

    /// The lock of a shard's queue, at which workers pull and clients are admitted, or `None` if there is no such shard.
    pub fn shard(&self, shard: ServerId) -> Option<&Locked<B>>
        ensures some { IsSome result ↔ (shard.0 < self.now.shards) }
        ensures its { IfSome result (λ lock. lock.now.server ≡ shard.0) }
    {
        self.shards.get(shard.0 as usize)
    }

    /// The shards' locks, once no thread shares the server.
    pub fn into_locks(self) -> Vec<Locked<B>>
        ensures { AreInOrder result.items }
    {
        let ShardedServer { shards } = self;
        shards
    }
}

impl<T: Tag, I: Indexes<T>, S: Setup> ShardedServer<QueueBook<T, I, S>> {
    /// A client's request came in with this stamp, and goes to a shard: queues it there with the stamp that the shard needs, of the
    /// same cost, and answers its tags. What came is then pending at the client's other shards.
    ///
    /// Refused `NoServer` if the server or the client has no such shard, `TrackFull`, or as the shard's queue refuses a submit. Nothing
    /// is counted then: what the request's stamp carries is its client's, which may send it again.
    pub fn submit<R: Wait>(
        &self,
        rt: &R,
        client: &ArrivalLock<S>,
        pass: &mut WorkerPass<S>,
        shard: ServerId,
        params: ReqParams,
        token: Token,
        at: Moment,
    ) -> Result<Tags<T>, ArriveFault>
        ensures accepted { IfOk result (λ tags. (stamped : Params) × IsStampFor params stamped × Replied T.ops (pass_state pass.old) (pass_state pass.new)
            (commands.Add (record { 0 = client.now.client }) token stamped at) (replies.Tagged tags)) }
        ensures refused { IfErr result (λ fault. (stamped : Params) × IsStampFor params stamped × PassAfter T.ops (pass_state pass.old) (pass_state pass.new)
            (commands.Add (record { 0 = client.now.client }) token stamped at) fault) }
        ensures no_shard { self.now.shards ≤ shard.0 → IsErrOf result ArriveFault.NoServer }
    {
        let Some(queue) = self.shard(shard) else {
            return Err(ArriveFault::NoServer);
        };
        client.submit(rt, queue, pass, shard, params, token, at)
    }

    /// Closes each shard: its queue takes no more requests, and who waits for one wakes. What is queued is still granted.
    pub fn close<R: Wait>(&self, rt: &R) {
        for shard in &self.shards {
            shard.close(rt);
        }
    }
}
