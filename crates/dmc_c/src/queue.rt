//! The queue's calls.
ghost use Rattle.std.specs.Prelude.{◌≡◌, ⊤, Result, None};
ghost use Rattle.dmc_tag.specs.Tag.{Fraction};
ghost use Rattle.dmc_tag.specs.declared.reply.Reply.{Reply};
ghost use Rattle.dmc_c.specs.declared.fault.Fault.{Fault};
ghost use Rattle.dmc_c.specs.Codes.{code_of, reply_code};
ghost use Rattle.dmc_c.specs.Reading.{register_command, update_command, add_command, pull_command, remove_command, cancel_command, clean_command};
ghost use Rattle.dmc_c.specs.Outputs.{TagsWritten, pulled_written, removed_written, idled_written, erased_written, clients_written, requests_written};
ghost use Rattle.dmc_c.specs.Calls.{AsksHeld, counts_held, new_queue, queue_opened, Opens};

use crate::fault::{Fault, code_of, reply_code};
use crate::handle::{Handle, check_vacant, fill, put, take};
use crate::kept::Kept;
use crate::outputs::{
    DmcPulled, DmcTags, write_cleaned, write_counts, write_pulled, write_removed, write_tags,
};
use crate::reading::{
    DmcConfig, add_command, cancel_command, clean_command, pull_command, queue_config,
    register_command, tag_kind, update_command,
};
use dmc_any_queue::any_queue::AnyQueue;
use dmc_any_queue::fraction::TagFraction;
use dmc_tag::reply::Reply;
use dmc_types::command::Command;
use dmc_types::ids::ClientId;
use std::alloc::Global;

/// A queue that nothing was asked of yet.
fn make_queue(asked: &DmcConfig, alloc: Global) -> Result<AnyQueue, Fault>
    ensures { result ≡ new_queue asked.now }
{
    let tags = tag_kind(asked.tag_kind)?;
    let config = queue_config(asked)?;
    Ok(AnyQueue::new(alloc, tags, config))
}

/// Makes a queue where nothing is held.
fn open_queue(queue: &mut Handle, asked: &DmcConfig, alloc: Global) -> Result<(), Fault>
    ensures { Opens (queue_opened (new_queue asked.now)) queue.old.value queue.new.value result }
{
    check_vacant(queue, alloc)?;
    let made = make_queue(asked, alloc)?;
    fill(queue, Kept::Queue(made), alloc)
}

/// The reply to a command, at the queue that is held.
#[inline(always)]
fn ask(
    queue: &mut Handle,
    command: Result<Command, Fault>,
    alloc: Global,
) -> Result<Reply<TagFraction>, Fault>
    ensures { AsksHeld command queue.old.value queue.new.value result }
{
    let Some(mut held) = take(queue, alloc) else {
        return Err(Fault::NoneHeld);
    };
    let answer = held.ask(command);
    put(queue, held, alloc);
    answer
}

/// Takes requests out of the queue that is held, and writes how many.
fn take_out(
    queue: &mut Handle,
    command: Result<Command, Fault>,
    removed: &mut u32,
    alloc: Global,
) -> u32
    ensures { (answer : Result (Reply Fraction) Fault)
        × AsksHeld command queue.old.value queue.new.value answer
        × (result ≡ reply_code answer) × (removed.new ≡ removed_written answer removed.old) }
{
    let answer = ask(queue, command, alloc);
    write_removed(&answer, removed);
    reply_code(&answer)
}

/// How many clients are registered and how many requests are queued, at the queue that is held.
fn count(queue: &mut Handle, alloc: Global) -> Result<(u32, u32), Fault>
    ensures value { result ≡ counts_held queue.old.value }
    ensures same { queue.new.value ≡ queue.old.value }
{
    let Some(held) = take(queue, alloc) else {
        return Err(Fault::NoneHeld);
    };
    let counts = held.counts();
    put(queue, held, alloc);
    counts
}

/// Makes an empty queue: `DMC_HELD`, `DMC_BAD_CONFIG`, `DMC_MEMORY`.
#[unsafe(no_mangle)]
pub extern "C" fn dmc_queue_new(queue: &mut Handle, config: &DmcConfig, alloc: Global) -> u32
    ensures { (answer : Result ⊤ Fault) × Opens (queue_opened (new_queue config.now)) queue.old.value queue.new.value answer
        × (result ≡ code_of answer) }
{
    let answer = open_queue(queue, config, alloc);
    code_of(&answer)
}

/// Ends what is held, if anything is.
#[unsafe(no_mangle)]
pub extern "C" fn dmc_queue_free(queue: &mut Handle, alloc: Global)
    ensures { queue.new.value ≡ None }
{
    if let Some(held) = take(queue, alloc) {
        drop(held);
    }
}

/// Registers a client: `DMC_NONE_HELD`, `DMC_BAD_MOMENT`, `DMC_BAD_RATE`, the refusals of a registration, `DMC_MEMORY`.
#[unsafe(no_mangle)]
pub extern "C" fn dmc_queue_register(
    queue: &mut Handle,
    client: u32,
    reservation: u32,
    weight: u32,
    limit: u32,
    at: u64,
    alloc: Global,
) -> u32
    ensures { (answer : Result (Reply Fraction) Fault)
        × AsksHeld (register_command client reservation weight limit at) queue.old.value queue.new.value answer
        × (result ≡ reply_code answer) }
{
    let command = register_command(client, reservation, weight, limit, at);
    let answer = ask(queue, command, alloc);
    reply_code(&answer)
}

/// Replaces a client's rates: `DMC_NONE_HELD`, `DMC_BAD_MOMENT`, `DMC_BAD_RATE`, the refusals of an update.
#[unsafe(no_mangle)]
pub extern "C" fn dmc_queue_update(
    queue: &mut Handle,
    client: u32,
    reservation: u32,
    weight: u32,
    limit: u32,
    at: u64,
    alloc: Global,
) -> u32
    ensures { (answer : Result (Reply Fraction) Fault)
        × AsksHeld (update_command client reservation weight limit at) queue.old.value queue.new.value answer
        × (result ≡ reply_code answer) }
{
    let command = update_command(client, reservation, weight, limit, at);
    let answer = ask(queue, command, alloc);
    reply_code(&answer)
}

/// Queues a request of a cost, and writes its tags: `DMC_NONE_HELD`, `DMC_BAD_MOMENT`, `DMC_BAD_PARAMS`, `DMC_BAD_COST`, the
/// refusals of an add, `DMC_MEMORY`.
#[unsafe(no_mangle)]
pub extern "C" fn dmc_queue_add(
    queue: &mut Handle,
    client: u32,
    token: u32,
    delta: u32,
    rho: u32,
    cost: u32,
    at: u64,
    tags: &mut DmcTags,
    alloc: Global,
) -> u32
    ensures { (answer : Result (Reply Fraction) Fault)
        × AsksHeld (add_command client token delta rho cost at) queue.old.value queue.new.value answer
        × (result ≡ reply_code answer) × TagsWritten answer tags.old tags.new }
{
    let command = add_command(client, token, delta, rho, cost, at);
    let answer = ask(queue, command, alloc);
    write_tags(&answer, tags);
    reply_code(&answer)
}

/// Grants the next request, or says when one is due: `DMC_NONE_HELD`, `DMC_BAD_MOMENT`, `DMC_RANGE`.
#[unsafe(no_mangle)]
pub extern "C" fn dmc_queue_pull(
    queue: &mut Handle,
    at: u64,
    pulled: &mut DmcPulled,
    alloc: Global,
) -> u32
    ensures { (answer : Result (Reply Fraction) Fault)
        × AsksHeld (pull_command at) queue.old.value queue.new.value answer
        × (result ≡ reply_code answer) × (pulled.new ≡ pulled_written answer pulled.old) }
{
    let answer = ask(queue, pull_command(at), alloc);
    write_pulled(&answer, pulled);
    reply_code(&answer)
}

/// Takes out a client's queued requests, and writes how many: `DMC_NONE_HELD`, `DMC_UNKNOWN`.
#[unsafe(no_mangle)]
pub extern "C" fn dmc_queue_remove(
    queue: &mut Handle,
    client: u32,
    removed: &mut u32,
    alloc: Global,
) -> u32
    ensures { (answer : Result (Reply Fraction) Fault)
        × AsksHeld (remove_command client) queue.old.value queue.new.value answer
        × (result ≡ reply_code answer) × (removed.new ≡ removed_written answer removed.old) }
{
    let client = ClientId(client);
    take_out(queue, Ok(Command::Remove { client }), removed, alloc)
}

/// Takes back a client's queued requests with a token, and what they were charged if their stamps counted it, and writes how many
/// they were: `DMC_NONE_HELD`, `DMC_BAD_CONFIG` if `counting` names no form, `DMC_UNKNOWN`.
#[unsafe(no_mangle)]
pub extern "C" fn dmc_queue_cancel(
    queue: &mut Handle,
    client: u32,
    token: u32,
    counting: u32,
    removed: &mut u32,
    alloc: Global,
) -> u32
    ensures { (answer : Result (Reply Fraction) Fault)
        × AsksHeld (cancel_command client token counting) queue.old.value queue.new.value answer
        × (result ≡ reply_code answer) × (removed.new ≡ removed_written answer removed.old) }
{
    let command = cancel_command(client, token, counting);
    take_out(queue, command, removed, alloc)
}

/// Marks clients idle, erases old ones, and writes how many became idle and how many were erased: `DMC_NONE_HELD`,
/// `DMC_BAD_MOMENT`.
#[unsafe(no_mangle)]
pub extern "C" fn dmc_queue_clean(
    queue: &mut Handle,
    at: u64,
    idled: &mut u32,
    erased: &mut u32,
    alloc: Global,
) -> u32
    ensures { (answer : Result (Reply Fraction) Fault)
        × AsksHeld (clean_command at) queue.old.value queue.new.value answer
        × (result ≡ reply_code answer)
        × (idled.new ≡ idled_written answer idled.old) × (erased.new ≡ erased_written answer erased.old) }
{
    let answer = ask(queue, clean_command(at), alloc);
    write_cleaned(&answer, idled, erased);
    reply_code(&answer)
}

/// Writes how many clients are registered and how many requests are queued: `DMC_NONE_HELD`.
#[unsafe(no_mangle)]
pub extern "C" fn dmc_queue_counts(
    queue: &mut Handle,
    clients: &mut u32,
    requests: &mut u32,
    alloc: Global,
) -> u32
    ensures code { result ≡ code_of (counts_held queue.old.value) }
    ensures same { queue.new.value ≡ queue.old.value }
    ensures clients { clients.new ≡ clients_written (counts_held queue.old.value) clients.old }
    ensures requests { requests.new ≡ requests_written (counts_held queue.old.value) requests.old }
{
    let counts = count(queue, alloc);
    write_counts(&counts, clients, requests);
    code_of(&counts)
}
