//! A run of commands, over the reference queue and the indexed queue with each kind of indexes.
use crate::kinds::{Example, over_all};
use crate::same::assert_same;
use dmc_index::index::Indexes;
use dmc_plain::queue::PlainQueue;
use dmc_pull::queue::PullQueue;
use dmc_tag::reply::{Reply, Tags};
use dmc_tag::run::run_commands;
use dmc_tag::scheduler::Scheduler;
use dmc_tick::tick::TickTag;
use dmc_types::command::Command;
use dmc_types::config::{AtLimit, PhaseType, QueueConfig};
use dmc_types::cost::Cost;
use dmc_types::ids::{ClientId, Token};
use dmc_types::info::ClientInfo;
use dmc_types::moment::Moment;
use dmc_types::params::ReqParams;
use dmc_types::refusal::ValueFault;
use std::alloc::Global;
use std::process::Abort;
use std::test::Fail;

fn tick(ticks: i128) -> Result<TickTag, &'static str> {
    TickTag::new(ticks).ok_or("no tag")
}

/// 1,000 ticks a second, and no client ever idle.
pub fn config() -> Result<QueueConfig, ValueFault> {
    QueueConfig::new(1000, 1 << 62, 1 << 62, AtLimit::Wait)
}

/// Drops a queue.
pub fn drop_queue<I: Indexes<TickTag>>(queue: PullQueue<TickTag, I>) {
    drop(queue);
}

const CLIENT: ClientId = ClientId(1);

const TOKEN: Token = Token(7);

// A request of a client with a limit of 20, and pulls before and after it is due.
fn commands() -> Result<[Command; 5], Fail> {
    let info = ClientInfo::new(Some(10), 1, Some(20))?;
    let params = ReqParams::new(1, 1)?;
    let (at, late) = (Moment::zero(), Moment::new(50)?);
    Ok([
        Command::Register {
            client: CLIENT,
            info,
            at,
        },
        Command::Add {
            client: CLIENT,
            token: TOKEN,
            params,
            at,
        },
        Command::Pull { at },
        Command::Pull { at: late },
        Command::Pull { at: late },
    ])
}

// The replies to the commands.
fn expected() -> Result<[Reply<TickTag>; 5], Fail> {
    let tags = Tags {
        r: Some(tick(100)?),
        l: tick(50)?,
        p: tick(1000)?,
    };
    Ok([
        Reply::Registered,
        Reply::Tagged(tags),
        Reply::Later(50),
        Reply::Granted {
            client: CLIENT,
            token: TOKEN,
            phase: PhaseType::Priority,
            cost: Cost::ONE,
            beyond: false,
        },
        Reply::Nothing,
    ])
}

// Granted at the limit, through the bound of a scheduler.
fn granted_at_limit<S: Scheduler<TickTag>>(
    rt: &impl Abort,
    alloc: Global,
    queue: &mut S,
) -> Result<(), Fail> {
    let (commands, expected) = (commands()?, expected()?);
    let replies = run_commands(alloc, queue, &commands)?;
    assert_same(rt, &replies.as_slice(), &expected.as_slice());
    let counts = (queue.client_count(), queue.request_count());
    assert_same(rt, &counts, &(1, 0));
    Ok(())
}

// The run over the indexed queue, proved once for all kinds of indexes.
fn five_commands_of<I: Indexes<TickTag>>(
    rt: &impl Abort,
    alloc: Global,
    queue: &mut PullQueue<TickTag, I>,
) -> Result<(), Fail> {
    granted_at_limit(rt, alloc, queue)?;
    assert!(rt; queue.empty());
    Ok(())
}

/// Five commands at an indexed queue.
pub fn five_commands_over<I: Indexes<TickTag>>(rt: &impl Abort, alloc: Global) -> Result<(), Fail> {
    let config = config()?;
    let mut queue: PullQueue<TickTag, I> = PullQueue::new(alloc, config);
    let answered = five_commands_of(rt, alloc, &mut queue);
    drop_queue(queue);
    answered
}

// The run over the reference queue.
fn five_plain_commands(
    rt: &impl Abort,
    alloc: Global,
    queue: &mut PlainQueue<TickTag>,
) -> Result<(), Fail> {
    granted_at_limit(rt, alloc, queue)?;
    assert!(rt; queue.empty());
    Ok(())
}

fn five_commands_in_turn(rt: &impl Abort, alloc: Global) -> Result<(), Fail> {
    let config = config()?;
    let mut queue: PlainQueue<TickTag> = PlainQueue::new(alloc, config);
    five_plain_commands(rt, alloc, &mut queue)
}

#[test]
fn five_commands(rt: HostRuntime) -> Result<(), Fail> {
    five_commands_in_turn(&rt, rt.alloc())?;
    over_all(&rt, rt.alloc(), Example::FiveCommands)
}
