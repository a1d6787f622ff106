//! Random commands at the reference queue and at an indexed queue: each reply is the same.
use crate::kinds::{Example, over_all, over_ratios};
use crate::same::assert_same;
use dmc_index::index::Indexes;
use dmc_plain::queue::PlainQueue;
use dmc_pull::queue::PullQueue;
use dmc_tag::reply::Reply;
use dmc_tag::scheduler::Scheduler;
use dmc_tag::tag::Tag;
use dmc_types::command::Command;
use dmc_types::config::{AtLimit, Counting, QueueConfig, Shares};
use dmc_types::cost::Cost;
use dmc_types::ids::{ClientId, Token};
use dmc_types::info::ClientInfo;
use dmc_types::moment::Moment;
use dmc_types::params::ReqParams;
use rand_core::utils::NextWord;
use rand_pcg::Lcg64Xsh32;
use std::alloc::Global;
use std::process::Abort;
use std::test::Fail;

// How many lists of commands there are, and how many commands a list has.
const LISTS: u64 = 24;

const COMMANDS: u64 = 300;

// ---- random values

/// A rate. In ticks some have no spacing.
fn rate(words: &mut Lcg64Xsh32) -> u32 {
    let rates = [1, 2, 3, 7, 10, 20, 50, 1000];
    rates[(words.next_word() % 8) as usize]
}

/// A rate, or none.
fn some_rate(words: &mut Lcg64Xsh32) -> Option<u32> {
    let rate = rate(words);
    if words.next_word() % 2 == 0 {
        Some(rate)
    } else {
        None
    }
}

fn info(words: &mut Lcg64Xsh32) -> Result<ClientInfo, Fail> {
    let reservation = some_rate(words);
    let weight = rate(words);
    Ok(ClientInfo::new(reservation, weight, some_rate(words))?)
}

fn params(words: &mut Lcg64Xsh32) -> Result<ReqParams, Fail> {
    let (one, other) = (words.next_word() % 6, words.next_word() % 6);
    let (delta, rho) = if one < other {
        (other, one)
    } else {
        (one, other)
    };
    let cost = Cost::new(1 + words.next_word() % 4)?;
    Ok(ReqParams::new(delta, rho)?.with_cost(cost))
}

/// One of a few, so that a client's requests have some in common.
fn token(words: &mut Lcg64Xsh32) -> Token {
    Token(words.next_word() % 5)
}

fn counting(words: &mut Lcg64Xsh32) -> Counting {
    if words.next_word() % 2 == 0 {
        Counting::All
    } else {
        Counting::Others
    }
}

/// The moment of the command of this number: it may be before that of the last.
fn moment(words: &mut Lcg64Xsh32, number: u64) -> Result<Moment, Fail> {
    let later = u64::from(words.next_word() % 200);
    Ok(Moment::new(number.wrapping_mul(40).wrapping_add(later) % (1 << 62))?)
}

/// The command of this number.
fn command(words: &mut Lcg64Xsh32, number: u64) -> Result<Command, Fail> {
    let at = moment(words, number)?;
    let client = ClientId(words.next_word() % 4);
    let info = info(words)?;
    let params = params(words)?;
    let token = token(words);
    let counting = counting(words);
    Ok(match words.next_word() % 20 {
        0 | 1 => Command::Register { client, info, at },
        2 => Command::Update { client, info, at },
        3 => Command::Remove { client },
        4 => Command::Clean { at },
        5..=7 => Command::Cancel {
            client,
            token,
            counting,
        },
        8..=12 => Command::Pull { at },
        _ => Command::Add {
            client,
            token,
            params,
            at,
        },
    })
}

/// Whether no client is idle soon, what is done at the limit, and how shares are compared.
fn config(words: &mut Lcg64Xsh32) -> Result<QueueConfig, Fail> {
    let at_limit = match words.next_word() % 4 {
        0 => AtLimit::Allow,
        1 => AtLimit::Reject { threshold: 900 },
        _ => AtLimit::Wait,
    };
    let shares = if words.next_word() % 2 == 0 {
        Shares::Clock
    } else {
        Shares::Virtual
    };
    Ok(QueueConfig::new(1000, 400, 4000, at_limit)?.with_shares(shares))
}

// ---- the two queues

/// How many requests were taken back, of each form of counting.
#[derive(Clone, Copy)]
struct Taken {
    all: u32,
    others: u32,
}

/// With those of one command more.
fn with_taken<T: Tag>(taken: Taken, command: &Command, reply: Reply<T>) -> Taken {
    match (*command, reply) {
        (
            Command::Cancel {
                counting: Counting::All,
                ..
            },
            Reply::Removed(count),
        ) => Taken {
            all: taken.all.wrapping_add(count),
            ..taken
        },
        (Command::Cancel { .. }, Reply::Removed(count)) => Taken {
            others: taken.others.wrapping_add(count),
            ..taken
        },
        _ => taken,
    }
}

/// Both queues give the same reply, and hold as much.
fn same_reply<T: Tag, P: Scheduler<T>, Q: Scheduler<T>>(
    rt: &impl Abort,
    expected: &mut P,
    queue: &mut Q,
    command: &Command,
) -> Result<Reply<T>, Fail> {
    let reply = expected.apply(command)?;
    assert!(rt; queue.apply(command)? == reply, "{command:?}");
    assert_same(rt, &queue.client_count(), &expected.client_count());
    assert_same(rt, &queue.request_count(), &expected.request_count());
    Ok(reply)
}

/// Both queues give the same replies to a list of commands. Returns how many requests were taken back.
fn same_replies<T: Tag, P: Scheduler<T>, Q: Scheduler<T>>(
    rt: &impl Abort,
    expected: &mut P,
    queue: &mut Q,
    words: &mut Lcg64Xsh32,
    taken: Taken,
) -> Result<Taken, Fail> {
    let mut taken = taken;
    for number in 0..COMMANDS {
        let command = command(words, number)?;
        let reply = same_reply(rt, expected, queue, &command)?;
        taken = with_taken(taken, &command, reply);
    }
    Ok(taken)
}

/// The list of this number, at new queues.
fn one_list<T: Tag, I: Indexes<T>>(
    rt: &impl Abort,
    alloc: Global,
    number: u64,
    taken: Taken,
) -> Result<Taken, Fail> {
    let mut words = Lcg64Xsh32::new(2010, number);
    let config = config(&mut words)?;
    let mut expected: PlainQueue<T> = PlainQueue::new(alloc, config);
    let mut queue: PullQueue<T, I> = PullQueue::new(alloc, config);
    let answered = same_replies(rt, &mut expected, &mut queue, &mut words, taken);
    drop(queue);
    answered
}

/// Lists of commands at the indexed queue. In both forms some requests are taken back.
pub fn alike_over<T: Tag, I: Indexes<T>>(rt: &impl Abort, alloc: Global) -> Result<(), Fail> {
    let mut taken = Taken { all: 0, others: 0 };
    for number in 0..LISTS {
        taken = one_list::<T, I>(rt, alloc, number, taken)?;
    }
    assert!(rt; taken.all > 0 && taken.others > 0);
    Ok(())
}

#[test]
fn random_commands(rt: HostRuntime) -> Result<(), Fail> {
    over_all(&rt, rt.alloc(), Example::RandomCommands)
}

#[test]
fn random_commands_in_ratios(rt: HostRuntime) -> Result<(), Fail> {
    over_ratios(&rt, rt.alloc())
}
