//! The segments of a book that is lost: as an event text, and replayed by a standby that takes over.
ghost use Rattle.std.specs.Prelude.{◌≡◌};

use crate::books::play;
use crate::same::assert_same;
use crate::segments::rotate;
use dmc_check::check::Verdict;
use dmc_check::replayer::Replayer;
use dmc_check::text::check_text;
use dmc_check::write::write_segment;
use dmc_heap::adaptive_index::HeapIndexes;
use dmc_ledger::mint::Blank;
use dmc_ledger::setup::Setup;
use dmc_plain::queue::PlainQueue;
use dmc_pull::queue::PullQueue;
use dmc_queue_history::segment::Segment;
use dmc_tag::event::Event;
use dmc_tag::reply::Reply;
use dmc_tag::scheduler::Scheduler;
use dmc_tests_setup::calls::{run, submit};
use dmc_tests_setup::opening::{LONG, ONE, Opened, ZERO, drop_opened, open, wait_config};
use dmc_text::cause::LineCause;
use dmc_text::script::ScriptFault;
use dmc_text::watched::Watched;
use dmc_text::write_line::write_config;
use dmc_tick::tick::TickTag;
use dmc_types::command::Command;
use dmc_types::config::Counting;
use dmc_types::ids::Token;
use dmc_types::info::ClientInfo;
use dmc_types::moment::Moment;
use dmc_types::params::ReqParams;
use std::alloc::{AllocError, Global};
use std::marker::Brand;
use std::test::Fail;

type Part<S> = Segment<TickTag, S>;

/// Submits one request more.
fn submit_again<S: Setup>(opened: &mut Opened<S>) -> Result<(), Fail> {
    let Some(tills) = opened.tills.tills(ZERO) else {
        return Err(Fail::new("tills for the server"));
    };
    submit(
        &mut opened.book,
        &mut opened.pass,
        &mut opened.tracker,
        tills,
    )?;
    Ok(())
}

/// What a book of client 1 released when its first request was granted.
fn first_part<S: Setup>(opened: &mut Opened<S>) -> Result<Part<S>, Fail> {
    play(opened)?;
    rotate(&mut opened.book)
}

/// What it released when its second request was queued.
fn second_part<S: Setup>(opened: &mut Opened<S>) -> Result<Part<S>, Fail> {
    submit_again(opened)?;
    rotate(&mut opened.book)
}

/// The two segments of a book.
fn parts_of<S: Setup>(opened: &mut Opened<S>) -> Result<(Part<S>, Part<S>), Fail> {
    let first = first_part(opened)?;
    Ok((first, second_part(opened)?))
}

/// The segments of a book under this set-up. Then the book is lost.
fn record<S: Setup>(alloc: Global, blank: Blank) -> Result<(Part<S>, Part<S>), Fail>
    requires { blank.name ≡ S.name }
{
    let mut mint = blank.open::<S>();
    let mut opened = open(alloc, &mut mint, 8)?;
    let parts = parts_of(&mut opened);
    drop_opened(opened);
    parts
}

// ---- texts

/// The `hz` line of the book's queue.
const HEAD: &str = "hz 1000 4611686018427387904 4611686018427387904\n";

const FIRST: &str =
    "# server 0 first 0\n7 client 1 - 1 - 0 = ok\n7 add 1 9 0 0 0 = tags - 0 0\n7 pull 0 = grant 1 9 priority\n";

const SECOND: &str = "# server 0 first 3\n7 add 1 9 0 0 0 = tags - 0 0\n";

/// The text of the configuration.
fn head_text(alloc: Global) -> Result<Vec<u8>, Fail> {
    let mut text = Vec::with_capacity(alloc, 512)?;
    write_config(wait_config(LONG)?, &mut text)?;
    Ok(text)
}

/// Adds the text of a segment.
fn put_segment<S: Setup>(text: &mut Vec<u8>, segment: &Part<S>) -> Result<(), Fail> {
    write_segment(segment, text)?;
    Ok(())
}

/// The verdict on a text. An allocation failure is an error.
fn verdict_on(alloc: Global, text: &[u8]) -> Result<Result<Verdict, ScriptFault>, Fail> {
    let mut reader = Watched::new(text);
    let mut writer = Watched::new(Vec::with_capacity(alloc, 32)?);
    match check_text::<TickTag, _, _>(alloc, &mut reader, &mut writer) {
        Err(ScriptFault::Memory) => Err(AllocError.into()),
        checked => Ok(checked),
    }
}

/// The text of the segments.
fn text_of<S: Setup>(alloc: Global, first: &Part<S>, second: &Part<S>) -> Result<Vec<u8>, Fail> {
    let mut text = head_text(alloc)?;
    put_segment(&mut text, first)?;
    put_segment(&mut text, second)?;
    Ok(text)
}

/// The same without the first one.
fn text_without<S: Setup>(alloc: Global, second: &Part<S>) -> Result<Vec<u8>, Fail> {
    let mut text = head_text(alloc)?;
    put_segment(&mut text, second)?;
    Ok(text)
}

/// The text of both segments, and the text that lacks the first.
fn write_both<S: Setup>(alloc: Global, blank: Blank) -> Result<(Vec<u8>, Vec<u8>), Fail>
    requires { blank.name ≡ S.name }
{
    let (first, second) = record::<S>(alloc, blank)?;
    let text = text_of(alloc, &first, &second)?;
    Ok((text, text_without(alloc, &second)?))
}

#[test]
fn segments_written(rt: HostRuntime) -> Result<(), Fail> {
    let (text, without) = write_both::<Brand>(rt.alloc(), Blank::new(16))?;
    let whole = format!(in rt.alloc(); "{HEAD}{FIRST}{SECOND}")?;
    assert_same(&rt, &text.as_slice(), &whole.as_bytes());
    let verdict = verdict_on(rt.alloc(), &text)?;
    assert_same(&rt, &verdict, &Ok(Verdict::Replays));
    let verdict = verdict_on(rt.alloc(), &without)?;
    let fault = ScriptFault::Line(2, LineCause::Number);
    assert_same(&rt, &verdict, &Err(fault));
    Ok(())
}

// ---- a cancel

/// Takes back the second request of client 1, after its first was granted.
fn take_back<S: Setup>(opened: &mut Opened<S>) -> Result<Reply<TickTag>, Fail> {
    let cancel = Command::Cancel {
        client: ONE,
        token: Token(9),
        counting: Counting::All,
    };
    Ok(run(&mut opened.book, &mut opened.pass, cancel)?)
}

/// What a book released when the second request was taken back, and the reply.
fn cancelled_part<S: Setup>(opened: &mut Opened<S>) -> Result<(Part<S>, Reply<TickTag>), Fail> {
    play(opened)?;
    submit_again(opened)?;
    let reply = take_back(opened)?;
    Ok((rotate(&mut opened.book)?, reply))
}

/// The segment of a book under this set-up, and the reply to the cancel. Then the book is lost.
fn record_cancel<S: Setup>(alloc: Global, blank: Blank) -> Result<(Part<S>, Reply<TickTag>), Fail>
    requires { blank.name ≡ S.name }
{
    let mut mint = blank.open::<S>();
    let mut opened = open(alloc, &mut mint, 8)?;
    let part = cancelled_part(&mut opened);
    drop_opened(opened);
    part
}

const CANCELLED: &str = "7 add 1 9 0 0 0 = tags - 0 0\n7 cancel 1 9 all = dropped 1\n";

/// The text of a segment with a cancel, and the reply to it.
fn write_cancel<S: Setup>(alloc: Global, blank: Blank) -> Result<(Vec<u8>, Reply<TickTag>), Fail>
    requires { blank.name ≡ S.name }
{
    let (part, reply) = record_cancel::<S>(alloc, blank)?;
    let mut text = head_text(alloc)?;
    put_segment(&mut text, &part)?;
    Ok((text, reply))
}

/// A cancel is recorded with its reply, and replays.
#[test]
fn cancel_recorded(rt: HostRuntime) -> Result<(), Fail> {
    let (text, reply) = write_cancel::<Brand>(rt.alloc(), Blank::new(16))?;
    assert_same(&rt, &reply, &Reply::Removed(1));
    let whole = format!(in rt.alloc(); "{HEAD}{FIRST}{CANCELLED}")?;
    assert_same(&rt, &text.as_slice(), &whole.as_bytes());
    let verdict = verdict_on(rt.alloc(), &text)?;
    assert_same(&rt, &verdict, &Ok(Verdict::Replays));
    Ok(())
}

// ---- a standby

/// Replays a segment.
fn replay<S: Setup>(replayer: &mut Replayer<TickTag>, segment: &Part<S>) -> Result<(), Fail> {
    match replayer.replay(segment)? {
        Verdict::Replays => Ok(()),
        Verdict::Differs(_) => Err(Fail::new("a segment that replays")),
    }
}

/// The queue that takes over after the segments.
fn standby<S: Setup>(
    alloc: Global,
    first: &Part<S>,
    second: &Part<S>,
) -> Result<PullQueue<TickTag, HeapIndexes>, Fail> {
    let mut replayer = Replayer::new(alloc, wait_config(LONG)?, ZERO);
    replay(&mut replayer, first)?;
    replay(&mut replayer, second)?;
    match replayer.into_queue() {
        Some(queue) => Ok(queue),
        None => Err(Fail::new("a queue that takes over")),
    }
}

/// The reply of a queue.
fn ask<Q: Scheduler<TickTag>>(queue: &mut Q, command: &Command) -> Result<Reply<TickTag>, Fail> {
    Ok(queue.apply(command)?)
}

/// Whether a queue gives the reply that was recorded.
fn replies_as<Q: Scheduler<TickTag>>(
    queue: &mut Q,
    event: Option<Event<TickTag>>,
) -> Result<bool, Fail> {
    match event {
        Some(event) => Ok(ask(queue, &event.command)? == event.reply),
        None => Ok(false),
    }
}

/// Whether a queue gives all replies of a segment.
fn replies_all<Q: Scheduler<TickTag>, S: Setup>(
    queue: &mut Q,
    segment: &Part<S>,
) -> Result<bool, Fail> {
    let mut same = true;
    for index in 0..segment.events().len() {
        same = replies_as(queue, segment.events().at(index))? && same;
    }
    Ok(same)
}

/// One queue that had the commands of both segments, and whether its replies are those of the book.
fn one_queue<S: Setup>(
    alloc: Global,
    first: &Part<S>,
    second: &Part<S>,
) -> Result<(PlainQueue<TickTag>, bool), Fail> {
    let mut queue = PlainQueue::new(alloc, wait_config(LONG)?);
    let same = replies_all(&mut queue, first)? && replies_all(&mut queue, second)?;
    Ok((queue, same))
}

/// An add of client 1.
fn add(token: u32, delta: u32, at: u64) -> Result<Command, Fail> {
    Ok(Command::Add {
        client: ONE,
        token: Token(token),
        params: ReqParams::new(delta, 1)?,
        at: Moment::new(at)?,
    })
}

fn pull_at(at: u64) -> Result<Command, Fail> {
    Ok(Command::Pull {
        at: Moment::new(at)?,
    })
}

/// The cancel of a request of client 1 whose stamp counts it.
fn cancel(token: u32) -> Command {
    Command::Cancel {
        client: ONE,
        token: Token(token),
        counting: Counting::Others,
    }
}

/// What comes after the segments: the request that is still queued is granted, tags go on from its own, and a request is taken back.
fn later() -> Result<[Command; 9], Fail> {
    let info = ClientInfo::new(Some(10), 2, Some(20))?;
    let update = Command::Update {
        client: ONE,
        info,
        at: Moment::new(3)?,
    };
    Ok([
        pull_at(2)?,
        update,
        add(10, 3, 4)?,
        add(11, 2, 5)?,
        cancel(10),
        add(12, 2, 5)?,
        pull_at(6)?,
        pull_at(400)?,
        Command::Remove { client: ONE },
    ])
}

/// Whether two queues give the same reply, its tags included.
fn same_reply<P: Scheduler<TickTag>, Q: Scheduler<TickTag>>(
    left: &mut P,
    right: &mut Q,
    command: &Command,
) -> Result<bool, Fail> {
    Ok(ask(left, command)? == ask(right, command)?)
}

/// Whether two queues go on alike.
fn go_on<P: Scheduler<TickTag>, Q: Scheduler<TickTag>>(
    left: &mut P,
    right: &mut Q,
) -> Result<bool, Fail> {
    let mut same = true;
    for command in later()? {
        same = same_reply(left, right, &command)? && same;
    }
    Ok(same)
}

/// Whether the standby goes on as one queue that had all commands, after the replies that the book gave.
fn take_over<S: Setup>(alloc: Global, blank: Blank) -> Result<(bool, bool), Fail>
    requires { blank.name ≡ S.name }
{
    let (first, second) = record::<S>(alloc, blank)?;
    let (mut one, same) = one_queue(alloc, &first, &second)?;
    let mut standby = standby(alloc, &first, &second)?;
    let alike = go_on(&mut standby, &mut one);
    drop(standby);
    Ok((same, alike?))
}

#[test]
fn standby_takes_over(rt: HostRuntime) -> Result<(), Fail> {
    let taken = take_over::<Brand>(rt.alloc(), Blank::new(16))?;
    assert_same(&rt, &taken, &(true, true));
    Ok(())
}
