//! How events are kept: what most events are has a form of its own, with no room for what others have.
ghost use Rattle.std.specs.Prelude.{◌≡◌, ◌<◌, IfSome, IsTrue, ⊤};
ghost use Rattle.dmc_types.specs.declared.command.Command.TheVariants as commands;
ghost use Rattle.dmc_queue_history.specs.Marked.{mark_count};
ghost use Rattle.dmc_queue_history.specs.Kept.{event_of_granted, event_of_queued, event_of_queued_by_weight, is_beyond, phase_of};

use crate::marked::MarkedMoment;
use dmc_tag::event::Event;
use dmc_tag::reply::{Reply, Tags};
use dmc_tag::tag::Tag;
use dmc_types::command::Command;
use dmc_types::config::PhaseType;
use dmc_types::cost::Cost;
use dmc_types::ids::{ClientId, Token, WorkerId};
use dmc_types::moment::Moment;
use dmc_types::params::ReqParams;
use std::alloc::AllocError;

/// A request that was queued with no tag to keep but that of its weight: the client has no reservation, and the limit's tag is
/// the moment, as it is of a client without a limit, or within it. The widest fields come first, so that none of the space
/// between them is lost.
#[derive(Copy)]
pub(crate) struct QueuedByWeight<T> {
    pub(crate) p: T,
    pub(crate) at: Moment,
    pub(crate) worker: WorkerId,
    pub(crate) client: ClientId,
    pub(crate) token: Token,
    pub(crate) params: ReqParams,
}

impl<T: Copy> Clone for QueuedByWeight<T> {
    ghost is_clone = { λ x y. y ≡ x };

    ghost is_infallible = { λ _. ⊤ };

    fn clone(&self) -> Result<QueuedByWeight<T>, AllocError> {
        Ok(*self)
    }
}

/// Another request that was queued. The mark of its moment says whether the client has a reservation. If it has none, `r` is any
/// tag.
#[derive(Copy)]
pub(crate) struct Queued<T> {
    pub(crate) r: T,
    pub(crate) l: T,
    pub(crate) p: T,
    pub(crate) marked: MarkedMoment,
    pub(crate) worker: WorkerId,
    pub(crate) client: ClientId,
    pub(crate) token: Token,
    pub(crate) params: ReqParams,
}

impl<T: Copy> Clone for Queued<T> {
    ghost is_clone = { λ x y. y ≡ x };

    ghost is_infallible = { λ _. ⊤ };

    fn clone(&self) -> Result<Queued<T>, AllocError> {
        Ok(*self)
    }
}

/// A request that was granted. The mark of its moment says in which phase, and whether it is beyond its client's limit.
#[derive(Clone, Copy)]
pub(crate) struct Granted {
    pub(crate) marked: MarkedMoment,
    pub(crate) worker: WorkerId,
    pub(crate) client: ClientId,
    pub(crate) token: Token,
    pub(crate) cost: Cost,
}

// How many bytes they take with tags of two words, as tick tags are, and how many an event that is kept as it is.
const _: () = prove!(size_of::<QueuedByWeight<[u64; 2]>>() == 48);

const _: () = prove!(size_of::<Queued<[u64; 2]>>() == 80);

const _: () = prove!(size_of::<Granted>() == 24);

const _: () = prove!(size_of::<Event<[u64; 2]>>() == 112);

/// The mark of a request that was queued with a reservation's tag. Without one it is 0.
const RESERVED: u8 = 1;

/// The marks of grants: in the constraint phase, in the weight phase within the client's limit, and there beyond it.
const BY_RESERVATION: u8 = 0;

const WITHIN_LIMIT: u8 = 1;

const BEYOND_LIMIT: u8 = 2;

/// A request that a queue is asked to add.
#[derive(Clone, Copy)]
pub(crate) struct Request {
    pub(crate) client: ClientId,
    pub(crate) token: Token,
    pub(crate) params: ReqParams,
    pub(crate) at: Moment,
}

/// The request that a command adds.
pub(crate) fn asked_to_add(command: &Command) -> Option<Request>
    ensures { IfSome result (λ request. command.now ≡ commands.Add request.client request.token request.params request.at) }
{
    match *command {
        Command::Add {
            client,
            token,
            params,
            at,
        } => Some(Request {
            client,
            token,
            params,
            at,
        }),
        _ => None,
    }
}

/// The moment of a pull, with the mark of what it granted. `None` if the command is no pull, or the grant has no mark.
#[inline(always)]
pub(crate) fn marked_pull(command: &Command, phase: PhaseType, beyond: bool) -> Option<MarkedMoment>
    ensures command { IfSome result (λ marked. command.now ≡ commands.Pull marked.at) }
    ensures phase { IfSome result (λ marked. phase_of marked.mark ≡ phase) }
    ensures beyond { IfSome result (λ marked. is_beyond marked.mark ≡ beyond) }
{
    let at = asked_to_pull(command)?;
    let mark = mark_of_granted(phase, beyond)?;
    Some(MarkedMoment::new(at, mark))
}

/// The moment of a pull.
fn asked_to_pull(command: &Command) -> Option<Moment>
    ensures { IfSome result (λ at. command.now ≡ commands.Pull at) }
{
    match *command {
        Command::Pull { at } => Some(at),
        _ => None,
    }
}

/// The mark of a grant. There is none for one in the constraint phase beyond a limit, which no queue gives.
#[inline(always)]
fn mark_of_granted(phase: PhaseType, beyond: bool) -> Option<u8>
    ensures bound { IfSome result (λ mark. mark < mark_count) }
    ensures phase { IfSome result (λ mark. phase_of mark ≡ phase) }
    ensures beyond { IfSome result (λ mark. is_beyond mark ≡ beyond) }
{
    match (phase, beyond) {
        (PhaseType::Reservation, false) => Some(BY_RESERVATION),
        (PhaseType::Priority, false) => Some(WITHIN_LIMIT),
        (PhaseType::Priority, true) => Some(BEYOND_LIMIT),
        (PhaseType::Reservation, true) => None,
    }
}

/// The phase of a grant with this mark.
fn phase_of(mark: u8) -> PhaseType
    ensures { result ≡ phase_of mark }
{
    if mark == BY_RESERVATION {
        PhaseType::Reservation
    } else {
        PhaseType::Priority
    }
}

/// Whether a tag is that of a moment.
pub(crate) fn is_of_moment<T: Tag>(tag: T, at: Moment) -> bool
    ensures { IsTrue result → tag ≡ T.ops.of_moment at }
{
    tag.cmp(&T::of_moment(at)).is_eq()
}

/// The event of a request that was queued with the tag of its weight.
pub(crate) fn event_of_queued_by_weight<T: Tag>(queued: &QueuedByWeight<T>) -> Event<T>
    ensures { result ≡ event_of_queued_by_weight T.ops queued.now }
{
    Event {
        worker: queued.worker,
        command: Command::Add {
            client: queued.client,
            token: queued.token,
            params: queued.params,
            at: queued.at,
        },
        reply: Reply::Tagged(Tags {
            r: None,
            l: T::of_moment(queued.at),
            p: queued.p,
        }),
    }
}

/// The event of another request that was queued.
pub(crate) fn event_of_queued<T: Copy>(queued: &Queued<T>) -> Event<T>
    ensures { result ≡ event_of_queued queued.now }
{
    let r = if queued.marked.mark() == RESERVED {
        Some(queued.r)
    } else {
        None
    };
    Event {
        worker: queued.worker,
        command: Command::Add {
            client: queued.client,
            token: queued.token,
            params: queued.params,
            at: queued.marked.at(),
        },
        reply: Reply::Tagged(Tags {
            r,
            l: queued.l,
            p: queued.p,
        }),
    }
}

/// The event of a request that was granted.
pub(crate) fn event_of_granted<T: Copy>(granted: &Granted) -> Event<T>
    ensures { result ≡ event_of_granted granted.now }
{
    let mark = granted.marked.mark();
    Event {
        worker: granted.worker,
        command: Command::Pull {
            at: granted.marked.at(),
        },
        reply: Reply::Granted {
            client: granted.client,
            token: granted.token,
            phase: phase_of(mark),
            beyond: mark == BEYOND_LIMIT,
            cost: granted.cost,
        },
    }
}
