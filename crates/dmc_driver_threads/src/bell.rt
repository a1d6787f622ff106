//! Doorbells: how a client's worker learns that a request was completed, or that it is to end.
ghost use Rattle.std.specs.Prelude.{◌<◌};
ghost use Rattle.crossbeam_channel.specs.Claims.{IsSeatAt};
ghost use Rattle.crossbeam_channel.specs.Ends.{sends_on, receives_on};

use crossbeam_channel::protocol::{Free, Split};
use crossbeam_channel::{Pass, RuledReceiver, RuledSender, bounded_with};
use std::alloc::{AllocError, Global};
use std::sync::Wait;

/// What a client's worker learns from a doorbell.
#[derive(Clone, Copy, Debug, PartialEq, Eq)]
pub(crate) enum Ring {
    /// One of its requests was completed.
    Completed,
    /// It is to end.
    Stop,
}

/// Cuts a pass that knows nothing in two.
struct Alike;

impl Split<()> for Alike {
    ghost left = { λ v. v };

    ghost right = { λ v. v };
}

/// Rings at a client's door.
#[derive(Drop)]
pub(crate) struct Ringer {
    sender: RuledSender<Ring, (), Free>,
    pass: Pass<Ring, ()>,
    ghost seated: { IsSeatAt (sends_on sender) pass },
}

/// Hears the rings at a client's door.
#[derive(Drop)]
pub(crate) struct Doorbell {
    receiver: RuledReceiver<Ring, (), Free>,
    pass: Pass<Ring, ()>,
    ghost seated: { IsSeatAt (receives_on receiver) pass },
}

/// A doorbell with room for this number of rings that were not heard yet.
pub(crate) fn hang_bell(alloc: Global, room: usize) -> Result<(Ringer, Doorbell), AllocError>
    requires { 0 < room }
{
    let (sender, receiver, mut pass) = bounded_with(alloc, room)?;
    let heard = sender.another::<Alike>(&mut pass);
    let ringer = Ringer { sender, pass };
    let bell = Doorbell {
        receiver,
        pass: heard,
    };
    Ok((ringer, bell))
}

impl Ringer {
    /// Rings, unless there is no room, or nobody hears it any more.
    pub(crate) fn ring<R: Wait>(&mut self, rt: &R, ring: Ring) {
        let _ = self.sender.try_send_as::<Free, R>(rt, &mut self.pass, ring);
    }

    /// Another sender on the same channel.
    pub(crate) fn another(&mut self) -> Result<Ringer, AllocError> {
        let sender = self.sender.try_clone()?;
        let pass = self.sender.another::<Alike>(&mut self.pass);
        Ok(Ringer { sender, pass })
    }
}

impl Doorbell {
    /// Waits for a ring. If nobody can ring any more, it returns Stop.
    pub(crate) fn hear<R: Wait>(&mut self, rt: &R) -> Ring {
        match self.receiver.recv_as::<Free, R>(rt, &mut self.pass) {
            Ok(ring) => ring,
            Err(_) => Ring::Stop,
        }
    }
}
