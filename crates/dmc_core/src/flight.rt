//! The messages in flight from a client to a server.
ghost use Rattle.std.specs.Prelude.{◌≡◌, ◌<◌, ◌∷◌, ◌++◌, [], None, true, drop, length, is_some, OnOk};
ghost use Rattle.std.specs.List.{cons_option};
ghost use Rattle.std.specs.VecDeque.{deque_len, deque_capacity};

use crate::event::Message;
use std::alloc::{AllocError, Global};
use std::collections::VecDeque;

/// Messages that were stamped and have not yet arrived. One mostly arrives before the next is sent: so the oldest is kept in the
/// struct itself, and one message alone needs no allocation.
#[derive(Drop)]
pub struct Flight {
    /// The oldest message.
    pub oldest: Option<Message>,
    /// Those behind it, in their order.
    pub later: VecDeque<Message>,
    ghost in_turn: { oldest ≡ None → later.items ≡ [] },
}

impl Flight {
    /// No message.
    pub fn new(alloc: Global) -> Flight
        ensures { cons_option result.oldest result.later.items ≡ [] }
    {
        Flight {
            oldest: None,
            later: VecDeque::new(alloc),
        }
    }

    /// How many messages are in flight.
    pub fn len(&self) -> usize
        ensures { result ≡ length (cons_option self.now.oldest self.now.later.items) }
    {
        match self.oldest {
            None => 0,
            Some(_) => self.later.len() + 1,
        }
    }

    /// Makes room for one more message.
    pub fn reserve(&mut self) -> Result<(), AllocError>
        ensures same { cons_option self.new.oldest self.new.later.items ≡ cons_option self.old.oldest self.old.later.items }
        ensures room { OnOk result (is_some self.new.oldest ≡ true → deque_len self.new.later < deque_capacity self.new.later) }
    {
        if self.oldest.is_none() {
            return Ok(());
        }
        self.later.reserve(1)
    }

    /// Puts a message behind the others, in the room that was made.
    pub fn send(&mut self, message: Message)
        requires { is_some self.old.oldest ≡ true → deque_len self.old.later < deque_capacity self.old.later }
        ensures { cons_option self.new.oldest self.new.later.items ≡ cons_option self.old.oldest self.old.later.items ++ message ∷ [] }
    {
        if self.oldest.is_none() {
            self.oldest = Some(message);
            return;
        }
        self.later.push_back_reserved(message);
    }

    /// Takes out the oldest message.
    pub fn take_oldest(&mut self)
        ensures { cons_option self.new.oldest self.new.later.items ≡ drop 1 (cons_option self.old.oldest self.old.later.items) }
    {
        self.oldest = self.later.pop_front();
    }
}
