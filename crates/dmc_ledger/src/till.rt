//! A till: a share of a book's total.
ghost use Rattle.std.specs.Prelude.{◌≡◌, ◌+◌, ◌-◌, ◌<◌, ◌≤◌, ◌^◌};
ghost use Rattle.dmc_ledger.specs.Moves.{with_more, with_less};

use crate::setup::Setup;
use crate::token::{BookToken, TillToken};
use std::marker::Model;

/// One owner's share of a book's total, that of the book with its number. Contracts see a `Holding`.
#[derive(Drop)]
pub struct Till<S: Setup> {
    amount: u64,
    number: u32,
    token: TillToken<S>,
}

impl<S: Setup> Model for Till<S> {
    ghost use Rattle.std.specs.Prelude.{◌≡◌};
    ghost use Rattle.dmc_ledger.specs.Accounts.{Holding};

    ghost Value = { Holding };

    ghost view = { λ t. record { number = t.number; amount = t.amount } };

    ghost invariant = { λ t. (t.token.number ≡ t.number) × (t.token.amount ≡ t.amount) };
}

impl<S: Setup> Till<S> {
    /// The till of a new token.
    pub(crate) fn new(number: u32, token: TillToken<S>) -> Till<S>
        requires number { token.number ≡ number }
        requires nothing { token.amount ≡ 0 }
        ensures { result ≡ record { number = number; amount = 0 } }
    {
        Till {
            amount: 0,
            number,
            token,
        }
    }

    /// The number of its book.
    pub fn number(&self) -> u32
        ensures { result ≡ self.now.number }
    {
        self.number
    }

    /// The amount that it holds.
    pub fn amount(&self) -> u64
        ensures { result ≡ self.now.amount }
    {
        self.amount
    }

    pub(crate) fn issue(&mut self, book: &mut BookToken<S>, amount: u64)
        requires of_this_book { self.old.number ≡ book.old.number }
        requires fits { book.old.held + amount ≤ 2 ^ 63 }
        ensures till { self.new ≡ record self.old { amount = self.old.amount + amount } }
        ensures number { book.new.number ≡ book.old.number }
        ensures tills { book.new.tills ≡ book.old.tills }
        ensures held { book.new.held ≡ book.old.held + amount }
        ensures some { 0 < book.old.tills }
    {
        book.issue(&mut self.token, amount);
        self.amount += amount;
    }

    /// The amount that it held.
    pub(crate) fn gather(self, book: &mut BookToken<S>) -> u64
        requires { self.number ≡ book.old.number }
        ensures value { result ≡ self.amount }
        ensures number { book.new.number ≡ book.old.number }
        ensures tills { book.new.tills + 1 ≡ book.old.tills }
        ensures held { book.new.held + self.amount ≡ book.old.held }
        ensures none { book.new.tills ≡ 0 → book.new.held ≡ 0 }
    {
        let Till {
            amount,
            number: _,
            token,
        } = self;
        book.gather(token);
        amount
    }

    pub(crate) fn audit(&self, book: &BookToken<S>)
        requires { self.now.number ≡ book.now.number }
        ensures some { 0 < book.now.tills }
        ensures within { self.now.amount ≤ book.now.held }
        ensures alone { book.now.tills ≡ 1 → self.now.amount ≡ book.now.held }
    {
        book.audit(&self.token);
    }
}

/// Moves an amount from one till to another of the same book.
pub fn shift_till<S: Setup>(from: &mut Till<S>, to: &mut Till<S>, amount: u64)
    requires same_book { to.old.number ≡ from.old.number }
    requires has { amount ≤ from.old.amount }
    ensures from { from.new ≡ with_less amount from.old }
    ensures to { to.new ≡ with_more amount to.old }
{
    from.token.shift(&mut to.token, amount);
    from.amount -= amount;
    to.amount += amount;
}
