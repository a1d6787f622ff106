//! A book: the total of one quantity.
ghost use Rattle.std.specs.Prelude.{◌≡◌, ◌≢◌, ◌+◌, ◌-◌, ◌<◌, ◌≤◌, ◌^◌, ◌↔◌, IfOk, OnOk, OnErr, IsErr};
ghost use Rattle.dmc_types.specs.Limits.{max_open_tills};
ghost use Rattle.dmc_ledger.specs.Accounts.{total_of, new_book, new_till};
ghost use Rattle.dmc_ledger.specs.Moves.{after_issue, after_opening, with_more};

use crate::full::Full;
use crate::setup::Setup;
use crate::till::Till;
use crate::token::BookToken;
use std::marker::Model;
use std::mem::replace;

/// The greatest total of a book.
const MOST: u64 = 1 << 63;

/// The total of one quantity: what was gathered, and what the open tills hold. Contracts see an `Account`.
#[derive(Drop)]
pub struct Book<S: Setup> {
    total: u64,
    gathered: u64,
    number: u32,
    open_tills: u32,
    token: BookToken<S>,
}

impl<S: Setup> Model for Book<S> {
    ghost use Rattle.std.specs.Prelude.{◌≡◌};
    ghost use Rattle.dmc_ledger.specs.Accounts.{Account, IsCounted};

    ghost Value = { Account };

    ghost view = { λ b. record { number = b.number; gathered = b.gathered; held = b.token.held; open_tills = b.open_tills } };

    ghost invariant = { λ b. (b.token.number ≡ b.number) × IsCounted b.total b.gathered b.open_tills b.token.tills b.token.held };
}

impl<S: Setup> Book<S> {
    /// The book of a new token.
    pub(crate) fn new(number: u32, token: BookToken<S>) -> Book<S>
        requires number { token.number ≡ number }
        requires no_till { token.tills ≡ 0 }
        requires nothing { token.held ≡ 0 }
        ensures { result ≡ record { number = number; gathered = 0; held = 0; open_tills = 0 } }
    {
        Book {
            total: 0,
            gathered: 0,
            number,
            open_tills: 0,
            token,
        }
    }

    /// The book's number, which no other book of the set-up has.
    pub fn number(&self) -> u32
        ensures { result ≡ self.now.number }
    {
        self.number
    }

    /// All that was ever issued into tills of this book.
    pub fn total(&self) -> u64
        ensures value { result ≡ total_of self.now }
        ensures limit { result ≤ 2 ^ 63 }
    {
        self.total
    }

    /// What was gathered.
    pub fn gathered(&self) -> u64
        ensures value { result ≡ self.now.gathered }
        ensures within { result ≤ total_of self.now }
    {
        self.gathered
    }

    /// The number of open tills. A till that was dropped stays open.
    pub fn open_tills(&self) -> u32
        ensures value { result ≡ self.now.open_tills }
        ensures none { result ≡ 0 → total_of self.now ≡ self.now.gathered }
    {
        self.open_tills
    }

    /// Opens a till, which holds nothing. It is refused `Full` at 2^32-1 open tills.
    pub fn till(&mut self) -> Result<Till<S>, Full>
        ensures full { IsErr result ↔ (self.old.open_tills ≡ max_open_tills) }
        ensures till { IfOk result (λ till. till ≡ new_till self.old.number) }
        ensures book { OnOk result (self.new ≡ after_opening self.old) }
        ensures kept { OnErr result (self.new ≡ self.old) }
    {
        if self.open_tills == u32::MAX {
            return Err(Full);
        }
        let till = Till::new(self.number, self.token.till());
        self.open_tills += 1;
        Ok(till)
    }

    /// Adds an amount to a till of this book, and so to the total. It is refused `Full` if the total would be above 2^63.
    pub fn issue(&mut self, till: &mut Till<S>, amount: u64) -> Result<(), Full>
        requires { till.old.number ≡ self.old.number }
        ensures full { IsErr result ↔ (2 ^ 63 < total_of self.old + amount) }
        ensures book { OnOk result (self.new ≡ after_issue amount self.old) }
        ensures till { OnOk result (till.new ≡ with_more amount till.old) }
        ensures kept { OnErr result (self.new ≡ self.old) }
        ensures till_kept { OnErr result (till.new ≡ till.old) }
    {
        if amount > MOST - self.total {
            return Err(Full);
        }
        till.issue(&mut self.token, amount);
        self.total += amount;
        Ok(())
    }

    /// Ends a till of this book, and gathers what it held.
    pub fn gather(&mut self, till: Till<S>)
        requires { till.number ≡ self.old.number }
        ensures number { self.new.number ≡ self.old.number }
        ensures gathered { self.new.gathered ≡ self.old.gathered + till.amount }
        ensures total { total_of self.new ≡ total_of self.old }
        ensures open_tills { self.new.open_tills + 1 ≡ self.old.open_tills }
        ensures none { self.new.open_tills ≡ 0 → self.new.held ≡ 0 }
    {
        self.gathered += till.gather(&mut self.token);
        self.open_tills -= 1;
    }

    /// Begins anew with the one open till: the book then has no total, the till holds nothing, and what the book had
    /// totalled is returned.
    pub fn restart(&mut self, till: &mut Till<S>) -> u64
        requires its { till.old.number ≡ self.old.number }
        requires only { self.old.open_tills ≡ 1 }
        ensures total { result ≡ total_of self.old }
        ensures held { self.old.gathered + till.old.amount ≡ result }
        ensures book { self.new ≡ new_book self.old.number }
        ensures till { till.new ≡ new_till self.old.number }
    {
        // The only till holds all that is held.
        self.audit(till);
        let Ok(new) = self.till() else { unreachable!() };
        self.gather(replace(till, new));
        self.gathered = 0;
        replace(&mut self.total, 0)
    }

    /// Changes nothing, and shows that two books of one set-up have different numbers. The exclusive reference makes them two
    /// books: two shared references may be to one.
    pub fn differ_from(&mut self, other: &Book<S>)
        ensures apart { self.old.number ≢ other.now.number }
        ensures kept { self.new ≡ self.old }
    {
        self.token.differ_from(&other.token);
    }

    /// Changes nothing, and shows how a till of this book is related to it: the till holds at most the total less what was
    /// gathered, and exactly that if no other till is open.
    pub fn audit(&self, till: &Till<S>)
        requires { till.now.number ≡ self.now.number }
        ensures some { 0 < self.now.open_tills }
        ensures within { self.now.gathered + till.now.amount ≤ total_of self.now }
        ensures alone { self.now.open_tills ≡ 1 → self.now.gathered + till.now.amount ≡ total_of self.now }
    {
        till.audit(&self.token);
    }
}
