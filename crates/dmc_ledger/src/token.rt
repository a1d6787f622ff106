//! The tokens, which have no bytes. What they own is a ghost resource (`specs/Rows.antt`). So each function here that makes or
//! changes one is proved by hand, and does nothing at run time.
ghost use Rattle.std.specs.Prelude.{◌≡◌, ◌≢◌, ℕ, ◌+◌, ◌-◌, ◌<◌, ◌≤◌, ◌^◌};
ghost use Rattle.dmc_ledger.specs.Rows.{mint_owns, book_owns, book_shares, till_owns, till_shares};

use crate::setup::Setup;
use std::marker::{Model, PhantomData};

/// A set-up that has no type yet.
#[derive(Drop)]
pub(crate) struct BlankToken {
    marker: PhantomData<()>,
    pub(crate) ghost name: { ℕ },
}

impl Model for BlankToken {
    ghost also_owns = { λ b. mint_owns b.name 0 0 };
}

/// The right to open the books with the numbers from `opened` on, and the lists with those from `listed` on.
#[derive(Drop)]
pub(crate) struct MintToken<S: Setup> {
    marker: PhantomData<S>,
    pub(crate) ghost opened: { ℕ },
    pub(crate) ghost listed: { ℕ },
}

impl<S: Setup> Model for MintToken<S> {
    ghost also_owns = { λ m. mint_owns S.name m.opened m.listed };
}

/// The book of this number: `tills` tills are open, and hold `held` together. `rows` names its ledger.
#[derive(Drop)]
pub(crate) struct BookToken<S: Setup> {
    marker: PhantomData<S>,
    pub(crate) ghost number: { ℕ },
    ghost rows: { ℕ },
    pub(crate) ghost tills: { ℕ },
    pub(crate) ghost held: { ℕ },
}

impl<S: Setup> Model for BookToken<S> {
    ghost also_owns = { λ b. book_owns S.name b.number b.rows b.tills b.held };

    ghost also_shares = { λ b _ κ. book_shares S.name b.number b.rows b.tills b.held κ };
}

/// An open till of the book of this number, with what it holds. `row` is its index in the ledger that `rows` names.
#[derive(Drop)]
pub(crate) struct TillToken<S: Setup> {
    marker: PhantomData<S>,
    pub(crate) ghost number: { ℕ },
    ghost rows: { ℕ },
    ghost row: { ℕ },
    pub(crate) ghost amount: { ℕ },
}

impl<S: Setup> Model for TillToken<S> {
    ghost also_owns = { λ t. till_owns S.name t.number t.rows t.row t.amount };

    ghost also_shares = { λ t _ κ. till_shares S.name t.number t.rows t.row t.amount κ };
}

impl BlankToken {
    /// A new set-up.
    pub(crate) fn new() -> BlankToken {
        BlankToken {
            marker: PhantomData,
        }
    }

    /// The set-up's mint, once a type names the set-up.
    pub(crate) fn open<S: Setup>(self) -> MintToken<S>
        requires { self.name ≡ S.name }
        ensures opened { result.opened ≡ 0 }
        ensures listed { result.listed ≡ 0 }
    {
        let BlankToken { marker: _ } = self;
        MintToken {
            marker: PhantomData,
        }
    }
}

impl<S: Setup> MintToken<S> {
    /// The next book, with no till.
    pub(crate) fn open(&mut self) -> BookToken<S>
        ensures number { result.number ≡ self.old.opened }
        ensures next { self.new.opened ≡ self.old.opened + 1 }
        ensures listed { self.new.listed ≡ self.old.listed }
        ensures tills { result.tills ≡ 0 }
        ensures held { result.held ≡ 0 }
    {
        BookToken {
            marker: PhantomData,
        }
    }
}

impl<S: Setup> BookToken<S> {
    /// A new till, which holds nothing.
    pub(crate) fn till(&mut self) -> TillToken<S>
        ensures number { result.number ≡ self.old.number }
        ensures amount { result.amount ≡ 0 }
        ensures same_number { self.new.number ≡ self.old.number }
        ensures tills { self.new.tills ≡ self.old.tills + 1 }
        ensures held { self.new.held ≡ self.old.held }
    {
        TillToken {
            marker: PhantomData,
        }
    }

    /// Adds to the till, and so to what the tills hold together.
    pub(crate) fn issue(&mut self, till: &mut TillToken<S>, amount: u64)
        requires of_this_book { till.old.number ≡ self.old.number }
        requires fits { self.old.held + amount ≤ 2 ^ 63 }
        ensures number { self.new.number ≡ self.old.number }
        ensures tills { self.new.tills ≡ self.old.tills }
        ensures held { self.new.held ≡ self.old.held + amount }
        ensures till_number { till.new.number ≡ till.old.number }
        ensures till_amount { till.new.amount ≡ till.old.amount + amount }
        ensures some { 0 < self.old.tills }
        ensures within { till.old.amount ≤ self.old.held }
    {}

    /// Ends a till. What it held is no longer held.
    pub(crate) fn gather(&mut self, till: TillToken<S>)
        requires { till.number ≡ self.old.number }
        ensures number { self.new.number ≡ self.old.number }
        ensures tills { self.new.tills + 1 ≡ self.old.tills }
        ensures held { self.new.held + till.amount ≡ self.old.held }
        ensures none { self.new.tills ≡ 0 → self.new.held ≡ 0 }
    {
        let TillToken { marker: _ } = till;
    }

    /// Changes nothing, and shows that the other token is of another book.
    pub(crate) fn differ_from(&mut self, other: &BookToken<S>)
        ensures apart { self.old.number ≢ other.now.number }
        ensures number { self.new.number ≡ self.old.number }
        ensures tills { self.new.tills ≡ self.old.tills }
        ensures held { self.new.held ≡ self.old.held }
    {}

    /// Changes nothing, and shows how the till is related to its book.
    pub(crate) fn audit(&self, till: &TillToken<S>)
        requires { till.now.number ≡ self.now.number }
        ensures some { 0 < self.now.tills }
        ensures within { till.now.amount ≤ self.now.held }
        ensures alone { self.now.tills ≡ 1 → till.now.amount ≡ self.now.held }
    {}
}

impl<S: Setup> TillToken<S> {
    /// Moves an amount to another till of the same book.
    pub(crate) fn shift(&mut self, to: &mut TillToken<S>, amount: u64)
        requires same_book { to.old.number ≡ self.old.number }
        requires has { amount ≤ self.old.amount }
        ensures number { self.new.number ≡ self.old.number }
        ensures amount_left { self.new.amount + amount ≡ self.old.amount }
        ensures to_number { to.new.number ≡ to.old.number }
        ensures to_amount { to.new.amount ≡ to.old.amount + amount }
        ensures bound { self.old.amount + to.old.amount ≤ 2 ^ 63 }
    {}
}

unsafe impl Send for BlankToken {}

unsafe impl<S: Setup> Send for MintToken<S> {}

unsafe impl<S: Setup> Send for BookToken<S> {}

unsafe impl<S: Setup> Sync for BookToken<S> {}

unsafe impl<S: Setup> Send for TillToken<S> {}

unsafe impl<S: Setup> Sync for TillToken<S> {}
