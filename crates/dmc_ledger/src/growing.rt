//! Lists that only grow, of which many threads keep beginnings. They have no bytes: contracts alone see their items. What they
//! own is a ghost resource (`specs/Growing.antt`), so each function here is proved by hand, and does nothing at run time.
ghost use Rattle.std.specs.Prelude.{◌≡◌, ◌⊎◌, ◌+◌, ℕ, List, [], ◌∷◌, ◌++◌};
ghost use mathlib.Core.List.{IsPrefix};
ghost use base.Stored.{coded_list};
ghost use denote.Sharing.{said};
ghost use Rattle.dmc_ledger.specs.Growing.{blank_owns, list_owns, beginning_owns};

use crate::setup::Setup;
use crate::token::MintToken;
use std::marker::{Model, PhantomData};

/// A list that only grows, which has no item and no type yet. It has a number of the set-up, which no other list has.
#[derive(Drop)]
pub struct BlankList<S: Setup> {
    marker: PhantomData<S>,
    pub ghost number: { ℕ },
    ghost rows: { ℕ },
}

impl<S: Setup> Model for BlankList<S> {
    ghost also_owns = { λ l. blank_owns S.name l.number l.rows };
}

/// A list that only grows, of a number of the set-up. Its owner alone adds to it.
#[derive(Drop)]
pub struct GrowingList<E, S: Setup> {
    marker: PhantomData<(E, S)>,
    pub ghost number: { ℕ },
    ghost rows: { ℕ },
    pub ghost list: { List E } by { coded_list E.code },
}

impl<E, S: Setup> Model for GrowingList<E, S> {
    ghost also_owns = { λ l. list_owns E.row.coded.code S.name l.number l.rows l.list };
}

/// What was the whole of the list of a number once, and is a beginning of it for good.
#[derive(Drop)]
pub struct Beginning<E, S: Setup> {
    marker: PhantomData<(E, S)>,
    pub ghost number: { ℕ },
    ghost rows: { ℕ },
    pub ghost list: { List E } by { coded_list E.code },
}

impl<E, S: Setup> Model for Beginning<E, S> {
    ghost also_owns = { λ b. beginning_owns E.row.coded.code S.name b.number b.rows b.list };

    ghost also_shares = { λ b _ κ. said (beginning_owns E.row.coded.code S.name b.number b.rows b.list) κ };
}

impl<S: Setup> BlankList<S> {
    /// The list of the mint's next number.
    pub(crate) fn new(mint: &mut MintToken<S>) -> BlankList<S>
        ensures number { result.number ≡ mint.old.listed }
        ensures next { mint.new.listed ≡ mint.old.listed + 1 }
        ensures opened { mint.new.opened ≡ mint.old.opened }
    {
        BlankList {
            marker: PhantomData,
        }
    }

    /// The list, of items of a type. It is empty.
    pub fn open<E>(self) -> GrowingList<E, S>
        ensures number { result.number ≡ self.number }
        ensures empty { result.list ≡ [] }
    {
        let BlankList { marker: _ } = self;
        GrowingList {
            marker: PhantomData,
        }
    }
}

impl<E, S: Setup> GrowingList<E, S> {
    /// Adds a value at the end, and returns what the list then is.
    pub fn push(&mut self, next: &E) -> Beginning<E, S>
        ensures number { self.new.number ≡ self.old.number }
        ensures list { self.new.list ≡ self.old.list ++ next.now ∷ [] }
        ensures its_number { result.number ≡ self.old.number }
        ensures all { result.list ≡ self.new.list }
    {
        Beginning {
            marker: PhantomData,
        }
    }
}

impl<E, S: Setup> Beginning<E, S> {
    /// Changes nothing, and shows that of two beginnings of the list of one number, one begins the other.
    pub fn compare(&self, other: &Beginning<E, S>)
        requires { other.now.number ≡ self.now.number }
        ensures { IsPrefix self.now.list other.now.list ⊎ IsPrefix other.now.list self.now.list }
    {}
}

unsafe impl<S: Setup> Send for BlankList<S> {}

unsafe impl<E, S: Setup> Send for GrowingList<E, S> {}

unsafe impl<E, S: Setup> Send for Beginning<E, S> {}

unsafe impl<E, S: Setup> Sync for Beginning<E, S> {}
