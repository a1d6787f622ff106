//! A set-up, and its one mint, which opens the books.
ghost use Rattle.std.specs.Prelude.{◌≡◌, ◌+◌, ◌-◌, ◌<◌, ◌≤◌, ◌↔◌, IfOk, OnOk, OnErr, IsErr, []};
ghost use Rattle.dmc_types.specs.Limits.{max_books};

use crate::book::Book;
use crate::full::Full;
use crate::growing::{BlankList, GrowingList};
use crate::setup::Setup;
use crate::token::{BlankToken, MintToken};
use std::marker::Model;

/// A set-up that has no type yet.
#[derive(Drop)]
pub struct Blank {
    books: u64,
    token: BlankToken,
}

impl Model for Blank {
    ghost use Rattle.std.specs.Prelude.{◌≤◌};
    ghost use Rattle.dmc_types.specs.Limits.{max_books};
    ghost use Rattle.dmc_ledger.specs.Accounts.{Unopened};

    ghost Value = { Unopened };

    ghost view = { λ b. record { name = b.token.name; books = b.books } };

    ghost invariant = { λ b. b.books ≤ max_books };
}

impl Blank {
    /// A new set-up of this many books, from 1 to 2^32. To use it, call a function that is generic in a `Setup` at
    /// `std::marker::Brand`, and `open` the set-up there.
    pub fn new(books: u64) -> Blank
        requires some { 0 < books }
        requires limit { books ≤ max_books }
        ensures { result.books ≡ books }
    {
        Blank {
            books,
            token: BlankToken::new(),
        }
    }

    /// The mint of the set-up, which has opened no book.
    pub fn open<S: Setup>(self) -> Mint<S>
        requires { self.name ≡ S.name }
        ensures { result ≡ record { opened = 0; left = self.books } }
    {
        let Blank { books, token } = self;
        Mint {
            opened: 0,
            left: books,
            token: token.open(),
        }
    }
}

/// Opens the books of a set-up, each once.
#[derive(Drop)]
pub struct Mint<S: Setup> {
    opened: u64,
    left: u64,
    token: MintToken<S>,
}

impl<S: Setup> Model for Mint<S> {
    ghost use Rattle.std.specs.Prelude.{◌≡◌, ◌+◌, ◌≤◌};
    ghost use Rattle.dmc_types.specs.Limits.{max_books};
    ghost use Rattle.dmc_ledger.specs.Accounts.{Stock};

    ghost Value = { Stock };

    ghost view = { λ m. record { opened = m.opened; left = m.left } };

    ghost invariant = { λ m. (m.token.opened ≡ m.opened) × (m.token.listed ≡ m.opened) × (m.opened + m.left ≤ max_books) };
}

impl<S: Setup> Mint<S> {
    /// The next book. Books are numbered from 0 in the order in which they are opened, so no two have one number. It is refused
    /// `Full` when all books of the set-up are open.
    pub fn open(&mut self) -> Result<Book<S>, Full>
        ensures full { IsErr result ↔ (self.old.left ≡ 0) }
        ensures book { IfOk result (λ book. book ≡ record { number = self.old.opened; gathered = 0; held = 0; open_tills = 0 }) }
        ensures mint { OnOk result (self.new ≡ record { opened = self.old.opened + 1; left = self.old.left - 1 }) }
        ensures kept { OnErr result (self.new ≡ self.old) }
    {
        let (book, _) = self.open_with_list()?;
        Ok(book)
    }

    /// The next book, and an empty list that only grows, of the same number. `Full` as for a book.
    pub fn open_with_list(&mut self) -> Result<(Book<S>, BlankList<S>), Full>
        ensures full { IsErr result ↔ (self.old.left ≡ 0) }
        ensures book { IfOk result (λ opened.
            opened.0 ≡ record { number = self.old.opened; gathered = 0; held = 0; open_tills = 0 }) }
        ensures list { IfOk result (λ opened. opened.1.number ≡ self.old.opened) }
        ensures mint { OnOk result (self.new ≡ record { opened = self.old.opened + 1; left = self.old.left - 1 }) }
        ensures kept { OnErr result (self.new ≡ self.old) }
    {
        if self.left == 0 {
            return Err(Full);
        }
        let list = BlankList::new(&mut self.token);
        let book = Book::new(self.opened as u32, self.token.open());
        self.opened += 1;
        self.left -= 1;
        Ok((book, list))
    }

    /// An empty list that only grows, of the next number, with that number. `Full` as for a book.
    pub fn open_list<E>(&mut self) -> Result<(u32, GrowingList<E, S>), Full>
        ensures full { IsErr result ↔ (self.old.left ≡ 0) }
        ensures list { IfOk result (λ opened.
            (opened.0 ≡ self.old.opened) × (opened.1.number ≡ self.old.opened) × (opened.1.list ≡ [])) }
        ensures mint { OnOk result (self.new ≡ record { opened = self.old.opened + 1; left = self.old.left - 1 }) }
        ensures kept { OnErr result (self.new ≡ self.old) }
    {
        let (book, list) = self.open_with_list()?;
        Ok((book.number(), list.open()))
    }

    /// The number of books that may still be opened.
    pub fn left(&self) -> u64
        ensures value { result ≡ self.now.left }
        ensures limit { self.now.opened + result ≤ max_books }
    {
        self.left
    }
}
