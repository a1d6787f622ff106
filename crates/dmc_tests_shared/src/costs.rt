//! Requests of different costs at one book.
ghost use Rattle.std.specs.Prelude.{◌≡◌};

use crate::same::assert_same;
use crate::settling::{Left, QueueLeft, settle_opened};
use dmc_book::settled::Amounts;
use dmc_ledger::mint::Blank;
use dmc_ledger::setup::Setup;
use dmc_ledger::unit::Unit;
use dmc_tests_setup::calls::{
    must_enroll, pull, respond_with, stamp_of_cost, status, submit_stamped, take_unit,
};
use dmc_tests_setup::opening::{Opened, ZERO, drop_opened, open};
use dmc_types::cost::Cost;
use dmc_types::ids::Token;
use std::alloc::Global;
use std::marker::Brand;
use std::test::Fail;

/// Submits token 9 with this cost.
fn submit<S: Setup>(opened: &mut Opened<S>, cost: Cost) -> Result<(), Fail> {
    let Some(tills) = opened.tills.tills(ZERO) else {
        return Err(Fail::new("tills for the server"));
    };
    let stamp = stamp_of_cost(&mut opened.tracker, ZERO, cost, tills)?;
    let (book, pass) = (&mut opened.book, &mut opened.pass);
    match submit_stamped(book, pass, tills, stamp, Token(9)) {
        Ok(_) => Ok(()),
        Err((_, cause)) => Err(cause.into()),
    }
}

/// The unit of a request of this cost.
fn granted<S: Setup>(opened: &mut Opened<S>, units: u32) -> Result<Unit, Fail> {
    submit(opened, Cost::new(units)?)?;
    pull(&mut opened.book, &mut opened.pass)?;
    take_unit(&mut opened.pass)
}

/// What the worker's grants cost, and the completions of the client.
type Observed = (u64, (u64, u64));

/// Grants of costs 2, 3 and 4, of which the last and the first are responded, in this order.
fn serve<S: Setup>(opened: &mut Opened<S>) -> Result<Observed, Fail> {
    must_enroll(&mut opened.book, &mut opened.pass)?;
    let two = granted(opened, 2)?;
    granted(opened, 3)?;
    let four = granted(opened, 4)?;
    respond_with(&mut opened.pass, &mut opened.tracker, four)?;
    respond_with(&mut opened.pass, &mut opened.tracker, two)?;
    let cost = status(&opened.book, &opened.pass)?.cost;
    Ok((cost, opened.tracker.completions()))
}

/// The same, and what the books leave.
fn serve_and_settle<S: Setup>(alloc: Global, blank: Blank) -> Result<(Observed, Left), Fail>
    requires { blank.name ≡ S.name }
{
    let mut mint = blank.open::<S>();
    let mut opened = open(alloc, &mut mint, 8)?;
    match serve(&mut opened) {
        Ok(observed) => Ok((observed, settle_opened(alloc, opened)?)),
        Err(fail) => {
            drop_opened(opened);
            Err(fail)
        }
    }
}

/// What is granted is what is counted and what is outstanding: 9 is 6 and 3.
#[test]
fn costs_of_grants(rt: HostRuntime) -> Result<(), Fail> {
    let left = Left {
        queue: QueueLeft {
            requests: 0,
            numbers: (7, 0, 27, 3, 27),
            cost: 9,
            units: Amounts { grants: 1, cost: 3 },
        },
        stamps: 0,
        closed: (3, 3, 9),
    };
    let observed = serve_and_settle::<Brand>(rt.alloc(), Blank::new(14))?;
    assert_same(&rt, &observed, &((9, (6, 0)), left));
    Ok(())
}
