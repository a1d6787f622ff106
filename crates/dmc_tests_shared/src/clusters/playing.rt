//! The events of two clients and two servers.
use super::setup::Cluster;
use dmc_book::pass::WorkerPass;
use dmc_ledger::bundle::StampTills;
use dmc_ledger::setup::Setup;
use dmc_tag::reply::Reply;
use dmc_tests_setup::calls::{pull, respond, stamp, stamp_and_submit};
use dmc_tests_setup::opening::Book;
use dmc_tlock::book::TrackerBook;
use dmc_tlock::pass::ClientPass;
use dmc_types::ids::{ServerId, Token};
use std::test::Fail;

/// Stamps and submits a request.
fn submit<S: Setup>(
    book: &mut Book<S>,
    pass: &mut WorkerPass<S>,
    tracker: &mut TrackerBook<S>,
    tills: &mut StampTills<S>,
    server: ServerId,
) -> Result<(), Fail> {
    match stamp_and_submit(book, pass, tracker, tills, server, Token(5))? {
        (_, Ok(_)) => Ok(()),
        (_, Err((_, cause))) => Err(cause.into()),
    }
}

/// Pulls a request.
fn pull_request<S: Setup>(book: &mut Book<S>, pass: &mut WorkerPass<S>) -> Result<(), Fail> {
    match pull(book, pass)? {
        Reply::Granted { .. } => Ok(()),
        _ => Err(Fail::new("a grant")),
    }
}

/// A client's request is submitted at a book, and pulled.
fn submit_and_pull<S: Setup>(
    book: &mut Book<S>,
    passes: &mut [WorkerPass<S>],
    tracker: &mut TrackerBook<S>,
    own: &mut ClientPass<S>,
    server: ServerId,
) -> Result<(), Fail> {
    let (Some(pass), Some(tills)) = (passes.first_mut(), own.tills(server)) else {
        return Err(Fail::new("the passes"));
    };
    submit(book, pass, tracker, tills, server)?;
    pull_request(book, pass)
}

/// The client at an index stamps and submits a request at a book, and is granted it.
fn ask_book<S: Setup>(
    book: &mut Book<S>,
    passes: &mut [WorkerPass<S>],
    (trackers, clients): (&mut [TrackerBook<S>], &mut [ClientPass<S>]),
    place: usize,
    server: ServerId,
) -> Result<(), Fail> {
    match (trackers.get_mut(place), clients.get_mut(place)) {
        (Some(tracker), Some(own)) => submit_and_pull(book, passes, tracker, own, server),
        _ => Err(Fail::new("the client")),
    }
}

/// The client at an index stamps and submits a request at a server, and is granted it.
fn ask<S: Setup>(cluster: &mut Cluster<S>, place: usize, server: ServerId) -> Result<(), Fail> {
    let index = server.0 as usize;
    let clients = (
        cluster.trackers.as_mut_slice(),
        cluster.passes.clients.as_mut_slice(),
    );
    match (
        cluster.books.get_mut(index),
        cluster.passes.workers.get_mut(index),
    ) {
        (Some(book), Some(passes)) => ask_book(book, passes, clients, place, server),
        _ => Err(Fail::new("the server")),
    }
}

/// The grant of client 1 at server 0 is responded.
fn respond_first<S: Setup>(cluster: &mut Cluster<S>) -> Result<(), Fail> {
    let (Some(passes), Some(tracker)) = (
        cluster.passes.workers.first_mut(),
        cluster.trackers.first_mut(),
    ) else {
        return Err(Fail::new("the parts"));
    };
    let Some(pass) = passes.first_mut() else {
        return Err(Fail::new("the pass"));
    };
    respond(pass, tracker)
}

/// Client 1 stamps once more, for server 1, and submits nothing.
fn stamp_once_more<S: Setup>(cluster: &mut Cluster<S>) -> Result<(), Fail> {
    let (Some(tracker), Some(own)) = (
        cluster.trackers.first_mut(),
        cluster.passes.clients.first_mut(),
    ) else {
        return Err(Fail::new("the parts"));
    };
    let Some(tills) = own.tills(ServerId(1)) else {
        return Err(Fail::new("the tills"));
    };
    stamp(tracker, ServerId(1), tills)?;
    Ok(())
}

/// Client 1 is granted a request at server 0, which is responded, and has stamped one more for server 1. Client 2 is granted
/// a request at server 1, which is not responded.
pub(super) fn play<S: Setup>(cluster: &mut Cluster<S>) -> Result<(), Fail> {
    ask(cluster, 0, ServerId(0))?;
    respond_first(cluster)?;
    stamp_once_more(cluster)?;
    ask(cluster, 1, ServerId(1))
}
