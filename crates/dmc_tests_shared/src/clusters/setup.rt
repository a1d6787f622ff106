//! Servers 0 and 1 with one worker each, and clients 1 and 2, of which client 1 has a reservation.
ghost use Rattle.std.specs.Prelude.{map, IfOk};
ghost use Rattle.std.specs.List.{AllByRecursion};
ghost use Rattle.dmc_ledger.specs.Bundles.{client_side, server_side};
ghost use Rattle.dmc_tlock.specs.Opening.{AreNew};
ghost use Rattle.dmc_book.specs.Opening.{IsNewDesk};

use dmc_book::fault::RunFault;
use dmc_book::pass::WorkerPass;
use dmc_ledger::desk::{ClientDesk, ServerDesk, open_pair};
use dmc_ledger::mint::Mint;
use dmc_ledger::setup::Setup;
use dmc_scene::client::SceneClient;
use dmc_scene::scene::{Scene, read_scene};
use dmc_settle::settle::Passes;
use dmc_tests_setup::calls::run;
use dmc_tests_setup::opening::{Book, SEVEN, both, drop_book, open_book, open_tracker, push};
use dmc_tlock::book::TrackerBook;
use dmc_types::command::Command;
use dmc_types::ids::{ClientId, ServerId};
use dmc_types::moment::Moment;
use std::alloc::{AllocError, Global};
use std::test::Fail;

/// The number of books and lists of a cluster: seven of each client at each server, six of each worker, and one of each server.
pub(super) const BOOKS: u64 = 42;

const SCENE: &str = "hz = 1000\ntags = \"tick\"\nservers = 2\nworkers = 1\nstep = 1\nseed = 1\n\
                     max_pulls = 1\n[[client]]\nid = 1\nreservation = 10\nweight = 1\nrequests = 1\n\
                     window = 1\n[[client]]\nid = 2\nweight = 1\nrequests = 1\nwindow = 1\n";

pub(super) fn scene(alloc: Global) -> Result<Scene, Fail> {
    Ok(read_scene(alloc, SCENE.as_bytes())?)
}

/// The parts of a cluster.
#[derive(Drop)]
pub(super) struct Cluster<S: Setup> {
    pub(super) books: Vec<Book<S>>,
    pub(super) trackers: Vec<TrackerBook<S>>,
    pub(super) passes: Passes<S>,
}

/// The desks of a client at both servers.
fn open_desks<S: Setup>(
    alloc: Global,
    mint: &mut Mint<S>,
    client: ClientId,
) -> Result<(ClientDesk<S>, ClientDesk<S>, Vec<ServerDesk<S>>), Fail>
    ensures here { IfOk result (λ opened. IsNewDesk 0 (client_side opened.0)) }
    ensures there { IfOk result (λ opened. IsNewDesk 1 (client_side opened.1)) }
    ensures sides { IfOk result (λ opened. AreNew client.0 (map server_side opened.2.items)) }
{
    let (here, side) = open_pair(mint, client, ServerId(0))?;
    let (there, other) = open_pair(mint, client, ServerId(1))?;
    let Ok(sides) = vec![in alloc; side, other] else {
        return Err(AllocError.into());
    };
    Ok((here, there, sides))
}

/// Adds the tracker of a client with these desks, and its pass, to the cluster.
fn add_tracker<S: Setup>(
    alloc: Global,
    cluster: &mut Cluster<S>,
    client: ClientId,
    sides: Vec<ServerDesk<S>>,
) -> Result<(), Fail>
    requires { AreNew client.0 (map server_side sides.items) }
{
    let (tracker, pass) = open_tracker(alloc, client, sides)?;
    push(&mut cluster.trackers, tracker)?;
    push(&mut cluster.passes.clients, pass)
}

/// Adds a client's tracker to the cluster, and returns its desks at both servers.
fn add_client<S: Setup>(
    alloc: Global,
    mint: &mut Mint<S>,
    cluster: &mut Cluster<S>,
    client: ClientId,
) -> Result<(ClientDesk<S>, ClientDesk<S>), Fail>
    ensures here { IfOk result (λ desks. IsNewDesk 0 (client_side desks.0)) }
    ensures there { IfOk result (λ desks. IsNewDesk 1 (client_side desks.1)) }
{
    let (here, there, sides) = open_desks(alloc, mint, client)?;
    add_tracker(alloc, cluster, client, sides)?;
    Ok((here, there))
}

/// The desks of both clients at a server.
fn desks_at<S: Setup>(
    alloc: Global,
    server: ServerId,
    one: ClientDesk<S>,
    two: ClientDesk<S>,
) -> Result<Vec<ClientDesk<S>>, Fail>
    requires one { IsNewDesk server.0 (client_side one) }
    requires two { IsNewDesk server.0 (client_side two) }
    ensures { IfOk result (λ desks. AllByRecursion (IsNewDesk server.0) (map client_side desks.items)) }
{
    both(alloc, one, two)
}

/// Adds both clients' trackers to the cluster, and returns their desks at server 0 and at server 1.
fn add_clients<S: Setup>(
    alloc: Global,
    mint: &mut Mint<S>,
    cluster: &mut Cluster<S>,
) -> Result<(Vec<ClientDesk<S>>, Vec<ClientDesk<S>>), Fail>
    ensures here { IfOk result (λ desks. AllByRecursion (IsNewDesk 0) (map client_side desks.0.items)) }
    ensures there { IfOk result (λ desks. AllByRecursion (IsNewDesk 1) (map client_side desks.1.items)) }
{
    let (one_here, one_there) = add_client(alloc, mint, cluster, ClientId(1))?;
    let (two_here, two_there) = add_client(alloc, mint, cluster, ClientId(2))?;
    let here = desks_at(alloc, ServerId(0), one_here, two_here)?;
    let there = desks_at(alloc, ServerId(1), one_there, two_there)?;
    Ok((here, there))
}

/// Registers a client of the scene at moment 0.
fn register<S: Setup>(
    book: &mut Book<S>,
    pass: &mut WorkerPass<S>,
    client: SceneClient,
) -> Result<(), RunFault> {
    let command = Command::Register {
        client: client.id(),
        info: client.info(),
        at: Moment::zero(),
    };
    run(book, pass, command)?;
    Ok(())
}

/// Registers the scene's clients, by the first of the passes.
fn register_all<S: Setup>(
    book: &mut Book<S>,
    passes: &mut [WorkerPass<S>],
    scene: &Scene,
) -> Result<(), Fail> {
    let Some(pass) = passes.first_mut() else {
        return Err(Fail::new("a pass for the worker"));
    };
    for client in scene.clients() {
        register(book, pass, *client)?;
    }
    Ok(())
}

/// Adds a server's book and the pass of its worker to the cluster, and registers the scene's clients.
fn add_book<S: Setup>(
    cluster: &mut Cluster<S>,
    scene: &Scene,
    book: Book<S>,
    passes: Vec<WorkerPass<S>>,
) -> Result<(), Fail> {
    let (mut book, mut passes) = (book, passes);
    if let Err(fail) = register_all(&mut book, &mut passes, scene) {
        drop_book(book);
        drop(passes);
        return Err(fail);
    }
    push(&mut cluster.books, book)?;
    push(&mut cluster.passes.workers, passes)
}

/// Adds a server with these desks to the cluster.
fn add_server<S: Setup>(
    alloc: Global,
    mint: &mut Mint<S>,
    cluster: &mut Cluster<S>,
    scene: &Scene,
    server: ServerId,
    desks: Vec<ClientDesk<S>>,
) -> Result<(), Fail>
    requires { AllByRecursion (IsNewDesk server.0) (map client_side desks.items) }
{
    let config = scene.config();
    let (book, passes) = open_book(alloc, config, server, mint, desks, &[SEVEN], 99)?;
    add_book(cluster, scene, book, passes)
}

/// Adds both clients to the cluster, and then both servers. Both clients are registered at both servers.
pub(super) fn fill<S: Setup>(
    alloc: Global,
    mint: &mut Mint<S>,
    cluster: &mut Cluster<S>,
    scene: &Scene,
) -> Result<(), Fail> {
    let (here, there) = add_clients(alloc, mint, cluster)?;
    add_server(alloc, mint, cluster, scene, ServerId(0), here)?;
    add_server(alloc, mint, cluster, scene, ServerId(1), there)
}

/// The passes of a cluster with no servers and no clients.
pub(super) fn no_passes<S: Setup>(alloc: Global) -> Passes<S> {
    Passes {
        workers: Vec::new(alloc),
        clients: Vec::new(alloc),
    }
}

/// A cluster with no servers and no clients.
pub(super) fn empty_cluster<S: Setup>(alloc: Global) -> Cluster<S> {
    Cluster {
        books: Vec::new(alloc),
        trackers: Vec::new(alloc),
        passes: no_passes(alloc),
    }
}
