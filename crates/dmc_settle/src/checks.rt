//! Whether parts are those of one cluster.
ghost use Rattle.std.specs.Prelude.{◌≡◌, ◌≤◌, ◌↔◌, ℕ, Some, length, map, slice_get, IsTrue};
ghost use Rattle.dmc_ledger.specs.Bundles.{client_side, phase_accounts, phase_holdings, server_side};
ghost use Rattle.dmc_book.specs.BookState.{pass_state};
ghost use Rattle.dmc_settle.specs.internal.Checks.{AreServerParts, AreClientParts, IsPairAt, ArePairsOf, ArePairs};
ghost use Rattle.dmc_settle.specs.internal.Places.{pass_states};
ghost use Rattle.dmc_types.specs.Limits.{max_scene_clients, max_servers};
ghost use Rattle.dmc_settle.specs.Left.{ArePaired, ArePhaseTillsOf, AreTogether, IsClientPart, IsServerPart, IsTillOf, left_of, stops_of};
ghost use Rattle.dmc_settle.specs.Reports.{AreRows};
ghost use Rattle.dmc_settle.specs.declared.report.ServerReport.{ServerReport};

use crate::report::{ClientReport, ClusterReport, ServerReport};
use crate::settle::Passes;
use dmc_book::book::QueueBook;
use dmc_book::pass::WorkerPass;
use dmc_index::index::Indexes;
use dmc_ledger::book::Book;
use dmc_ledger::bundle::{PhaseBooks, PhaseTills};
use dmc_ledger::desk::{ClientDesk, ServerDesk};
use dmc_ledger::setup::Setup;
use dmc_ledger::till::Till;
use dmc_scene::client::SceneClient;
use dmc_scene::scene::Scene;
use dmc_tag::tag::Tag;
use dmc_tlock::book::TrackerBook;
use dmc_tlock::pass::ClientPass;

/// Whether the desks are those of the scene's clients, in its order.
fn are_desks_of<S: Setup>(desks: &[ClientDesk<S>], clients: &[SceneClient]) -> bool
    ensures { IsTrue result ↔ (map (λ d. d.client) (map client_side desks.now) ≡ map (λ c. c.id.0) clients.now) }
{
    if desks.len() != clients.len() {
        return false;
    }
    for i in 0..desks.len() {
        if desks[i].client != clients[i].id() {
            return false;
        }
    }
    true
}

/// Whether a server's book is set up as the scene says, and the passes are its own.
fn is_server_part<T: Tag, I: Indexes<T>, S: Setup>(
    scene: &Scene,
    server: u32,
    book: &QueueBook<T, I, S>,
    passes: &[WorkerPass<S>],
) -> bool
    ensures { IsTrue result ↔ IsServerPart scene.now server book.now (map pass_state passes.now) }
{
    book.config() == scene.config()
        && book.server().0 == server
        && are_desks_of(book.desks(), scene.clients())
        && book.first() == 0
        && book.owns(passes)
}

/// Whether each server's book is set up as the scene says, and the passes are its own.
fn are_server_parts<T: Tag, I: Indexes<T>, S: Setup>(
    scene: &Scene,
    books: &[QueueBook<T, I, S>],
    passes: &[Vec<WorkerPass<S>>],
) -> bool
    ensures { IsTrue result ↔ AreServerParts scene.now books.now (map pass_states passes.now) }
{
    let servers = scene.servers();
    if books.len() != servers as usize || passes.len() != servers as usize {
        return false;
    }
    for s in 0..servers {
        if !is_server_part(scene, s, &books[s as usize], &passes[s as usize]) {
            return false;
        }
    }
    true
}

/// Whether a client's tracker book is as the scene says, and the pass is its own.
fn is_client_part<S: Setup>(
    scene: &Scene,
    client: SceneClient,
    tracker: &TrackerBook<S>,
    pass: &ClientPass<S>,
) -> bool
    ensures { IsTrue result ↔ IsClientPart scene.now client tracker.now pass.now }
{
    tracker.counting() == scene.counting()
        && tracker.client() == client.id()
        && tracker.desks().len() == scene.servers() as usize
        && tracker.first() == 0
        && tracker.owns(pass)
}

/// Whether each client's tracker book is as the scene says, and the pass is its own.
fn are_client_parts<S: Setup>(
    scene: &Scene,
    trackers: &[TrackerBook<S>],
    passes: &[ClientPass<S>],
) -> bool
    ensures { IsTrue result ↔ AreClientParts scene.now trackers.now passes.now }
{
    let clients = scene.clients();
    if trackers.len() != clients.len() || passes.len() != clients.len() {
        return false;
    }
    for c in 0..clients.len() {
        if !is_client_part(scene, clients[c], &trackers[c], &passes[c]) {
            return false;
        }
    }
    true
}

fn is_till_of<S: Setup>(till: &Till<S>, book: &Book<S>) -> bool
    ensures { IsTrue result ↔ IsTillOf till.now book.now }
{
    till.number() == book.number()
}

/// Whether both tills of a phase are of its books.
fn are_phase_tills_of<S: Setup>(tills: &PhaseTills<S>, books: &PhaseBooks<S>) -> bool
    ensures { IsTrue result ↔ ArePhaseTillsOf (phase_holdings tills.now) (phase_accounts books.now) }
{
    is_till_of(&tills.grants, &books.grants) && is_till_of(&tills.cost, &books.cost)
}

/// Whether the two desks hold tills of each other's books.
fn are_paired<S: Setup>(desk: &ClientDesk<S>, side: &ServerDesk<S>) -> bool
    ensures { IsTrue result ↔ ArePaired (client_side desk.now) (server_side side.now) }
{
    is_till_of(&desk.held.stamps, &side.books.stamps)
        && is_till_of(&desk.held.delta, &side.books.delta)
        && is_till_of(&desk.held.rho, &side.books.rho)
        && are_phase_tills_of(&side.held.reservation, &desk.books.reservation)
        && are_phase_tills_of(&side.held.priority, &desk.books.priority)
}

/// Whether the desks of a client and a server are of one pair, if both are there.
fn is_pair_at<S: Setup>(
    client: usize,
    server: usize,
    desks: &[ClientDesk<S>],
    sides: &[ServerDesk<S>],
) -> bool
    ensures { IsTrue result ↔ IsPairAt client server (map client_side desks.now) (map server_side sides.now) }
{
    let (Some(desk), Some(side)) = (desks.get(client), sides.get(server)) else {
        return true;
    };
    are_paired(desk, side)
}

/// Whether a client's desks are of one pair at each server.
fn are_pairs_of<T: Tag, I: Indexes<T>, S: Setup>(
    client: usize,
    books: &[QueueBook<T, I, S>],
    tracker: &TrackerBook<S>,
) -> bool
    ensures { IsTrue result ↔ ArePairsOf client books.now tracker.now }
{
    for s in 0..books.len() {
        if !is_pair_at(client, s, books[s].desks(), tracker.desks()) {
            return false;
        }
    }
    true
}

/// Whether each client's desks are of one pair at each server.
fn are_pairs<T: Tag, I: Indexes<T>, S: Setup>(
    books: &[QueueBook<T, I, S>],
    trackers: &[TrackerBook<S>],
) -> bool
    ensures { IsTrue result ↔ ArePairs books.now trackers.now }
{
    for c in 0..trackers.len() {
        if !are_pairs_of(c, books, &trackers[c]) {
            return false;
        }
    }
    true
}

/// Whether these are the parts of one cluster that the scene sets up.
pub(crate) fn are_together<T: Tag, I: Indexes<T>, S: Setup>(
    scene: &Scene,
    books: &[QueueBook<T, I, S>],
    trackers: &[TrackerBook<S>],
    passes: &Passes<S>,
    report: &ClusterReport<T>,
) -> bool
    ensures { IsTrue result ↔ AreTogether scene.now (left_of books.now trackers.now passes.now (stops_of report.now)) }
{
    if !are_server_parts(scene, books, &passes.workers) {
        return false;
    }
    if !are_client_parts(scene, trackers, &passes.clients) {
        return false;
    }
    are_pairs(books, trackers)
}

/// Whether the rows are those of the scene's clients, in its order.
fn are_client_rows(rows: &[ClientReport], clients: &[SceneClient]) -> bool
    ensures { IsTrue result ↔ (map (λ r. r.client) rows.now ≡ map (λ c. c.id) clients.now) }
{
    if rows.len() != clients.len() {
        return false;
    }
    for i in 0..rows.len() {
        if rows[i].client != clients[i].id() {
            return false;
        }
    }
    true
}

/// Whether the rows are those of the servers 0, 1, ..
fn are_server_rows<T: Tag>(rows: &[ServerReport<T>]) -> bool
    ensures { IsTrue result ↔ ((k : ℕ) (row : ServerReport T) → slice_get rows.now k ≡ Some row → row.server.0 ≡ k) }
{
    for i in 0..rows.len() {
        if rows[i].server.0 as usize != i {
            return false;
        }
    }
    true
}

/// Whether the report's rows are those of the scene, which has at most 64 servers and 256 clients.
pub(crate) fn are_rows<T: Tag>(scene: &Scene, report: &ClusterReport<T>) -> bool
    ensures rows { IsTrue result ↔ AreRows scene.now report.now }
    ensures servers { IsTrue result → scene.now.servers ≤ max_servers }
    ensures clients { IsTrue result → length scene.now.clients ≤ max_scene_clients }
{
    report.servers.len() == scene.servers() as usize
        && are_client_rows(&report.clients, scene.clients())
        && are_server_rows(&report.servers)
}
