//! A round: each client sends, and then each server serves.
ghost use Rattle.std.specs.Prelude.{◌≡◌, ◌+◌, ◌-◌, ◌<◌, ◌≤◌, ◌^◌, ℕ, All, AllPairs, OnOk, Some, false, if◌then◌else◌, length, map};
ghost use Rattle.dmc_pull.specs.Queue.{state_of};
ghost use Rattle.dmc_scene.specs.SceneValue.{AreApart, SceneValue};
ghost use Rattle.dmc_types.specs.Limits.{limit_of_pulls, max_servers};
ghost use Rattle.dmc_types.specs.declared.config.PhaseType.TheVariants as phases_of;
ghost use Rattle.dmc_core.specs.declared.event.CoreEvent.TheVariants as events;
ghost use Rattle.dmc_sim.specs.internal.Counts.{AreDifferent, HaveCompleted, HaveGranted, grants_of};
ghost use Rattle.dmc_sim.specs.Simulation.{asked, client_turn, each_in_turn, is_phase, moment_of, round, send_to, server_turn, servers_of, Sim};
ghost use Rattle.dmc_sim.specs.internal.Simulations.{AllAt, AreMarked, ClientsAt, Ends, has_next};
ghost use Rattle.dmc_sim.specs.internal.Turns.{ClientAt, CompletesOne, ServerAt};

use crate::ask::{Grant, ask, grant_in, is_counted, is_tagged};
use crate::client::SimClient;
use crate::report::{ServerReport, SimFault};
use dmc_core::cluster_core::ClusterCore;
use dmc_core::event::CoreEvent;
use dmc_core::ids::ClientIds;
use dmc_tag::tag::Tag;
use dmc_types::config::PhaseType;
use dmc_types::ids::{ClientId, ServerId, Token};
use dmc_types::moment::Moment;

/// A client sends its next request, if it may send one.
fn send<T: Tag>(
    core: &mut ClusterCore<T>,
    client: &mut SimClient,
    at: Moment,
) -> Result<(), SimFault>
    ensures scene { OnOk result (client.new.scene ≡ client.old.scene) }
    ensures completed { OnOk result (client.new.completed ≡ client.old.completed) }
    ensures turn { (scene : SceneValue) (sim : Sim T) → ClientAt state_of scene core.old client.old sim → Ends (client_turn T.ops scene at client.old.scene sim) (λ _. ClientAt state_of scene core.new client.new) result }
{
    match client.next_server() {
        Some(server) => send_to(core, client, server, at),
        None => Ok(()),
    }
}

/// A client stamps its next request to a server, and it arrives at once.
// It is not inlined into the loop over all clients, which stays small.
#[inline(never)]
fn send_to<T: Tag>(
    core: &mut ClusterCore<T>,
    client: &mut SimClient,
    server: ServerId,
    at: Moment,
) -> Result<(), SimFault>
    requires { client.old.sent < client.old.scene.requests }
    ensures scene { OnOk result (client.new.scene ≡ client.old.scene) }
    ensures completed { OnOk result (client.new.completed ≡ client.old.completed) }
    ensures turn { (scene : SceneValue) (sim : Sim T) → ClientAt state_of scene core.old client.old sim → Ends (send_to T.ops at client.old.scene (Some server) sim) (λ _. ClientAt state_of scene core.new client.new) result }
{
    let id = client.scene.id();
    let token = Token(client.sent);
    let _stamped = ask(
        core,
        CoreEvent::Stamp {
            client: id,
            server,
            token,
            cost: client.scene.cost(client.sent),
        },
    )?;
    let returned = ask(
        core,
        CoreEvent::Arrive {
            client: id,
            server,
            at,
        },
    )?;
    if is_tagged(&returned) {
        client.count_sent();
    }
    Ok(())
}

/// A client with a mark sends its next request, if it may send one. The mark stays if it may send another.
fn send_marked<T: Tag>(
    core: &mut ClusterCore<T>,
    client: &mut SimClient,
    mark: &mut bool,
    at: Moment,
) -> Result<(), SimFault>
    requires { mark.old ≡ false → has_next client.old ≡ false }
    ensures scene { OnOk result (client.new.scene ≡ client.old.scene) }
    ensures completed { OnOk result (client.new.completed ≡ client.old.completed) }
    ensures mark { OnOk result (mark.new ≡ false → has_next client.new ≡ false) }
    ensures turn { (scene : SceneValue) (sim : Sim T) → ClientAt state_of scene core.old client.old sim → Ends (client_turn T.ops scene at client.old.scene sim) (λ _. ClientAt state_of scene core.new client.new) result }
{
    if *mark {
        send(core, client, at)?;
        *mark = client.may_send();
    }
    Ok(())
}

/// Each client sends a request, if it may, in the scene's order. Only clients with a mark are looked at: few may send in a round,
/// and all marks together need few lines of a cache.
fn send_all<T: Tag>(
    core: &mut ClusterCore<T>,
    clients: &mut [SimClient],
    marks: &mut [bool],
    at: Moment,
) -> Result<(), SimFault>
    requires marks { length marks.old ≡ length clients.old }
    requires marked { AreMarked marks.old clients.old }
    requires apart { AllPairs AreApart (map (λ c. c.scene) clients.old) }
    ensures scenes { OnOk result (map (λ c. c.scene) clients.new ≡ map (λ c. c.scene) clients.old) }
    ensures completed { OnOk result ((n : ℕ) → HaveCompleted n clients.old → HaveCompleted n clients.new) }
    ensures marked { OnOk result (AreMarked marks.new clients.new) }
    ensures turns { (scene : SceneValue) (sim : Sim T) → ClientsAt state_of scene core.old clients.old sim → Ends (each_in_turn (client_turn T.ops scene at) (map (λ c. c.scene) clients.old) sim) (λ _. ClientsAt state_of scene core.new clients.new) result }
{
    for place in 0..clients.len() {
        send_marked(core, &mut clients[place], &mut marks[place], at)?;
    }
    Ok(())
}

/// Counts a grant of a server.
fn count_grant(row: &mut ServerReport, phase: PhaseType)
    requires { grants_of row.old < limit_of_pulls }
    ensures server { row.new.server ≡ row.old.server }
    ensures reservation { row.new.reservation ≡ row.old.reservation + (if is_phase phases_of.Reservation phase then 1 else 0) }
    ensures priority { row.new.priority ≡ row.old.priority + (if is_phase phases_of.Priority phase then 1 else 0) }
{
    match phase {
        PhaseType::Reservation => row.reservation += 1,
        PhaseType::Priority => row.priority += 1,
    }
}

/// Counts a completion of a client, which may then send again.
fn count_completion(
    ids: &ClientIds,
    clients: &mut [SimClient],
    marks: &mut [bool],
    client: ClientId,
    phase: PhaseType,
)
    requires marks { length marks.old ≡ length clients.old }
    requires ids { ids.now ≡ map (λ k. k.id) (map (λ c. c.scene) clients.old) }
    requires room { All (λ c. c.completed < 2 ^ 36) clients.old }
    requires marked { AreMarked marks.old clients.old }
    requires apart { AllPairs AreApart (map (λ c. c.scene) clients.old) }
    ensures scenes { map (λ c. c.scene) clients.new ≡ map (λ c. c.scene) clients.old }
    ensures completed { (n : ℕ) → HaveCompleted n clients.old → HaveCompleted (n + 1) clients.new }
    ensures marked { AreMarked marks.new clients.new }
    ensures counted { CompletesOne client phase clients.old clients.new }
{
    if let Some(place) = ids.place(client) {
        clients[place].count_completed(phase);
        marks[place] = clients[place].may_send();
    }
}

/// The client of a grant responds at once. A completion that the cluster counts is counted at the client.
fn respond<T: Tag>(
    core: &mut ClusterCore<T>,
    ids: &ClientIds,
    clients: &mut [SimClient],
    marks: &mut [bool],
    server: ServerId,
    grant: Grant,
) -> Result<(), SimFault>
    requires marks { length marks.old ≡ length clients.old }
    requires ids { ids.now ≡ map (λ k. k.id) (map (λ c. c.scene) clients.old) }
    requires room { All (λ c. c.completed < 2 ^ 36) clients.old }
    requires marked { AreMarked marks.old clients.old }
    requires apart { AllPairs AreApart (map (λ c. c.scene) clients.old) }
    ensures scenes { OnOk result (map (λ c. c.scene) clients.new ≡ map (λ c. c.scene) clients.old) }
    ensures completed { OnOk result ((n : ℕ) → HaveCompleted n clients.old → HaveCompleted (n + 1) clients.new) }
    ensures marked { OnOk result (AreMarked marks.new clients.new) }
    ensures turn { (scene : SceneValue) (sim : Sim T) → ClientsAt state_of scene core.old clients.old sim → Ends (asked T.ops (events.Respond grant.client server grant.phase grant.cost) sim) (λ _. ClientsAt state_of scene core.new clients.new) result }
{
    let Grant {
        client,
        phase,
        cost,
    } = grant;
    let returned = ask(
        core,
        CoreEvent::Respond {
            client,
            server,
            phase,
            cost,
        },
    )?;
    if is_counted(&returned) {
        count_completion(ids, clients, marks, client, phase);
    }
    Ok(())
}

/// A server pulls, and the client of a grant responds at once.
fn serve<T: Tag>(
    core: &mut ClusterCore<T>,
    ids: &ClientIds,
    clients: &mut [SimClient],
    marks: &mut [bool],
    row: &mut ServerReport,
    at: Moment,
) -> Result<(), SimFault>
    requires marks { length marks.old ≡ length clients.old }
    requires ids { ids.now ≡ map (λ k. k.id) (map (λ c. c.scene) clients.old) }
    requires clients { All (λ c. c.completed < 2 ^ 36) clients.old }
    requires marked { AreMarked marks.old clients.old }
    requires apart { AllPairs AreApart (map (λ c. c.scene) clients.old) }
    requires server { grants_of row.old < limit_of_pulls }
    ensures server { OnOk result (row.new.server ≡ row.old.server) }
    ensures grants { OnOk result (grants_of row.new ≤ grants_of row.old + 1) }
    ensures scenes { OnOk result (map (λ c. c.scene) clients.new ≡ map (λ c. c.scene) clients.old) }
    ensures completed { OnOk result ((n : ℕ) → HaveCompleted n clients.old → HaveCompleted (n + 1) clients.new) }
    ensures marked { OnOk result (AreMarked marks.new clients.new) }
    ensures turn { (scene : SceneValue) (sim : Sim T) → ServerAt state_of scene core.old clients.old row.old sim → Ends (server_turn T.ops at row.old.server sim) (λ _. ServerAt state_of scene core.new clients.new row.new) result }
{
    let server = row.server;
    let returned = ask(core, CoreEvent::Pull { server, at })?;
    match grant_in(&returned) {
        Some(grant) => {
            count_grant(row, grant.phase);
            respond(core, ids, clients, marks, server, grant)
        }
        None => Ok(()),
    }
}

/// Each server serves, by number.
fn serve_all<T: Tag>(
    core: &mut ClusterCore<T>,
    ids: &ClientIds,
    clients: &mut [SimClient],
    marks: &mut [bool],
    servers: &mut [ServerReport],
    at: Moment,
) -> Result<(), SimFault>
    requires marks { length marks.old ≡ length clients.old }
    requires ids { ids.now ≡ map (λ k. k.id) (map (λ c. c.scene) clients.old) }
    requires some_servers { length servers.old ≤ max_servers }
    requires clients { HaveCompleted (2 ^ 36 - 64) clients.old }
    requires marked { AreMarked marks.old clients.old }
    requires apart { AllPairs AreApart (map (λ c. c.scene) clients.old) }
    requires servers { HaveGranted (limit_of_pulls - 1) servers.old }
    requires different { AllPairs AreDifferent (map (λ r. r.server) servers.old) }
    ensures numbers { OnOk result (map (λ r. r.server) servers.new ≡ map (λ r. r.server) servers.old) }
    ensures grants { OnOk result ((n : ℕ) → HaveGranted n servers.old → HaveGranted (n + 1) servers.new) }
    ensures scenes { OnOk result (map (λ c. c.scene) clients.new ≡ map (λ c. c.scene) clients.old) }
    ensures completed { OnOk result ((n : ℕ) → HaveCompleted n clients.old → HaveCompleted (n + length servers.old) clients.new) }
    ensures marked { OnOk result (AreMarked marks.new clients.new) }
    ensures turns { (scene : SceneValue) (sim : Sim T) → AllAt state_of scene core.old clients.old servers.old sim → Ends (each_in_turn (server_turn T.ops at) (map (λ r. r.server) servers.old) sim) (λ _. AllAt state_of scene core.new clients.new servers.new) result }
{
    for row in servers.iter_mut() {
        serve(core, ids, clients, marks, row, at)?;
    }
    Ok(())
}

/// A round at a moment: each client sends a request, if it may, and then each server serves.
pub fn make_round<T: Tag>(
    core: &mut ClusterCore<T>,
    ids: &ClientIds,
    clients: &mut [SimClient],
    marks: &mut [bool],
    servers: &mut [ServerReport],
    at: Moment,
) -> Result<(), SimFault>
    requires marks { length marks.old ≡ length clients.old }
    requires ids { ids.now ≡ map (λ k. k.id) (map (λ c. c.scene) clients.old) }
    requires some_servers { length servers.old ≤ max_servers }
    requires clients { HaveCompleted (2 ^ 36 - 64) clients.old }
    requires marked { AreMarked marks.old clients.old }
    requires apart { AllPairs AreApart (map (λ c. c.scene) clients.old) }
    requires servers { HaveGranted (limit_of_pulls - 1) servers.old }
    requires different { AllPairs AreDifferent (map (λ r. r.server) servers.old) }
    ensures numbers { OnOk result (map (λ r. r.server) servers.new ≡ map (λ r. r.server) servers.old) }
    ensures grants { OnOk result ((n : ℕ) → HaveGranted n servers.old → HaveGranted (n + 1) servers.new) }
    ensures scenes { OnOk result (map (λ c. c.scene) clients.new ≡ map (λ c. c.scene) clients.old) }
    ensures completed { OnOk result ((n : ℕ) → HaveCompleted n clients.old → HaveCompleted (n + length servers.old) clients.new) }
    ensures marked { OnOk result (AreMarked marks.new clients.new) }
    ensures round { (scene : SceneValue) (k : ℕ) (sim : Sim T) → at ≡ moment_of scene k → map (λ c. c.scene) clients.old ≡ scene.clients → map (λ r. r.server) servers.old ≡ servers_of scene → AllAt state_of scene core.old clients.old servers.old sim → Ends (round T.ops scene k sim) (λ _. AllAt state_of scene core.new clients.new servers.new) result }
{
    send_all(core, clients, marks, at)?;
    serve_all(core, ids, clients, marks, servers, at)
}
