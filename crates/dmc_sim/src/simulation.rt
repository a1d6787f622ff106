//! The simulation of a scene.
ghost use Rattle.std.specs.Prelude.{◌≡◌, ◌*◌, ◌≤◌, All, AllPairs, IfOk, OnOk, length, map, min};
ghost use Rattle.std.specs.List.{list_all, range_with_len};
ghost use Rattle.dmc_types.specs.Limits.{max_moment, max_step, max_servers};
ghost use Rattle.dmc_pull.specs.Queue.{state_of};
ghost use Rattle.dmc_scene.specs.SceneValue.{AreApart};
ghost use Rattle.dmc_core.specs.Opening.{HaveSpacings};
ghost use Rattle.dmc_sim.specs.internal.Counts.{AreDifferent, HaveCompleted, HaveGranted};
ghost use Rattle.dmc_sim.specs.Reports.{IsReportOf, Simulates, SimulatesBy};
ghost use Rattle.dmc_sim.specs.internal.Rows.{idle_row};
ghost use Rattle.dmc_sim.specs.Simulation.{Sim, rounds, servers_of, simulation};
ghost use Rattle.dmc_sim.specs.internal.Simulations.{AllAt, AreMarked, Ends, IsLast, is_complete};
ghost use Rattle.dmc_sim.specs.internal.Turns.{HasRun, IsIdle};

use crate::client::SimClient;
use crate::report::{ServerReport, SimFault, SimReport};
use crate::round::make_round;
use crate::rows::{count_costs, count_left, idle_servers, put_rows};
use dmc_core::cluster_core::ClusterCore;
use dmc_core::ids::ClientIds;
use dmc_ratio::ratio::RatioTag;
use dmc_scene::scene::Scene;
use dmc_tag::tag::Tag;
use dmc_tick::tick::TickTag;
use dmc_types::config::TagKind;
use dmc_types::limits::MAX_MOMENT;
use dmc_types::moment::Moment;
use std::alloc::{AllocError, Global};
use std::sync::atomic::{AtomicU64, Ordering};

/// Simulates a scene (extension). Round k, counted from 0, is at the moment k times the step, at most 2^62. In a round each
/// client, in the scene's order, that has requests left and fewer than its window outstanding stamps one, for the server that its
/// plan names, and it arrives at once. Then each server, by number, pulls once, and a grant is responded at once. The rounds end
/// when all requests are completed, or with `turns_out` after `max_pulls` of them.
///
/// The report is exactly that of the simulation which `specs/Simulation.antt` defines, event by event, over the cluster run.
/// `Refused`: in that simulation a queue refuses an arrival or a pull, since a sum that it needs is no value of the tag type, and
/// this is the refusal. `Memory`: an allocation failed, and nothing more is claimed. The report's capacity is reserved before the
/// first round.
///
/// After each round 1 is added to the counter, from which another thread may see how far the simulation is. Of an atomic no
/// contract can say what it holds.
pub fn simulate(alloc: Global, scene: &Scene, counter: &AtomicU64) -> Result<SimReport, SimFault>
    ensures simulates { Simulates scene.now result }
    ensures rows { IfOk result (IsReportOf scene.now) }
{
    match scene.tags() {
        TagKind::Tick => simulate_on::<TickTag>(alloc, scene, counter),
        TagKind::Ratio => simulate_on::<RatioTag>(alloc, scene, counter),
    }
}

/// Simulates a scene with tags of this type.
fn simulate_on<T: Tag>(
    alloc: Global,
    scene: &Scene,
    counter: &AtomicU64,
) -> Result<SimReport, SimFault>
    requires { HaveSpacings T.ops scene.now }
    ensures simulates { SimulatesBy T.ops scene.now result }
    ensures rows { IfOk result (IsReportOf scene.now) }
{
    let mut rows = Vec::with_capacity(alloc, scene.clients().len())?;
    let mut servers = idle_servers(alloc, scene.servers())?;
    let mut clients = idle_clients(alloc, scene)?;
    let end = run_scene::<T>(alloc, scene, counter, &mut clients, &mut servers)?;
    put_rows(&clients, &mut rows);
    Ok(SimReport {
        clients: rows,
        servers,
        end,
        turns_out: !are_complete(&clients),
        with_costs: scene.has_costs(),
    })
}

/// Opens the scene's cluster and runs it to the last round, whose moment it returns. The servers' rows then have what is left, and
/// the clients what their completions cost.
fn run_scene<T: Tag>(
    alloc: Global,
    scene: &Scene,
    counter: &AtomicU64,
    clients: &mut [SimClient],
    servers: &mut [ServerReport],
) -> Result<Moment, SimFault>
    requires spacings { HaveSpacings T.ops scene.now }
    requires scenes { map (λ c. c.scene) clients.old ≡ scene.now.clients }
    requires clients { All (IsIdle scene.now) clients.old }
    requires servers { servers.old ≡ map idle_row (range_with_len 0 scene.now.servers) }
    requires some_servers { length servers.old ≤ max_servers }
    ensures scenes { OnOk result (map (λ c. c.scene) clients.new ≡ map (λ c. c.scene) clients.old) }
    ensures last { Ends (simulation T.ops scene.now) (IsLast scene.now clients.new servers.new) result }
{
    let ids = ClientIds::of_clients(alloc, scene.clients())?;
    let mut marks = vec![in alloc; true; clients.len()]?;
    let mut core = ClusterCore::<T>::new(alloc, scene)?;
    run(
        &mut core, scene, counter, &ids, clients, &mut marks, servers,
    )
}

/// The clients, before they send anything.
fn idle_clients(alloc: Global, scene: &Scene) -> Result<Vec<SimClient>, AllocError>
    ensures scenes { IfOk result (λ clients. map (λ c. c.scene) clients.items ≡ scene.now.clients) }
    ensures idle { IfOk result (λ clients. All (IsIdle scene.now) clients.items) }
{
    let seed = scene.seed();
    let servers = scene.servers();
    let mut clients = Vec::with_capacity(alloc, scene.clients().len())?;
    for client in scene.clients() {
        clients.push(SimClient::new(alloc, *client, seed, servers)?)?;
    }
    Ok(clients)
}

/// Whether every client's requests are completed.
fn are_complete(clients: &[SimClient]) -> bool
    ensures { result ≡ list_all is_complete clients.now }
{
    clients.iter().all(|client| client.is_complete())
}

/// The moment of a round.
fn moment_of(round: u32, step: u64) -> Moment
    requires { step ≤ max_step }
    ensures { result ≡ min (round * step) max_moment }
{
    let ticks = u64::from(round) * step;
    Moment::new(ticks.min(MAX_MOMENT)).unwrap()
}

/// Makes the rounds and returns the moment of the last, or 0 if there is none. Then each server's row has what is left, and each
/// client what its completions cost.
fn run<T: Tag>(
    core: &mut ClusterCore<T>,
    scene: &Scene,
    counter: &AtomicU64,
    ids: &ClientIds,
    clients: &mut [SimClient],
    marks: &mut [bool],
    servers: &mut [ServerReport],
) -> Result<Moment, SimFault>
    requires marks { length marks.old ≡ length clients.old }
    requires marked { AreMarked marks.old clients.old }
    requires ids { ids.now ≡ map (λ k. k.id) (map (λ c. c.scene) clients.old) }
    requires apart { AllPairs AreApart (map (λ c. c.scene) clients.old) }
    requires scenes { map (λ c. c.scene) clients.old ≡ scene.now.clients }
    requires numbers { map (λ r. r.server) servers.old ≡ servers_of scene.now }
    requires different { AllPairs AreDifferent (map (λ r. r.server) servers.old) }
    requires some_servers { length servers.old ≤ max_servers }
    requires completed { HaveCompleted 0 clients.old }
    requires grants { HaveGranted 0 servers.old }
    ensures scenes { OnOk result (map (λ c. c.scene) clients.new ≡ map (λ c. c.scene) clients.old) }
    ensures last { (sim : Sim T) → AllAt state_of scene.now core.old clients.old servers.old sim → Ends (rounds T.ops scene.now scene.now.max_pulls 0 sim) (IsLast scene.now clients.new servers.new) result }
{
    let end = make_rounds(core, scene, counter, ids, clients, marks, servers)?;
    count_left(core, servers);
    count_costs(core, clients);
    Ok(end)
}

/// Makes the rounds and returns the moment of the last, or 0 if there is none. They end if all requests are completed, or
/// after the greatest number that the scene allows.
fn make_rounds<T: Tag>(
    core: &mut ClusterCore<T>,
    scene: &Scene,
    counter: &AtomicU64,
    ids: &ClientIds,
    clients: &mut [SimClient],
    marks: &mut [bool],
    servers: &mut [ServerReport],
) -> Result<Moment, SimFault>
    requires marks { length marks.old ≡ length clients.old }
    requires marked { AreMarked marks.old clients.old }
    requires ids { ids.now ≡ map (λ k. k.id) (map (λ c. c.scene) clients.old) }
    requires apart { AllPairs AreApart (map (λ c. c.scene) clients.old) }
    requires scenes { map (λ c. c.scene) clients.old ≡ scene.now.clients }
    requires numbers { map (λ r. r.server) servers.old ≡ servers_of scene.now }
    requires different { AllPairs AreDifferent (map (λ r. r.server) servers.old) }
    requires some_servers { length servers.old ≤ max_servers }
    requires completed { HaveCompleted 0 clients.old }
    requires grants { HaveGranted 0 servers.old }
    ensures scenes { OnOk result (map (λ c. c.scene) clients.new ≡ map (λ c. c.scene) clients.old) }
    ensures numbers { OnOk result (map (λ r. r.server) servers.new ≡ map (λ r. r.server) servers.old) }
    ensures rounds { (sim : Sim T) → AllAt state_of scene.now core.old clients.old servers.old sim → Ends (rounds T.ops scene.now scene.now.max_pulls 0 sim) (HasRun state_of scene.now core.new clients.new servers.new) result }
{
    let mut end = Moment::zero();
    for round in 0..scene.max_pulls() {
        if are_complete(clients) {
            return Ok(end);
        }
        end = moment_of(round, scene.step());
        make_round(core, ids, clients, marks, servers, end)?;
        counter.fetch_add(1, Ordering::SeqCst);
    }
    Ok(end)
}
