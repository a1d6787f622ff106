//! A client of a simulation.
ghost use Rattle.std.specs.Prelude.{◌≡◌, ◌+◌, ◌<◌, ◌≤◌, ◌^◌, ◌==◌, ◌&&◌, IfOk, IfSome, None, if◌then◌else◌, nat_lt, slice_get, vec_len};
ghost use Rattle.dmc_types.specs.Limits.{max_client_requests};
ghost use Rattle.dmc_types.specs.declared.config.PhaseType.TheVariants as phases_of;
ghost use Rattle.dmc_work.specs.Plan.{generator, planned, word};
ghost use Rattle.dmc_sim.specs.Simulation.{is_phase};

use dmc_scene::client::SceneClient;
use dmc_types::config::PhaseType;
use dmc_types::ids::ServerId;
use dmc_work::plan::plan;
use std::alloc::{AllocError, Global};

/// A client: its part of the scene, the servers of its requests, how many of them it has sent, how many are completed, in all and in
/// the constraint phase, and in the end what those cost. A round completes at most one request at each server, so a simulation of 2^30 rounds and 64
/// servers completes at most 2^36.
#[derive(Drop)]
pub struct SimClient {
    pub scene: SceneClient,
    plan: Vec<ServerId>,
    pub sent: u32,
    pub completed: u64,
    pub reservation: u64,
    pub cost: u64,
    ghost few: { scene.requests ≤ max_client_requests },
    ghost planned: { vec_len plan ≡ scene.requests },
    ghost within: { sent ≤ scene.requests },
    ghost phases: { reservation ≤ completed },
    ghost limit: { completed ≤ 2 ^ 36 },
}

impl SimClient {
    /// A client that has sent nothing.
    pub fn new(
        alloc: Global,
        scene: SceneClient,
        seed: u64,
        servers: u32,
    ) -> Result<SimClient, AllocError>
        requires { 0 < servers }
        ensures scene { IfOk result (λ client. client.scene ≡ scene) }
        ensures plan { IfOk result (λ client. client.plan.items ≡ planned (word (generator seed scene.id.0)) servers scene.requests) }
        ensures sent { IfOk result (λ client. client.sent ≡ 0) }
        ensures completed { IfOk result (λ client. client.completed ≡ 0) }
        ensures reservation { IfOk result (λ client. client.reservation ≡ 0) }
    {
        let plan = plan(alloc, seed, scene.id(), servers, scene.requests())?;
        Ok(SimClient {
            scene,
            plan,
            sent: 0,
            completed: 0,
            reservation: 0,
            cost: 0,
        })
    }

    /// The server of its next request, if it has requests left and fewer outstanding than its window.
    pub fn next_server(&self) -> Option<ServerId>
        ensures left { IfSome result (λ _. self.now.sent < self.now.scene.requests) }
        ensures server { result ≡ (if nat_lt self.now.sent (self.now.completed + self.now.scene.window) then slice_get self.now.plan.items self.now.sent else None) }
    {
        if u64::from(self.sent) >= self.completed + u64::from(self.scene.window()) {
            return None;
        }
        self.plan.get(self.sent as usize).copied()
    }

    /// Whether it has requests left and fewer outstanding than its window.
    pub fn may_send(&self) -> bool
        ensures { result ≡ (nat_lt self.now.sent (self.now.completed + self.now.scene.window) && nat_lt self.now.sent self.now.scene.requests) }
    {
        u64::from(self.sent) < self.completed + u64::from(self.scene.window())
            && self.sent < self.scene.requests()
    }

    /// Counts a request that it sent.
    pub fn count_sent(&mut self)
        requires { self.old.sent < self.old.scene.requests }
        ensures scene { self.new.scene ≡ self.old.scene }
        ensures plan { self.new.plan.items ≡ self.old.plan.items }
        ensures sent { self.new.sent ≡ self.old.sent + 1 }
        ensures completed { self.new.completed ≡ self.old.completed }
        ensures reservation { self.new.reservation ≡ self.old.reservation }
    {
        self.sent += 1;
    }

    /// Counts the completion of a request.
    pub fn count_completed(&mut self, phase: PhaseType)
        requires { self.old.completed < 2 ^ 36 }
        ensures scene { self.new.scene ≡ self.old.scene }
        ensures plan { self.new.plan.items ≡ self.old.plan.items }
        ensures sent { self.new.sent ≡ self.old.sent }
        ensures completed { self.new.completed ≡ self.old.completed + 1 }
        ensures reservation { self.new.reservation ≡ self.old.reservation + (if is_phase phases_of.Reservation phase then 1 else 0) }
    {
        self.completed += 1;
        if phase == PhaseType::Reservation {
            self.reservation += 1;
        }
    }

    /// Whether all of its requests are completed.
    pub fn is_complete(&self) -> bool
        ensures { result ≡ (self.now.completed == self.now.scene.requests) }
    {
        self.completed == u64::from(self.scene.requests())
    }
}
