//! The tracker.
ghost use Rattle.std.specs.Prelude.{◌≡◌, ◌<◌, ◌≤◌, ◌+◌, ◌^◌, ◌↔◌, Option, List, [], ◌∷◌, ◌++◌, length, IfOk, OnOk, OnErr, IsOk, IsErrOf, IsOkUnless, IsTrue, slice_get, option_map};
ghost use Rattle.dmc_types.specs.Limits.{max_count, max_completions, max_servers};
ghost use Rattle.dmc_types.specs.declared.config.Counting.{Counting};
ghost use Rattle.dmc_tracker.specs.declared.event.TrackerEvent.{TrackerEvent};
ghost use Rattle.dmc_tracker.specs.TrackerList.{demanded, IsResponseFull, IsStampFull, IsTooMuch};
ghost use Rattle.dmc_tracker.specs.Numbers.{Numbers, new_numbers, numbers_at, next_params, after_stamp, after_skip, after_response, sent_pair, skipped_pair, pending_pair, AreLimits, IsCompleteAt, IsFullAt, Keeps, RepresentsEvents};

use crate::counts::Counts;
use crate::event::TrackerEvent;
use crate::server::ServerCounts;
use dmc_types::config::{Counting, PhaseType};
use dmc_types::cost::Cost;
use dmc_types::ids::ServerId;
use dmc_types::limits::{MAX_COMPLETIONS, MAX_COUNT, MAX_SERVERS};
use dmc_types::params::ReqParams;
use std::alloc::{AllocError, Global};
use std::marker::Model;
use thiserror::Error;

/// Why a tracker could not be made.
#[derive(Clone, Copy, Debug, PartialEq, Eq, Error)]
pub enum MakeFault {
    /// The servers are not 1 to 64, or `most` is not 1 to 2^62.
    #[error("the servers are not 1 to 64, or the most completions are not 1 to 2^62")]
    Limit,
    /// The allocator refused the room.
    #[error("out of memory")]
    Memory,
}

/// Why a stamp, a skip or a response is refused. The tracker is as it was.
#[derive(Clone, Copy, Debug, PartialEq, Eq, Error)]
pub enum TrackFault {
    /// The tracker has no such server.
    #[error("the tracker has no such server")]
    NoServer,
    /// The call would take a count past the tracker's `most`, or a stamp's delta past 2^32-1.
    #[error("a count would pass the tracker's most, or a stamp's 2^32-1")]
    TrackFull,
}

impl From<AllocError> for MakeFault {
    ghost use Rattle.dmc_tracker.specs.declared.tracker.MakeFault.TheVariants.{Memory};

    ghost from_gives = { λ _ e. e ≡ Memory };

    fn from(_error: AllocError) -> MakeFault {
        MakeFault::Memory
    }
}

/// The service tracker of one client, for servers 0, 1, .. (dmClock section of the mClock paper, and Ceph's
/// `ServiceTracker`).
///
/// It counts the client's completions in units of cost, and stamps each request with two counts, delta of all of them and rho of
/// those in the constraint phase, since the last stamp to the same server. Which completions a stamp counts is its `Counting`. A
/// stamp's counts are at most 2^32-1: a client that sent nothing to a server for more completions than that skips them. A
/// stamp, a skip and a response take constant time and no memory.
#[derive(Drop)]
pub struct ServiceTracker {
    counting: Counting,
    most: u64,
    completions: Counts,
    servers: Vec<ServerCounts>,
}

impl Model for ServiceTracker {
    ghost use Rattle.dmc_tracker.specs.Numbers.{Numbers};

    ghost Value = { Numbers };

    ghost use Rattle.dmc_tracker.specs.Server.{view_of, AreKept};

    ghost view = { λ t. view_of t.counting t.most t.completions t.servers.items };

    ghost invariant = { λ t. AreKept t.counting t.most t.completions t.servers.items };
}

impl ServiceTracker {
    /// A tracker of `servers` servers (1 to 64), which counts `most` completions (1 to 2^62): refused `Limit`, then `Memory`.
    /// It represents the empty list.
    pub fn new(
        alloc: Global,
        servers: u32,
        most: u64,
        counting: Counting,
    ) -> Result<ServiceTracker, MakeFault>
        ensures ok { IfOk result (λ tracker. tracker ≡ new_numbers counting most servers) }
        ensures represents { IfOk result (λ tracker. RepresentsEvents tracker []) }
        ensures limit { (AreLimits servers most → ⊥) → result ≡ Err MakeFault.Limit }
        ensures memory { AreLimits servers most → IsOkUnless result MakeFault.Memory }
    {
        if servers < 1 || servers > MAX_SERVERS || most < 1 || most > MAX_COMPLETIONS {
            return Err(MakeFault::Limit);
        }
        let servers = vec![in alloc; ServerCounts::none(); servers as usize]?;
        Ok(ServiceTracker {
            counting,
            most,
            completions: Counts::none(),
            servers,
        })
    }

    /// Whether the next stamp to a server would be refused, and why: `NoServer`, then `TrackFull` if its delta would pass
    /// 2^32-1 (its rho is no more), and in the form `Others` if it would take what was sent to the server past `most`. It
    /// changes nothing.
    pub fn can_stamp(&self, server: ServerId, cost: Cost) -> Result<(), TrackFault>
        ensures within { OnOk result
            ((numbers_at self.now server).sent.delta + (next_params self.now server cost).delta ≤ self.now.most) }
        ensures carried { OnOk result ((next_params self.now server cost).delta ≤ max_count) }
        ensures counted { self.now.completions.delta ≤ self.now.most }
        ensures no_server { IsErrOf result TrackFault.NoServer ↔ (length self.now.servers ≤ server.0) }
        ensures full { IsErrOf result TrackFault.TrackFull ↔ IsFullAt self.now server cost }

        // The same in words of each list that the tracker represents.
        ensures full_by_list { (events : List TrackerEvent) → RepresentsEvents self.now events
            → (IsErrOf result TrackFault.TrackFull ↔ ((server.0 < length self.now.servers)
            × IsStampFull self.now.counting self.now.most server cost events)) }
    {
        let index = server.0 as usize;
        if index >= self.servers.len() {
            return Err(TrackFault::NoServer);
        }
        let counts = self.servers[index];
        let counted = counts.counted(self.counting, self.completions);
        let next = counted
            .minus(counts.mark)
            .plus(Counts::own_share(self.counting, cost));
        if is_too_much(self.counting, self.most, counts.sent.delta, next.delta) {
            return Err(TrackFault::TrackFull);
        }
        Ok(())
    }

    /// Stamps a request of this cost to a server: refused as `can_stamp` says.
    pub fn get_req_params(&mut self, server: ServerId, cost: Cost) -> Result<ReqParams, TrackFault>
        ensures params { IfOk result (λ params. params ≡ next_params self.old server cost) }
        ensures after { OnOk result (self.new ≡ after_stamp server cost self.old) }

        // Of each list that the tracker represents, it takes the numbers to those of the list with this stamp, which
        // carries what the list demands.
        ensures represents { IfOk result (λ params. (events : List TrackerEvent) → RepresentsEvents self.old events
            → (params ≡ demanded self.old.counting server cost events) × RepresentsEvents self.new (events ++ TrackerEvent.Stamp server params ∷ [])) }

        ensures no_server { IsErrOf result TrackFault.NoServer ↔ (length self.old.servers ≤ server.0) }
        ensures full { IsErrOf result TrackFault.TrackFull ↔ IsFullAt self.old server cost }
        ensures full_by_list { (events : List TrackerEvent) → RepresentsEvents self.old events
            → (IsErrOf result TrackFault.TrackFull ↔ ((server.0 < length self.old.servers)
            × IsStampFull self.old.counting self.old.most server cost events)) }
        ensures err { OnErr result (self.new ≡ self.old) }
        ensures kept { Keeps self.old self.new }
    {
        self.can_stamp(server, cost)?;
        Ok(self.stamp_checked(server, cost))
    }

    /// Stamps a request to a server if `can_stamp` returns Ok: it needs no further test. For a caller that has to do more
    /// between the test and the stamp; otherwise `get_req_params` does both.
    pub fn stamp_checked(&mut self, server: ServerId, cost: Cost) -> ReqParams
        requires within { server.0 < length self.old.servers }
        requires not_full { IsFullAt self.old server cost → ⊥ }
        ensures params { result ≡ next_params self.old server cost }
        ensures after { self.new ≡ after_stamp server cost self.old }

        // Of each list that the tracker represents, it takes the numbers to those of the list with this stamp, which
        // carries what the list demands.
        ensures represents { (events : List TrackerEvent) → RepresentsEvents self.old events
            → (result ≡ demanded self.old.counting server cost events) × RepresentsEvents self.new (events ++ TrackerEvent.Stamp server result ∷ []) }

        ensures kept { Keeps self.old self.new }
    {
        let index = server.0 as usize;
        let counts = self.servers[index];
        let counted = counts.counted(self.counting, self.completions);
        let next = counted
            .minus(counts.mark)
            .plus(Counts::own_share(self.counting, cost));
        self.servers[index] = ServerCounts {
            sent: counts.sent.plus(next),
            mark: counted,
            ..counts
        };
        next.stamp(cost)
    }

    /// Skips what is pending at a server: the next stamp to it counts only later completions. It sends nothing. If a stamp
    /// is refused `TrackFull` for its delta, a skip ends that. Refused `NoServer`.
    pub fn skip(&mut self, server: ServerId) -> Result<(), TrackFault>
        ensures after { OnOk result (self.new ≡ after_skip server self.old) }

        // Of each list that the tracker represents, it takes the numbers to those of the list with this skip.
        ensures represents { OnOk result ((events : List TrackerEvent) → RepresentsEvents self.old events
            → RepresentsEvents self.new (events ++ TrackerEvent.Skip server ∷ [])) }

        ensures ok { IsOk result ↔ (server.0 < length self.old.servers) }
        ensures no_server { IsErrOf result TrackFault.NoServer ↔ (length self.old.servers ≤ server.0) }
        ensures err { OnErr result (self.new ≡ self.old) }
        ensures kept { Keeps self.old self.new }
    {
        let index = server.0 as usize;
        if index >= self.servers.len() {
            return Err(TrackFault::NoServer);
        }
        let counts = self.servers[index];
        let total = counts.counted(self.counting, self.completions);
        let pending = total.minus(counts.mark);
        self.servers[index] = ServerCounts {
            skipped: counts.skipped.plus(pending),
            mark: total,
            ..counts
        };
        Ok(())
    }

    /// Whether a response of this cost would be refused, and why: `NoServer`, then `TrackFull` if it would take the completions
    /// past `most`. It changes nothing.
    pub fn can_respond(&self, server: ServerId, cost: Cost) -> Result<(), TrackFault>
        ensures fewer { OnOk result (self.now.completions.delta + cost ≤ self.now.most) }
        ensures no_server { IsErrOf result TrackFault.NoServer ↔ (length self.now.servers ≤ server.0) }
        ensures full { IsErrOf result TrackFault.TrackFull
            ↔ IsCompleteAt self.now server cost }

        // The same in words of each list that the tracker represents.
        ensures full_by_list { (events : List TrackerEvent) → RepresentsEvents self.now events
            → (IsErrOf result TrackFault.TrackFull ↔ ((server.0 < length self.now.servers) × IsResponseFull self.now.most cost events)) }
    {
        if server.0 as usize >= self.servers.len() {
            return Err(TrackFault::NoServer);
        }
        if self.completions.delta + u64::from(cost.units()) > self.most {
            return Err(TrackFault::TrackFull);
        }
        Ok(())
    }

    /// Counts a completion: a server completed a request of this cost that it granted in a phase. Refused as `can_respond` says.
    pub fn track_resp(
        &mut self,
        server: ServerId,
        phase: PhaseType,
        cost: Cost,
    ) -> Result<(), TrackFault>
        ensures after { OnOk result (self.new ≡ after_response server phase cost self.old) }

        // Of each list that the tracker represents, it takes the numbers to those of the list with this response.
        ensures represents { OnOk result ((events : List TrackerEvent) → RepresentsEvents self.old events
            → RepresentsEvents self.new (events ++ TrackerEvent.Response server phase cost ∷ [])) }

        ensures no_server { IsErrOf result TrackFault.NoServer ↔ (length self.old.servers ≤ server.0) }
        ensures full { IsErrOf result TrackFault.TrackFull
            ↔ IsCompleteAt self.old server cost }
        ensures full_by_list { (events : List TrackerEvent) → RepresentsEvents self.old events
            → (IsErrOf result TrackFault.TrackFull ↔ ((server.0 < length self.old.servers) × IsResponseFull self.old.most cost events)) }
        ensures err { OnErr result (self.new ≡ self.old) }
        ensures kept { Keeps self.old self.new }
    {
        self.can_respond(server, cost)?;
        self.track_checked(server, phase, cost);
        Ok(())
    }

    /// Counts a completion if `can_respond` returns Ok: it needs no further test. For a caller that has to do more
    /// between the test and the count; otherwise `track_resp` does both.
    pub fn track_checked(&mut self, server: ServerId, phase: PhaseType, cost: Cost)
        requires within { server.0 < length self.old.servers }
        requires not_full { self.old.completions.delta + cost ≤ self.old.most }
        ensures after { self.new ≡ after_response server phase cost self.old }

        // Of each list that the tracker represents, it takes the numbers to those of the list with this response.
        ensures represents { (events : List TrackerEvent) → RepresentsEvents self.old events
            → RepresentsEvents self.new (events ++ TrackerEvent.Response server phase cost ∷ []) }

        ensures kept { Keeps self.old self.new }
    {
        let response = Counts::of_response(phase, cost);
        self.completions = self.completions.plus(response);
        let index = server.0 as usize;
        let counts = self.servers[index];
        self.servers[index] = ServerCounts {
            own: counts.own.plus(response),
            ..counts
        };
    }

    /// The sums of the deltas and of the rhos stamped to a server, or `None` if the tracker has no such server.
    pub fn sent(&self, server: ServerId) -> Option<(u64, u64)>
        ensures { result ≡ option_map sent_pair (slice_get self.now.servers server.0) }
    {
        let counts = self.servers.get(server.0 as usize)?;
        Some((counts.sent.delta, counts.sent.rho))
    }

    /// The completions that were skipped at a server, of all and in the constraint phase, or `None` if the tracker has no
    /// such server.
    pub fn skipped(&self, server: ServerId) -> Option<(u64, u64)>
        ensures { result ≡ option_map skipped_pair (slice_get self.now.servers server.0) }
    {
        let counts = self.servers.get(server.0 as usize)?;
        Some((counts.skipped.delta, counts.skipped.rho))
    }

    /// The completions that a stamp to a server would count now, of all and in the constraint phase, without the request
    /// itself; `None` if the tracker has no such server.
    pub fn pending(&self, server: ServerId) -> Option<(u64, u64)>
        ensures { result ≡ option_map pending_pair (slice_get self.now.servers server.0) }
    {
        let counts = self.servers.get(server.0 as usize)?;
        let counted = counts.counted(self.counting, self.completions);
        let pending = counted.minus(counts.mark);
        Some((pending.delta, pending.rho))
    }

    /// The completions at all servers, of all and in the constraint phase.
    pub fn completions(&self) -> (u64, u64)
        ensures all { result.0 ≡ self.now.completions.delta }
        ensures constraint { result.1 ≡ self.now.completions.rho }
        ensures bound { result.0 ≤ self.now.most }
        ensures part { result.1 ≤ result.0 }
    {
        (self.completions.delta, self.completions.rho)
    }

    /// How many servers it has.
    pub fn servers(&self) -> u32
        ensures value { result ≡ length self.now.servers }
        ensures some { 0 < result }
        ensures limit { result ≤ max_servers }
    {
        self.servers.len() as u32
    }

    /// How many completions it counts.
    pub fn most(&self) -> u64
        ensures value { result ≡ self.now.most }
        ensures some { 0 < result }
        ensures limit { result ≤ max_completions }
    {
        self.most
    }

    /// Which completions its stamps count.
    pub fn counting(&self) -> Counting
        ensures { result ≡ self.now.counting }
    {
        self.counting
    }
}

/// Whether no stamp may carry this delta, if the deltas stamped to its server sum to `sent`: it is past 2^32-1, or, in the
/// form `Others`, it would take the sum past `most`. Such a stamp is refused `TrackFull`.
pub fn is_too_much(counting: Counting, most: u64, sent: u64, delta: u64) -> bool
    requires { sent + delta < 2 ^ 64 }
    ensures { IsTrue result ↔ IsTooMuch counting most sent delta }
{
    let is_wide = delta > u64::from(MAX_COUNT);
    match counting {
        Counting::All => is_wide,
        Counting::Others => is_wide || sent + delta > most,
    }
}
