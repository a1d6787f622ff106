//! The settings of a queue.
ghost use Rattle.std.specs.Prelude.{◌≡◌, ◌<◌, ◌≤◌, ◌↔◌, ◌⊎◌, IsNone, IfSome};
ghost use Rattle.dmc_types.specs.Limits.{max_hz, max_moment};
ghost use Rattle.dmc_types.specs.Rates.{IsGreatestAtMost, IsLeastAtLeast};
ghost use Rattle.dmc_types.specs.Values.{IsSetting, threshold_of};
ghost use Rattle.dmc_types.specs.declared.config.Shares.TheVariants as shares_of;
ghost use Rattle.dmc_types.specs.declared.refusal.ValueFault.{ValueFault};

use crate::limits::{MAX_AGE, MAX_HZ};
use crate::rates;
use crate::refusal::ValueFault;
use std::marker::Model;

/// What a pull does while each queued request is over its client's limit.
#[derive(Clone, Copy, Debug, PartialEq, Eq)]
pub enum AtLimit {
    /// It returns the moment at which a request will be due.
    Wait,
    /// It grants the best request by weight, beyond its limit.
    Allow,
    /// It returns the moment at which a request will be due. An add is refused if its request would wait for its limit longer
    /// than `threshold` ticks (0 to 2^62) after it came.
    Reject { threshold: u64 },
}

/// In which time shares are compared (extension: start-time fair queueing for weights).
#[derive(Clone, Copy, Debug, PartialEq, Eq)]
pub enum Shares {
    /// By the clock, as mClock does: a client that was served more than its share waits while others catch up.
    Clock,
    /// In the time of the service: what a client was served before others came is neither a credit nor a debt.
    Virtual,
}

/// Which completions a stamp counts.
#[derive(Clone, Copy, Debug, PartialEq, Eq)]
pub enum Counting {
    /// The completions at all servers since the last stamp to this one.
    All,
    /// The completions at the other servers since then, and the request itself.
    Others,
}

/// The phase in which a request was granted.
#[derive(Clone, Copy, Debug, PartialEq, Eq)]
pub enum PhaseType {
    /// The constraint phase: its reservation was due.
    Reservation,
    /// The weight phase: it was the best by weight.
    Priority,
}

/// Which tags a program runs on.
#[derive(Clone, Copy, Debug, PartialEq, Eq)]
pub enum TagKind {
    /// Whole ticks.
    Tick,
    /// Fractions of ticks.
    Ratio,
}

/// A queue's configuration: `hz` ticks a second (1 to 1,000,000,000), the ages in ticks after which a clean marks a
/// client idle and erases it (1 to 2^62, `idle_age` at most `erase_age`), what is done at the limit (a threshold of 0 to 2^62), and
/// in which time shares are compared.
#[derive(Clone, Copy, Debug, PartialEq, Eq)]
pub struct QueueConfig {
    hz: u32,
    idle_age: u64,
    erase_age: u64,
    at_limit: AtLimit,
    shares: Shares,
}

impl Model for QueueConfig {
    ghost use Rattle.dmc_types.specs.Values.{Setting, IsSetting};

    ghost Value = { Setting };

    ghost view = { λ c. record { hz = c.hz; idle_age = c.idle_age; erase_age = c.erase_age; at_limit = c.at_limit; shares = c.shares } };

    ghost invariant = { λ c. IsSetting c.hz c.idle_age c.erase_age c.at_limit };

    ghost inverse = { λ c. record { hz = c.hz; idle_age = c.idle_age; erase_age = c.erase_age; at_limit = c.at_limit; shares = c.shares } };
}

impl QueueConfig {
    /// A configuration, with shares by the clock. It is refused `Config` if a value is out of its limits.
    pub fn new(
        hz: u64,
        idle_age: u64,
        erase_age: u64,
        at_limit: AtLimit,
    ) -> Result<QueueConfig, ValueFault>
        ensures ok { IsSetting hz idle_age erase_age at_limit →
            result ≡ Ok (record { hz = hz; idle_age = idle_age; erase_age = erase_age; at_limit = at_limit; shares = shares_of.Clock }) }
        ensures refused { (IsSetting hz idle_age erase_age at_limit → ⊥) → result ≡ Err ValueFault.Config }
    {
        let in_order = 1 <= idle_age && idle_age <= erase_age && erase_age <= MAX_AGE;
        if hz < 1 || hz > MAX_HZ || !in_order || threshold_of(at_limit) > MAX_AGE {
            return Err(ValueFault::Config);
        }
        Ok(QueueConfig {
            hz: hz as u32,
            idle_age,
            erase_age,
            at_limit,
            shares: Shares::Clock,
        })
    }

    /// The same configuration with shares by the clock or in virtual time.
    pub fn with_shares(self, shares: Shares) -> QueueConfig
        ensures { result ≡ record self { shares = shares } }
    {
        QueueConfig { shares, ..self }
    }

    /// Ticks a second.
    pub fn hz(self) -> u32
        ensures value { result ≡ self.hz }
        ensures some { 0 < result }
        ensures limit { result ≤ max_hz }
    {
        self.hz
    }

    /// The greatest rate with a whole spacing that is at most this one, in requests a second: the one to take for a limit.
    /// `None` for a rate of 0.
    pub fn rate_at_most(self, rate: u32) -> Option<u32>
        ensures found { IfSome result (IsGreatestAtMost self.hz rate) }
        ensures none { IsNone result ↔ (rate ≡ 0) }
    {
        rates::rate_at_most(self.hz(), rate)
    }

    /// The least rate with a whole spacing that is at least this one, in requests a second: the one to take for a reservation.
    /// `None` for a rate of 0 and one past `hz`.
    pub fn rate_at_least(self, rate: u32) -> Option<u32>
        ensures found { IfSome result (IsLeastAtLeast self.hz rate) }
        ensures none { IsNone result ↔ (rate ≡ 0) ⊎ (self.hz < rate) }
    {
        rates::rate_at_least(self.hz(), rate)
    }

    /// The age in ticks from which a clean marks a client idle.
    pub fn idle_age(self) -> u64
        ensures value { result ≡ self.idle_age }
        ensures some { 0 < result }
        ensures in_order { result ≤ self.erase_age }
    {
        self.idle_age
    }

    /// The age in ticks from which a clean erases a client.
    pub fn erase_age(self) -> u64
        ensures value { result ≡ self.erase_age }
        ensures limit { result ≤ max_moment }
    {
        self.erase_age
    }

    /// What is done at the limit.
    pub fn at_limit(self) -> AtLimit
        ensures value { result ≡ self.at_limit }
        ensures limit { threshold_of self.at_limit ≤ max_moment }
    {
        self.at_limit
    }

    /// In which time shares are compared.
    pub fn shares(self) -> Shares
        ensures { result ≡ self.shares }
    {
        self.shares
    }
}

/// How long a request may wait for its limit; 0 if nothing is refused for it.
fn threshold_of(at_limit: AtLimit) -> u64
    ensures { result ≡ threshold_of at_limit }
{
    match at_limit {
        AtLimit::Wait | AtLimit::Allow => 0,
        AtLimit::Reject { threshold } => threshold,
    }
}
