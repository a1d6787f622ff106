//! What numbers from C say: commands and settings. The values are judged in the order moment, params, cost, rate.
ghost use Rattle.std.specs.Prelude.{◌≡◌};
ghost use Rattle.dmc_c.specs.Reading.{moment, params, cost, rate_of, rates, register_command, update_command, add_command, pull_command, cancel_command, clean_command, tag_kind, at_limit, shares, setting, config_of, counting, phase, grant_named, stamp_in, returned_into};

use crate::fault::Fault;
use crate::outputs::DmcStamp;
use dmc_tracker::tracker::TrackFault;
use dmc_types::command::Command;
use dmc_types::config::{AtLimit, Counting, PhaseType, QueueConfig, Shares, TagKind};
use dmc_types::cost::Cost;
use dmc_types::ids::{ClientId, Token};
use dmc_types::info::ClientInfo;
use dmc_types::moment::Moment;
use dmc_types::params::ReqParams;
use dmc_types::refusal::ValueFault;

/// What a queue is asked to be.
#[repr(C)]
#[derive(Clone, Copy)]
pub struct DmcConfig {
    pub hz: u64,
    pub idle_age: u64,
    pub erase_age: u64,
    pub threshold: u64,
    pub tag_kind: u32,
    pub at_limit: u32,
    pub shares: u32,
}

/// A rate, if 0 is none.
fn rate_of(rate: u32) -> Option<u32>
    ensures { result ≡ rate_of rate }
{
    if rate == 0 { None } else { Some(rate) }
}

/// The registration of a client.
#[tactic(auto, unfolding(crate::specs::Reading::moment, crate::specs::Reading::rates))]
pub fn register_command(
    client: u32,
    reservation: u32,
    weight: u32,
    limit: u32,
    at: u64,
) -> Result<Command, Fault>
    ensures { result ≡ register_command client reservation weight limit at }
{
    let at = Moment::new(at)?;
    let info = ClientInfo::new(rate_of(reservation), weight, rate_of(limit))?;
    Ok(Command::Register {
        client: ClientId(client),
        info,
        at,
    })
}

/// An update of a client's rates.
#[tactic(auto, unfolding(crate::specs::Reading::moment, crate::specs::Reading::rates))]
pub fn update_command(
    client: u32,
    reservation: u32,
    weight: u32,
    limit: u32,
    at: u64,
) -> Result<Command, Fault>
    ensures { result ≡ update_command client reservation weight limit at }
{
    let at = Moment::new(at)?;
    let info = ClientInfo::new(rate_of(reservation), weight, rate_of(limit))?;
    Ok(Command::Update {
        client: ClientId(client),
        info,
        at,
    })
}

/// A cost.
#[tactic(auto, unfolding(crate::specs::Reading::cost))]
pub fn cost(units: u32) -> Result<Cost, Fault>
    ensures { result ≡ cost units }
{
    Ok(Cost::new(units)?)
}

/// What a request carries.
#[tactic(auto, unfolding(crate::specs::Reading::params))]
pub fn stamped(delta: u32, rho: u32, units: u32) -> Result<ReqParams, Fault>
    ensures { result ≡ stamp_in delta rho units }
{
    let params = ReqParams::new(delta, rho)?;
    let cost = cost(units)?;
    Ok(params.with_cost(cost))
}

/// A request.
#[tactic(auto, unfolding(crate::specs::Reading::moment))]
pub fn add_command(
    client: u32,
    token: u32,
    delta: u32,
    rho: u32,
    cost: u32,
    at: u64,
) -> Result<Command, Fault>
    ensures { result ≡ add_command client token delta rho cost at }
{
    let at = Moment::new(at)?;
    let params = stamped(delta, rho, cost)?;
    Ok(Command::Add {
        client: ClientId(client),
        token: Token(token),
        params,
        at,
    })
}

/// A pull.
#[tactic(auto, unfolding(crate::specs::Reading::moment))]
pub fn pull_command(at: u64) -> Result<Command, Fault>
    ensures { result ≡ pull_command at }
{
    Ok(Command::Pull {
        at: Moment::new(at)?,
    })
}

/// A cancel.
pub fn cancel_command(client: u32, token: u32, form: u32) -> Result<Command, Fault>
    ensures { result ≡ cancel_command client token form }
{
    Ok(Command::Cancel {
        client: ClientId(client),
        token: Token(token),
        counting: counting(form)?,
    })
}

/// A clean.
#[tactic(auto, unfolding(crate::specs::Reading::moment))]
pub fn clean_command(at: u64) -> Result<Command, Fault>
    ensures { result ≡ clean_command at }
{
    Ok(Command::Clean {
        at: Moment::new(at)?,
    })
}

/// The tags that a number names.
pub fn tag_kind(number: u32) -> Result<TagKind, Fault>
    ensures { result ≡ tag_kind number }
{
    match number {
        0 => Ok(TagKind::Tick),
        1 => Ok(TagKind::Ratio),
        _ => Err(Fault::Value(ValueFault::Config)),
    }
}

/// What a number says of the limit. Where adds are not refused there, the threshold has to be 0.
fn at_limit(number: u32, threshold: u64) -> Result<AtLimit, Fault>
    ensures { result ≡ at_limit number threshold }
{
    match (number, threshold) {
        (2, threshold) => Ok(AtLimit::Reject { threshold }),
        (0, 0) => Ok(AtLimit::Wait),
        (1, 0) => Ok(AtLimit::Allow),
        _ => Err(Fault::Value(ValueFault::Config)),
    }
}

/// The shares that a number names.
fn shares(number: u32) -> Result<Shares, Fault>
    ensures { result ≡ shares number }
{
    match number {
        0 => Ok(Shares::Clock),
        1 => Ok(Shares::Virtual),
        _ => Err(Fault::Value(ValueFault::Config)),
    }
}

/// A configuration within its limits.
#[tactic(auto, unfolding(crate::specs::Reading::setting))]
fn setting(
    hz: u64,
    idle_age: u64,
    erase_age: u64,
    at_limit: AtLimit,
    shares: Shares,
) -> Result<QueueConfig, Fault>
    ensures { result ≡ setting hz idle_age erase_age at_limit shares }
{
    let config = QueueConfig::new(hz, idle_age, erase_age, at_limit)?;
    Ok(config.with_shares(shares))
}

/// A configuration, if numbers say what is done at the limit and in which time shares are compared.
pub fn queue_config(asked: &DmcConfig) -> Result<QueueConfig, Fault>
    ensures { result ≡ config_of asked.now }
{
    let limit = at_limit(asked.at_limit, asked.threshold)?;
    let shares = shares(asked.shares)?;
    setting(asked.hz, asked.idle_age, asked.erase_age, limit, shares)
}

/// The completions that a number names.
pub fn counting(number: u32) -> Result<Counting, Fault>
    ensures { result ≡ counting number }
{
    match number {
        0 => Ok(Counting::All),
        1 => Ok(Counting::Others),
        _ => Err(Fault::Value(ValueFault::Config)),
    }
}

/// The phase that a number names.
pub fn phase(number: u32) -> Result<PhaseType, Fault>
    ensures { result ≡ phase number }
{
    match number {
        0 => Ok(PhaseType::Reservation),
        1 => Ok(PhaseType::Priority),
        _ => Err(Fault::Phase),
    }
}

/// What a response is to: the phase of a grant, and its cost.
#[derive(Clone, Copy)]
pub struct Grant {
    pub phase: PhaseType,
    pub cost: Cost,
}

/// The grant that two numbers name.
pub fn grant_named(phase_number: u32, units: u32) -> Result<Grant, Fault>
    ensures { result ≡ grant_named phase_number units }
{
    let phase = phase(phase_number)?;
    let cost = cost(units)?;
    Ok(Grant { phase, cost })
}

/// A stamp with the counts of another one, which no server took.
pub fn with_returned(stamp: &DmcStamp, returned: &DmcStamp, form: u32) -> Result<ReqParams, Fault>
    ensures { result ≡ returned_into stamp.now returned.now form }
{
    let form = counting(form)?;
    let params = stamped(stamp.delta, stamp.rho, stamp.cost)?;
    let other = stamped(returned.delta, returned.rho, returned.cost)?;
    match params.with_returned(other, form) {
        Some(params) => Ok(params),
        None => Err(Fault::Track(TrackFault::TrackFull)),
    }
}

// The size of the header's struct.
const _: () = prove!(size_of::<DmcConfig>() == 48);
