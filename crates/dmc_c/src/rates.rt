//! The calls on rates and clocks, which hold nothing.
ghost use Rattle.std.specs.Prelude.{◌≡◌, ℕ, Result};
ghost use Rattle.dmc_c.specs.Codes.{code_of};
ghost use Rattle.dmc_c.specs.Rates.{FindsAtLeast, FindsAtMost, ReadsClock, WaitsFor, WaitsForMoment, from_halves};
ghost use Rattle.dmc_c.specs.internal.Rates.{hz_of};
ghost use Rattle.dmc_c.specs.Outputs.{value_or_old};
ghost use Rattle.dmc_c.specs.declared.fault.Fault.{Fault};

use crate::fault::{Fault, code_of};
use crate::outputs::write_value;
use dmc_types::clock::nanos_until;
use dmc_types::limits::MAX_HZ;
use dmc_types::moment::Moment;
use dmc_types::rates::{rate_at_least, rate_at_most};
use dmc_types::refusal::ValueFault;

/// The ticks a second that a number names.
fn checked_hz(hz: u64) -> Result<u32, Fault>
    ensures { result ≡ hz_of hz }
{
    if hz == 0 || hz > MAX_HZ {
        return Err(Fault::Value(ValueFault::Config));
    }
    Ok(hz as u32)
}

fn find_at_most(hz: u64, rate: u32) -> Result<u32, Fault>
    ensures { FindsAtMost hz rate result }
{
    let hz = checked_hz(hz)?;
    rate_at_most(hz, rate).ok_or(Fault::Value(ValueFault::Rate))
}

fn find_at_least(hz: u64, rate: u32) -> Result<u32, Fault>
    ensures { FindsAtLeast hz rate result }
{
    let hz = checked_hz(hz)?;
    rate_at_least(hz, rate).ok_or(Fault::Value(ValueFault::Rate))
}

fn read_clock(hz: u64, nanos: u64) -> Result<u64, Fault>
    ensures { ReadsClock hz nanos result }
{
    let hz = checked_hz(hz)?;
    match Moment::from_nanos(hz, nanos) {
        Some(moment) => Ok(moment.ticks()),
        None => Err(Fault::Value(ValueFault::Moment)),
    }
}

fn wait_for(hz: u64, ticks: u128) -> Result<u64, Fault>
    ensures { WaitsFor hz ticks result }
{
    let hz = checked_hz(hz)?;
    nanos_until(hz, ticks).ok_or(Fault::Value(ValueFault::Moment))
}

fn wait_for_moment(hz: u64, moment: u64) -> Result<u64, Fault>
    ensures { WaitsForMoment hz moment result }
{
    let hz = checked_hz(hz)?;
    let moment = Moment::new(moment)?;
    moment.to_nanos(hz).ok_or(Fault::Value(ValueFault::Moment))
}

/// The greatest divisor of hz at most a rate: `DMC_BAD_CONFIG`, `DMC_BAD_RATE` for a rate of 0.
#[unsafe(no_mangle)]
pub extern "C" fn dmc_rate_at_most(hz: u64, rate: u32, found: &mut u32) -> u32
    ensures { (answer : Result ℕ Fault) × FindsAtMost hz rate answer × (result ≡ code_of answer)
        × (found.new ≡ value_or_old answer found.old) }
{
    let answer = find_at_most(hz, rate);
    write_value(&answer, found);
    code_of(&answer)
}

/// The least divisor of hz at least a rate: `DMC_BAD_CONFIG`, `DMC_BAD_RATE` for a rate of 0 and one past hz.
#[unsafe(no_mangle)]
pub extern "C" fn dmc_rate_at_least(hz: u64, rate: u32, found: &mut u32) -> u32
    ensures { (answer : Result ℕ Fault) × FindsAtLeast hz rate answer × (result ≡ code_of answer)
        × (found.new ≡ value_or_old answer found.old) }
{
    let answer = find_at_least(hz, rate);
    write_value(&answer, found);
    code_of(&answer)
}

/// The moment of a clock in nanoseconds: `DMC_BAD_CONFIG`, `DMC_BAD_MOMENT` past 2^62.
#[unsafe(no_mangle)]
pub extern "C" fn dmc_moment_from_nanos(hz: u64, nanos: u64, moment: &mut u64) -> u32
    ensures { (answer : Result ℕ Fault) × ReadsClock hz nanos answer × (result ≡ code_of answer)
        × (moment.new ≡ value_or_old answer moment.old) }
{
    let answer = read_clock(hz, nanos);
    write_value(&answer, moment);
    code_of(&answer)
}

/// The least nanoseconds after which a moment has come: `DMC_BAD_CONFIG`, `DMC_BAD_MOMENT`.
#[unsafe(no_mangle)]
pub extern "C" fn dmc_nanos_from_moment(hz: u64, moment: u64, nanos: &mut u64) -> u32
    ensures { (answer : Result ℕ Fault) × WaitsForMoment hz moment answer × (result ≡ code_of answer)
        × (nanos.new ≡ value_or_old answer nanos.old) }
{
    let answer = wait_for_moment(hz, moment);
    write_value(&answer, nanos);
    code_of(&answer)
}

/// The same of the 128 bits at which a pull says that a request is due: `DMC_BAD_CONFIG`, `DMC_BAD_MOMENT`.
#[unsafe(no_mangle)]
pub extern "C" fn dmc_nanos_from_due(hz: u64, due_low: u64, due_high: u64, nanos: &mut u64) -> u32
    ensures { (answer : Result ℕ Fault) × WaitsFor hz (from_halves due_low due_high) answer × (result ≡ code_of answer)
        × (nanos.new ≡ value_or_old answer nanos.old) }
{
    let due = (u128::from(due_high) << 64) + u128::from(due_low);
    let answer = wait_for(hz, due);
    write_value(&answer, nanos);
    code_of(&answer)
}
