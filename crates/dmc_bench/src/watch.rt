//! The time that the parts of a load take.
use crate::fault::Fault;
use std::time::Instant;

/// The moment at which a part begins.
pub fn start(rt: &HostRuntime) -> Result<Instant, Fault> {
    Ok(Instant::now(rt)?)
}

/// The nanoseconds since a start, added to those before.
pub fn add_since(rt: &HostRuntime, start: Instant, nanos: u128) -> Result<u128, Fault> {
    let taken = start.elapsed(rt)?;
    Ok(nanos.saturating_add(taken.as_nanos()))
}

/// Writes a part's name, how many calls it made, and the nanoseconds that they took.
pub fn print(rt: &HostRuntime, part: &str, calls: u32, nanos: u128) -> Result<(), Fault> {
    eprintln!(rt; "{part} {calls} {nanos}")?;
    Ok(())
}
