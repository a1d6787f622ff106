//! The report of a simulation.
ghost use Rattle.std.specs.Prelude.{◌≡◌, ◌++◌, IfOk, OnOk, flat_map, string_bytes};
ghost use Rattle.dmc_sim.specs.Texts.{client_line, client_numbers, cost_words, report_text, server_line};
ghost use Rattle.dmc_sim.specs.declared.report.SimFault.TheVariants.{Memory};

use dmc_types::ids::{ClientId, ServerId};
use dmc_types::moment::Moment;
use dmc_types::refusal::Refusal;
use std::alloc::{AllocError, Global};

/// A client's requests, in numbers.
#[derive(Clone, Copy, Debug, PartialEq, Eq)]
pub struct ClientReport {
    pub client: ClientId,
    /// The requests that it sent, at most those that the scene gives it.
    pub sent: u32,
    /// The requests that were completed: granted, and responded.
    pub completed: u64,
    /// The requests that were completed by a grant in the constraint phase.
    pub reservation: u64,
    /// The requests that were completed by a grant in the weight phase, beyond the limit or not.
    pub priority: u64,
    /// What the completed requests cost.
    pub cost: u64,
}

/// A server's requests, in numbers.
#[derive(Clone, Copy, Debug, PartialEq, Eq)]
pub struct ServerReport {
    pub server: ServerId,
    /// The requests that it granted in the constraint phase.
    pub reservation: u32,
    /// The requests that it granted in the weight phase, beyond the limit or not.
    pub priority: u32,
    /// The requests that were queued at it in the end.
    pub left: u32,
}

/// The report of a simulation.
#[derive(Drop)]
pub struct SimReport {
    /// The clients, in the scene's order.
    pub clients: Vec<ClientReport>,
    /// The servers, by number.
    pub servers: Vec<ServerReport>,
    /// The moment of the last round in ticks, 0 if there was none.
    pub end: Moment,
    /// Whether the rounds ended before all requests were completed.
    pub turns_out: bool,
    /// Whether a client of the scene has costs. Then the line of each client has the costs of its completions.
    pub with_costs: bool,
}

/// The reason why a simulation has no report.
#[derive(Clone, Copy, Debug, PartialEq, Eq)]
pub enum SimFault {
    /// A queue refused an arrival or a pull: a sum that it needs is no value of the tag type.
    Refused(Refusal),
    /// An allocation failed.
    Memory,
}

impl From<AllocError> for SimFault {
    ghost from_gives = { λ _ fault. fault ≡ Memory };

    fn from(_: AllocError) -> SimFault {
        SimFault::Memory
    }
}

/// The lines of a report: one for each client, one for each server, and `end T`, T the moment of the last round.
pub fn report_text(alloc: Global, report: &SimReport) -> Result<String, AllocError>
    ensures { IfOk result (λ text. string_bytes text ≡ report_text report.now) }
{
    let mut text = String::new(alloc);
    put_clients(&report.clients, report.with_costs, &mut text)?;
    put_servers(&report.servers, &mut text)?;
    let end = report.end.ticks();
    writeln!(text, "end {end}")?;
    Ok(text)
}

/// Adds the line of each client.
fn put_clients(rows: &[ClientReport], with_costs: bool, text: &mut String) -> Result<(), AllocError>
    ensures { OnOk result (string_bytes text.new ≡ string_bytes text.old ++ flat_map (client_line with_costs) rows.now) }
{
    for row in rows {
        put_client(row, with_costs, text)?;
    }
    Ok(())
}

/// Adds the line of a client.
fn put_client(row: &ClientReport, with_costs: bool, text: &mut String) -> Result<(), AllocError>
    ensures { OnOk result (string_bytes text.new ≡ string_bytes text.old ++ client_line with_costs row.now) }
{
    put_numbers(row, text)?;
    put_cost(with_costs, row.cost, text)?;
    writeln!(text)
}

/// Adds a client's requests, in numbers.
fn put_numbers(row: &ClientReport, text: &mut String) -> Result<(), AllocError>
    ensures { OnOk result (string_bytes text.new ≡ string_bytes text.old ++ client_numbers row.now) }
{
    let client = row.client.0;
    let sent = row.sent;
    let completed = row.completed;
    let reservation = row.reservation;
    let priority = row.priority;
    write!(
        text,
        "client {client} sent {sent} completed {completed} reservation {reservation} priority {priority}"
    )
}

/// Adds what a client's completed requests cost, if that is asked for.
pub fn put_cost(with_costs: bool, cost: u64, text: &mut String) -> Result<(), AllocError>
    ensures { OnOk result (string_bytes text.new ≡ string_bytes text.old ++ cost_words with_costs cost) }
{
    if !with_costs {
        return Ok(());
    }
    write!(text, " cost {cost}")
}

/// Adds the line of each server.
fn put_servers(rows: &[ServerReport], text: &mut String) -> Result<(), AllocError>
    ensures { OnOk result (string_bytes text.new ≡ string_bytes text.old ++ flat_map server_line rows.now) }
{
    for row in rows {
        put_server(row, text)?;
    }
    Ok(())
}

/// Adds the line of a server.
fn put_server(row: &ServerReport, text: &mut String) -> Result<(), AllocError>
    ensures { OnOk result (string_bytes text.new ≡ string_bytes text.old ++ server_line row.now) }
{
    let server = row.server.0;
    let reservation = row.reservation;
    let priority = row.priority;
    let left = row.left;
    writeln!(
        text,
        "server {server} reservation {reservation} priority {priority} left {left}"
    )
}
