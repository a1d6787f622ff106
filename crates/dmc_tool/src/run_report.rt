//! The text of a run's report.
ghost use Rattle.std.specs.Prelude.{◌≡◌, ◌+◌, ◌++◌, ◌<◌, IfOk, OnOk, flat_map, length, string_bytes, sum_by};
ghost use Rattle.dmc_tool.specs.ReportTexts.{client_line, client_numbers, report_text, server_line, server_lines, total_line};

use dmc_check::check::Verdict;
use dmc_settle::report::{ClientReport, ClusterReport, ServerReport};
use dmc_sim::report::put_cost;
use dmc_tag::tag::Tag;
use std::alloc::{AllocError, Global};

/// The lines of a report: one for each client, with the cost of its completed requests if that is asked for, one for each server
/// with the verdict on its history, and `total sent N completed M`.
pub fn report_text<T: Tag>(
    alloc: Global,
    with_costs: bool,
    report: &ClusterReport<T>,
    verdicts: &[Verdict],
) -> Result<String, AllocError>
    requires { length verdicts.now ≡ length report.now.servers.items }
    ensures { IfOk result (λ text. string_bytes text ≡ report_text with_costs report.now verdicts.now) }
{
    let mut text = String::new(alloc);
    put_clients(&report.clients, with_costs, &mut text)?;
    put_servers(&report.servers, verdicts, &mut text)?;
    put_total(&report.clients, &mut text)?;
    Ok(text)
}

/// Adds the line of each client.
fn put_clients(rows: &[ClientReport], with_costs: bool, text: &mut String) -> Result<(), AllocError>
    ensures { OnOk result (string_bytes text.new ≡ string_bytes text.old ++ flat_map (client_line with_costs) rows.now) }
{
    for row in rows {
        put_client(row, with_costs, text)?;
    }
    Ok(())
}

/// Adds the line of a client.
fn put_client(row: &ClientReport, with_costs: bool, text: &mut String) -> Result<(), AllocError>
    ensures { OnOk result (string_bytes text.new ≡ string_bytes text.old ++ client_line with_costs row.now) }
{
    put_numbers(row, text)?;
    put_cost(with_costs, row.cost, text)?;
    writeln!(text)
}

/// Adds a client's requests, in numbers.
fn put_numbers(row: &ClientReport, text: &mut String) -> Result<(), AllocError>
    ensures { OnOk result (string_bytes text.new ≡ string_bytes text.old ++ client_numbers row.now) }
{
    let client = row.client.0;
    let sent = row.sent;
    let completed = row.completed;
    let failed = row.failed;
    let units = row.held.stamps;
    write!(
        text,
        "client {client} sent {sent} completed {completed} failed {failed} units {units}"
    )
}

/// Adds the line of each server.
fn put_servers<T: Tag>(
    rows: &[ServerReport<T>],
    verdicts: &[Verdict],
    text: &mut String,
) -> Result<(), AllocError>
    requires { length verdicts.now ≡ length rows.now }
    ensures { OnOk result (string_bytes text.new ≡ string_bytes text.old ++ server_lines rows.now verdicts.now) }
{
    for i in 0..rows.len() {
        put_server(&rows[i], verdicts[i], text)?;
    }
    Ok(())
}

/// Adds the line of a server.
fn put_server<T: Tag>(
    row: &ServerReport<T>,
    verdict: Verdict,
    text: &mut String,
) -> Result<(), AllocError>
    ensures { OnOk result (string_bytes text.new ≡ string_bytes text.old ++ server_line row.now verdict) }
{
    let server = row.server.0;
    let left = row.left;
    let units = u128::from(row.held.reservation) + u128::from(row.held.priority);
    match verdict {
        Verdict::Replays => writeln!(text, "server {server} left {left} units {units} replays"),
        Verdict::Differs(index) => {
            writeln!(
                text,
                "server {server} left {left} units {units} differs {index}"
            )
        }
    }
}

/// Adds the line of the totals.
fn put_total(rows: &[ClientReport], text: &mut String) -> Result<(), AllocError>
    ensures { OnOk result (string_bytes text.new ≡ string_bytes text.old ++ total_line rows.now) }
{
    let sent = total_sent(rows);
    let completed = total_completed(rows);
    writeln!(text, "total sent {sent} completed {completed}")
}

/// All requests that were sent.
fn total_sent(rows: &[ClientReport]) -> u128
    ensures { result ≡ sum_by (λ r. r.sent) rows.now }
{
    let mut total = 0;
    for row in rows {
        total += u128::from(row.sent);
    }
    total
}

/// All requests that were completed.
fn total_completed(rows: &[ClientReport]) -> u128
    ensures { result ≡ sum_by (λ r. r.completed) rows.now }
{
    let mut total = 0;
    for row in rows {
        total += u128::from(row.completed);
    }
    total
}
