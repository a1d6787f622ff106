//! Which clients a clean marks and erases.
ghost use Rattle.std.specs.Prelude.{◌≡◌, ◌≤◌, ◌&&◌, not, length, filter, vec_len};
ghost use Rattle.dmc_tag.specs.Rules as rules_of;

use crate::client::Client;
use dmc_types::moment::Moment;

/// How many clients become idle: not idle before, and not erased.
pub fn count_idled<T>(clients: &[Client<T>], at: Moment, idle_age: u64, erase_age: u64) -> usize
    ensures value { result ≡ length (filter (λ c. not (rules_of.is_stale at erase_age c) && rules_of.is_stale at idle_age c && not c.idle) clients.now) }
    ensures bound { result ≤ length clients.now }
{
    let mut count: usize = 0;
    for client in clients {
        if is_idled(client, at, idle_age, erase_age) {
            count += 1;
        }
    }
    count
}

fn is_idled<T>(client: &Client<T>, at: Moment, idle_age: u64, erase_age: u64) -> bool
    ensures { result ≡ (not (rules_of.is_stale at erase_age client.now) && rules_of.is_stale at idle_age client.now && not client.now.idle) }
{
    !client.is_stale(at, erase_age) && client.is_stale(at, idle_age) && !client.is_idle()
}

/// How many clients are erased.
pub fn count_erased<T>(clients: &[Client<T>], at: Moment, erase_age: u64) -> usize
    ensures value { result ≡ length (filter (rules_of.is_stale at erase_age) clients.now) }
    ensures bound { result ≤ length clients.now }
{
    let mut count: usize = 0;
    for client in clients {
        if client.is_stale(at, erase_age) {
            count += 1;
        }
    }
    count
}

/// Erases the clients that are old.
pub fn erase<T: Drop>(clients: &mut Vec<Client<T>>, at: Moment, erase_age: u64)
    ensures items { clients.new.items ≡ filter (λ c. not (rules_of.is_stale at erase_age c)) clients.old.items }
    ensures bound { vec_len clients.new ≤ vec_len clients.old }
{
    clients.retain(|client| !client.is_stale(at, erase_age));
}
