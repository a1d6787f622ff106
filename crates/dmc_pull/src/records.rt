//! Reads and changes of one client's record.
ghost use Rattle.std.specs.Prelude.{◌≡◌, ◌==◌, ◌&&◌, not, true, [], Some, IfSome, OnOk, OnErr, is_some, slice_get, length};
ghost use Rattle.std.specs.Option.{option_map, option_and_then};
ghost use Rattle.dmc_adjust.specs.Changes as changes;
ghost use Rattle.dmc_client.specs.Record as record_of;
ghost use Rattle.dmc_client.specs.Record.{IsRecord};
ghost use Rattle.dmc_tag.specs.Order.{AreNext, AreSpacings};
ghost use Rattle.dmc_tag.specs.Rules.{changes_reservation};
ghost use Rattle.dmc_pull.specs.internal.Choice.{after_grant};
ghost use Rattle.dmc_roster.specs.Entries.{entry_keyed, record_at, with_record_at, AreDistinct};

use dmc_client::record::ClientRec;
use dmc_roster::roster::Roster;
use dmc_tag::plain::QueuedRequest;
use dmc_tag::reply::Tags;
use dmc_tag::spacing::Spacings;
use dmc_tag::tag::Tag;
use dmc_types::info::ClientInfo;
use dmc_types::moment::Moment;
use std::alloc::AllocError;

/// Whether new rates would give or take the reservation of a client that has requests queued.
pub fn is_busy<T: Tag>(rec: &ClientRec<T>, info: ClientInfo) -> bool
    ensures { result ≡ (changes_reservation rec.now.info info && not (length rec.now.requests == 0)) }
{
    let changes = rec.info().reservation().is_some() != info.reservation().is_some();
    changes && !rec.is_empty()
}

/// The tags of the client's first request.
pub fn first_tags<T: Tag>(rec: &ClientRec<T>) -> Option<Tags<T>>
    ensures { result ≡ option_map (λ r. r.tags) (slice_get rec.now.requests 0) }
{
    match rec.head() {
        None => None,
        Some(request) => Some(request.tags),
    }
}

/// Removes the client's first request, and takes an amount off its R tags.
// Inlined: callers read a part of the request, and need no copy of it.
#[inline(always)]
pub fn grant_first<T: Tag>(rec: &mut ClientRec<T>, amount: Option<T>) -> Option<QueuedRequest<T>>
    requires { changes.is_reducible T.ops amount (changes.popped rec.old) ≡ true }
    ensures value { result ≡ slice_get rec.old.requests 0 }
    ensures rest { rec.new ≡ after_grant T.ops amount rec.old }
    ensures kept { IsRecord T.ops rec.new }
{
    let request = rec.pop();
    if let Some(amount) = amount {
        rec.subtract_from_reservations(amount);
    }
    request
}
