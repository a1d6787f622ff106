//! Reduction: a Priority grant takes a spacing for each unit of its cost off the R tags of its client, so that it does not count
//! against the reservation.
ghost use Rattle.std.specs.Prelude.{◌≡◌, ℕ, true, drop, Ok, IfOk};
ghost use Rattle.dmc_adjust.specs.Changes as changes;
ghost use Rattle.dmc_client.specs.Record.{client_of};
ghost use Rattle.dmc_tag.specs.Rules as rules_of;
ghost use Rattle.dmc_tag.specs.Spacing.{spacings_of};
ghost use Rattle.dmc_tag.specs.declared.plain.QueuedRequest.{QueuedRequest};
ghost use Rattle.dmc_types.specs.declared.ids.ClientId.{ClientId};

use dmc_client::record::ClientRec;
use dmc_tag::tag::Tag;
use dmc_types::cost::Cost;
use dmc_types::refusal::Refusal;

/// What a grant of the first request by weight takes off the R tags of all other requests and off the previous one, if that request
/// has this cost; nothing without a reservation. It is refused `Range` if the amount or a tag less it is no value. It is called
/// before that request's `pop`.
// Inlined: the amount is not copied.
#[inline(always)]
pub fn reduction_for<T: Tag>(rec: &ClientRec<T>, cost: Cost) -> Result<Option<T>, Refusal>
    ensures value { result ≡ changes.reduction_for T.ops rec.now cost }
    ensures reducible { IfOk result (λ amount. changes.is_reducible T.ops amount (changes.popped rec.now) ≡ true) }
    ensures client { (id : ClientId) (hz : ℕ) (first : QueuedRequest T) → spacings_of T.ops hz rec.now.info ≡ Ok rec.now.spacings →
        first.cost ≡ cost → result ≡ rules_of.can_grant T.ops hz (record { client = client_of id rec.now; request = first; others = drop 1 rec.now.requests }) }
{
    let Some(spacing) = rec.spacings().r else {
        return Ok(None);
    };
    let amount = spacing.steps(cost.units()).ok_or(Refusal::Range)?;
    if !rec.others_have_less_reservations(amount) {
        return Err(Refusal::Range);
    }
    Ok(Some(amount))
}
