//! Adjustment: the P of all clients that are not idle are shifted, so that the least P is t (extension, after mClock's tag
//! adjustment).
ghost use Rattle.std.specs.Prelude.{◌≡◌, true, Some, if◌then◌else◌};
ghost use Rattle.std.specs.Option.{option_map};
ghost use Rattle.dmc_adjust.specs.Changes as changes;
ghost use Rattle.dmc_client.specs.Record.{client_of, IsRecord};
ghost use Rattle.dmc_tag.specs.Best.{Found};
ghost use Rattle.dmc_tag.specs.Outcome.{in_range};
ghost use Rattle.dmc_tag.specs.Rules as rules_of;
ghost use Rattle.dmc_types.specs.declared.ids.ClientId.{ClientId};

use dmc_client::record::ClientRec;
use dmc_tag::tag::Tag;

/// The amount that an adjustment takes off: the least P less t. `None` if that is no value.
pub fn shift_for<T: Tag>(least: T, t: T) -> Option<T>
    ensures value { result ≡ T.ops.minus least t }
    ensures shift { (found : Found T) → found.request.tags.p ≡ least →
        in_range (option_map Some result) ≡ rules_of.shift_from T.ops t (Some found) }
{
    least.minus(t)
}

/// Whether each shifted tag of the client is a value. An idle client isn't shifted.
pub fn can_shift<T: Tag>(rec: &ClientRec<T>, amount: T) -> bool
    ensures value { result ≡ changes.is_shiftable T.ops amount rec.now }
    ensures client { (id : ClientId) → result ≡ rules_of.client_can_shift T.ops amount (client_of id rec.now) }
{
    rec.is_idle() || rec.has_less_shares(amount)
}

/// Takes the amount off the P tags of the client if each stays a value, and otherwise changes nothing. Returns whether each does.
/// An idle client isn't shifted.
pub fn shift<T: Tag>(rec: &mut ClientRec<T>, amount: T) -> bool
    ensures tests { result ≡ changes.is_shiftable T.ops amount rec.old }
    ensures value { rec.new ≡ (if result then changes.shifted T.ops amount rec.old else rec.old) }
    ensures client { (id : ClientId) → result ≡ true → client_of id rec.new ≡ rules_of.shifted_client T.ops amount (client_of id rec.old) }
    ensures kept { IsRecord T.ops rec.new }
{
    rec.is_idle() || rec.subtract_from_shares(amount)
}
