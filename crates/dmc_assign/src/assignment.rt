//! The tags of a client's next request.
ghost use Rattle.std.specs.Prelude.{◌≡◌, ℕ, IfSome, Ok};
ghost use Rattle.dmc_client.specs.Record.{client_of};
ghost use Rattle.dmc_tag.specs.Order.{AreNext, NotBelow};
ghost use Rattle.dmc_tag.specs.Outcome.{in_range};
ghost use Rattle.dmc_tag.specs.Rules as rules_of;
ghost use Rattle.dmc_tag.specs.Spacing.{spacings_of};
ghost use Rattle.dmc_types.specs.Values.{Params};
ghost use Rattle.dmc_types.specs.declared.ids.ClientId.{ClientId};

use dmc_client::record::ClientRec;
use dmc_tag::assignment::{next_tags, slack_of};
use dmc_tag::plain::Slack;
use dmc_tag::reply::Tags;
use dmc_tag::tag::Tag;
use dmc_types::params::ReqParams;

/// The tags of a request of this client that arrives at t: R and L are max(previous + k*spacing, t), with k = rho for R and delta
/// for L, and P is max(previous + delta*spacing, floor), where the floor is t by the clock (mClock's Algorithm 1, with dmClock's
/// counts). `None` if a sum is no value. They may be pushed.
pub fn tags_for<T: Tag>(rec: &ClientRec<T>, params: ReqParams, t: T, floor: T) -> Option<Tags<T>>
    ensures value { in_range result ≡ rules_of.next_tags T.ops rec.now.spacings rec.now.previous params t floor }
    ensures follows { IfSome result (AreNext T.ops rec.now.info rec.now.previous) }
    ensures assigned { (hz : ℕ) (id : ClientId) → spacings_of T.ops hz rec.now.info ≡ Ok rec.now.spacings →
        in_range result ≡ rules_of.assigned T.ops hz (client_of id rec.now) params t floor }
{
    next_tags(rec.spacings(), rec.previous(), params, t, floor)
}

/// The slack of a request that arrives at t with these tags: how far each may fall by cancels (extension).
pub fn slack_for<T: Tag>(rec: &ClientRec<T>, tags: Tags<T>, t: T, floor: T) -> Slack<T>
    ensures value { result ≡ rules_of.slack_of T.ops rec.now.previous tags t floor }
    ensures not_below { (params : Params) → rules_of.next_tags T.ops rec.now.spacings rec.now.previous params t floor ≡ Ok tags → NotBelow T.ops result }
{
    slack_of(rec.previous(), tags, t, floor)
}
