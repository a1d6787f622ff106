//! Virtual time: how far the service has come, if shares are in virtual time.
ghost use Rattle.std.specs.Prelude.{◌≡◌};
ghost use Rattle.dmc_tag.specs.Rules as rules_of;
ghost use Rattle.dmc_tag.specs.State.{no_progress};
ghost use Rattle.dmc_types.specs.declared.config.PhaseType.TheVariants as phases;

use crate::plain::Progress;
use crate::tag::Tag;
use dmc_types::config::Shares;
use dmc_types::moment::Moment;

/// Before any request has come.
pub fn no_progress<T: Tag>() -> Progress<T>
    ensures { result ≡ no_progress T.ops }
{
    let zero = T::of_moment(Moment::zero());
    Progress {
        virtual_time: zero,
        furthest: zero,
    }
}

/// The virtual time when a request arrives: if nothing is queued, it goes on to the furthest P.
fn virtual_at<T: Tag>(progress: &Progress<T>, nothing_queued: bool) -> T
    ensures { result ≡ rules_of.virtual_at T.ops nothing_queued progress.now }
{
    if nothing_queued {
        return progress.virtual_time.max(progress.furthest);
    }
    progress.virtual_time
}

/// What the P of a request is compared with that arrives at t: by the clock t, in virtual time how far the service has come.
pub fn share_floor<T: Tag>(shares: Shares, progress: &Progress<T>, nothing_queued: bool, t: T) -> T
    ensures { result ≡ rules_of.floor_by T.ops shares nothing_queued progress.now t }
{
    match shares {
        Shares::Clock => t,
        Shares::Virtual => virtual_at(progress, nothing_queued),
    }
}

/// Counts the arrival of a request with this P. By the clock nothing changes.
pub fn count_arrival<T: Tag>(
    shares: Shares,
    progress: &mut Progress<T>,
    nothing_queued: bool,
    share: T,
)
    ensures { progress.new ≡ rules_of.progress_added T.ops shares nothing_queued share progress.old }
{
    if let Shares::Virtual = shares {
        progress.virtual_time = virtual_at(progress, nothing_queued);
        progress.furthest = progress.furthest.max(share);
    }
}

/// Counts a grant by weight of a request with this P. By the clock nothing changes.
pub fn count_grant<T: Tag>(shares: Shares, progress: &mut Progress<T>, share: T)
    ensures { progress.new ≡ rules_of.progress_granted T.ops phases.Priority shares share progress.old }
{
    if let Shares::Virtual = shares {
        progress.virtual_time = progress.virtual_time.max(share);
    }
}
