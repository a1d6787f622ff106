//! What a run was opened with, which the locks of its servers and of its clients' trackers keep.
ghost use Rattle.dmc_scene.specs.SceneValue.{SceneValue};
ghost use Rattle.dmc_driver_threads.specs.LimitsValue.{LimitsValue};
ghost use Rattle.dmc_driver_threads.specs.Opened.{IsOpenedBook, IsOpenedTracker, opened_stays, tracker_stays};
ghost use Rattle.dmc_driver_threads.specs.internal.Origins.{no_limits, no_scene};

use dmc_book::book::QueueBook;
use dmc_index::index::Indexes;
use dmc_ledger::setup::Setup;
use dmc_qlock::lock::LockedQueue;
use dmc_shared::witness::Witness;
use dmc_tag::tag::Tag;
use dmc_tlock::book::TrackerBook;
use dmc_tlock::lock::LockedTracker;
use std::marker::{Brand, PhantomData};

/// A set-up in which one run is opened: of this scene, and within these limits. Proofs alone know them. Whoever opens the set-up
/// picks them with its name, at `std::marker::Brand`.
pub trait Origin: Setup {
    ghost scene: { SceneValue };

    ghost limits: { LimitsValue };
}

impl Origin for Brand {
    ghost scene = { no_scene };

    ghost limits = { no_limits };
}

/// Lies beside a server's book or a client's tracker behind its lock, and says what that was opened with: that nothing was
/// released, too. So these locks have no `rotate`.
#[derive(Drop)]
pub(crate) struct AsOpened<S: Origin> {
    of: PhantomData<S>,
}

impl<S: Origin> AsOpened<S> {
    pub(crate) fn new() -> AsOpened<S> {
        AsOpened { of: PhantomData }
    }
}

impl<T: Tag, I: Indexes<T>, S: Origin> Witness<QueueBook<T, I, S>> for AsOpened<S> {
    ghost holds = { λ _ book. IsOpenedBook S.scene S.limits book };

    ghost stays = { λ _ old new later held. opened_stays S.scene S.limits old new later held };
}

impl<S: Origin> Witness<TrackerBook<S>> for AsOpened<S> {
    ghost holds = { λ _ book. IsOpenedTracker S.scene S.limits book };

    ghost stays = { λ _ old new later held. tracker_stays S.scene S.limits old new later held };
}

/// A server's book behind its lock.
pub(crate) type ServerLock<T, I, S> = LockedQueue<QueueBook<T, I, S>, AsOpened<S>>;

/// A client's tracker behind its lock.
pub(crate) type ClientLock<S> = LockedTracker<TrackerBook<S>, AsOpened<S>>;
