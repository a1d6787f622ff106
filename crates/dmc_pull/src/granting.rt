//! A pull with a test of the caller.
ghost use Rattle.std.specs.Prelude.{◌≡◌, Bool, true};
ghost use Rattle.dmc_types.specs.declared.config.PhaseType.{PhaseType as Phase};
ghost use Rattle.dmc_types.specs.declared.ids.ClientId.{ClientId as Client};

use dmc_types::config::PhaseType;
use dmc_types::ids::ClientId;
use dmc_types::refusal::Refusal;
use thiserror::Error;

/// A test that a pull makes before it grants (extension).
pub trait GrantTest {
    /// Whether a client may get a grant in a phase.
    ghost allows: { Self → Client → Phase → Bool };

    /// Whether the client may get a grant in this phase. `hint` is the client's index in order of registration as long as no
    /// client is erased: a test that has clients in that order may look there first.
    fn allows(&self, client: ClientId, phase: PhaseType, hint: usize) -> bool
        ensures { result ≡ allows self.now client phase };
}

/// The test that every grant passes.
#[derive(Drop)]
pub struct AllowAll;

impl GrantTest for AllowAll {
    ghost allows = { λ s client phase. true };

    fn allows(&self, _client: ClientId, _phase: PhaseType, _hint: usize) -> bool {
        true
    }
}

/// The reason why a pull with a test fails. Nothing has changed.
#[derive(Clone, Copy, Debug, PartialEq, Eq, Error)]
pub enum PullFault {
    /// The rules refuse the pull.
    #[error("{0}")]
    Refused(Refusal),
    /// The rules grant a request whose client and phase the test does not allow.
    #[error("the grant is not allowed")]
    Declined,
}
