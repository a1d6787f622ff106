//! What a tracker keeps for a server.
ghost use Rattle.std.specs.Prelude.{◌≡◌};
ghost use Rattle.dmc_types.specs.Values.{no_counts};

use crate::counts::Counts;
use dmc_types::config::Counting;

/// What was sent to the server and what was skipped there, the completions there, and the completions that its stamps count,
/// as they were at its last stamp or skip.
#[derive(Clone, Copy, Debug, PartialEq, Eq)]
pub struct ServerCounts {
    pub sent: Counts,
    pub skipped: Counts,
    pub own: Counts,
    pub mark: Counts,
}

impl ServerCounts {
    ghost use Rattle.dmc_tracker.specs.Parts.{IsPart};
    ghost use Rattle.dmc_tracker.specs.Server.{counted_at};

    /// Nothing was sent, skipped or completed.
    pub fn none() -> ServerCounts
        ensures { result ≡ record { sent = no_counts; skipped = no_counts; own = no_counts; mark = no_counts } }
    {
        ServerCounts {
            sent: Counts::none(),
            skipped: Counts::none(),
            own: Counts::none(),
            mark: Counts::none(),
        }
    }

    /// The completions that stamps to the server count, of all since the start.
    pub fn counted(&self, counting: Counting, completions: Counts) -> Counts
        requires { IsPart self.now.own completions }
        ensures { result ≡ counted_at counting completions self.now }
    {
        match counting {
            Counting::All => completions,
            Counting::Others => completions.minus(self.own),
        }
    }
}
