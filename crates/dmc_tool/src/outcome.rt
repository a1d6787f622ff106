//! The ways in which the program ends without a fault.
ghost use Rattle.std.specs.Prelude.{◌≡◌};
ghost use Rattle.dmc_tool.specs.Outcomes.{outcome_of, status_of};

use dmc_check::check::Verdict;

/// The way in which a tool ends without a fault.
#[derive(Clone, Copy, Debug, PartialEq, Eq)]
pub enum Outcome {
    /// All is done.
    Done,
    /// An event's reply is not the one that the rules give.
    Differs,
}

impl Outcome {
    /// The exit status: 3 for a difference, else 0.
    pub fn status(self) -> u8
        ensures { result ≡ status_of self }
    {
        match self {
            Outcome::Done => 0,
            Outcome::Differs => 3,
        }
    }
}

impl From<Verdict> for Outcome {
    ghost from_gives = { λ verdict outcome. outcome ≡ outcome_of verdict };

    fn from(verdict: Verdict) -> Outcome {
        match verdict {
            Verdict::Replays => Outcome::Done,
            Verdict::Differs(_) => Outcome::Differs,
        }
    }
}
