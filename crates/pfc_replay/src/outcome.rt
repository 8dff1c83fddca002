ghost use Rattle.std.specs.Prelude.{◌≡◌};
ghost use Rattle.pfc_replay.specs.Outcome.{outcome_of, status_of};

use pfc_config::{ConfigRefusal, Kind};
use pfc_report::Report;

/// What of the outside failed.
#[derive(Clone, Copy, Debug, PartialEq, Eq)]
pub enum Part {
    /// The configuration's source.
    Config,
    /// The schedule's source.
    Schedule,
    /// The listing of the depot.
    Depot,
    /// The link of this number.
    Link(u32),
}

/// What a run comes to, before its text is written.
#[derive(Drop)]
pub enum Outcome {
    /// The schedule was run.
    Report(Report),
    /// The words are not of the form.
    Usage,
    /// The configuration is refused for this line, 0 for its length.
    Config { line: u32, kind: Kind },
    /// The schedule is refused for this line, 0 for its length.
    Schedule { line: u64 },
    /// The outside failed.
    Fault(Part),
}

impl From<ConfigRefusal> for Outcome {
    ghost from_gives = { λ refusal outcome. outcome ≡ outcome_of refusal };

    fn from(refusal: ConfigRefusal) -> Self {
        match refusal {
            ConfigRefusal::Bad { line, kind } => Outcome::Config { line, kind },
        }
    }
}

impl Outcome {
    /// The exit status.
    pub fn status(&self) -> u8
        ensures { result ≡ status_of self.now }
    {
        match self {
            Outcome::Report(_) => 0,
            Outcome::Usage => 1,
            Outcome::Config { .. } => 2,
            Outcome::Schedule { .. } => 2,
            Outcome::Fault(_) => 3,
        }
    }
}
