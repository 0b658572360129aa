ghost use Rattle.std.specs.Prelude.{◌≡◌};

use geo_base::{Epoch, Outcome};
use std::marker::Model;

/// The outcomes of one epoch's candidates. Only the end of a round makes it.
#[derive(Debug, Drop)]
pub struct Judged {
    pub(crate) epoch: Epoch,
    pub(crate) outcomes: Vec<Outcome>,
}

impl Model for Judged {
    ghost use Rattle.merge_round.specs.Gathers.{Decided};

    ghost Value = { Decided };

    ghost view = { λ j. record { epoch = j.epoch; outcomes = j.outcomes.items } };
}

impl Judged {
    /// The epoch.
    pub fn epoch(&self) -> Epoch
        ensures { result ≡ self.now.epoch }
    {
        self.epoch
    }

    /// What became of each candidate, by region and then commit number.
    pub fn outcomes(&self) -> &[Outcome]
        ensures { result.now ≡ self.now.outcomes }
    {
        self.outcomes.as_slice()
    }
}
