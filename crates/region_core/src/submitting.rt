//! A candidate that the region takes.
ghost use Rattle.std.specs.Prelude.{◌≡◌, ◌<◌, ◌^◌};
ghost use Rattle.region_core.specs.Entries.{next_ticket};
ghost use Rattle.region_core.specs.Lawful.{IsSubmittable};
ghost use Rattle.write_set.specs.BatchSizes.{candidate_size};
ghost use Rattle.region_core.specs.Refusals.{is_full, submit_refusal};
ghost use Rattle.region_core.specs.Calls.{Submits};

use crate::cells::see_candidate;
use crate::fault::SubmitFault;
use crate::region::Region;
use crate::room::make_room;
use crate::ticket::Ticket;
use geo_base::CandId;
use geo_base::limits::{MAX_AGE, MAX_BATCH_BYTES, MAX_CANDIDATES};
use write_set::Candidate;

/// The bytes of a candidate beside those of its changes.
const CANDIDATE_HEAD: u64 = 8;

/// The bytes that a candidate adds to its batch.
fn bytes_of(candidate: &Candidate) -> u64
    ensures value { result ≡ candidate_size candidate.now }
    ensures few { result < 2 ^ 32 }
{
    CANDIDATE_HEAD + candidate.set.size()
}

impl Region {
    /// Takes a candidate into the batch that is sealed next, and answers its ticket, by which its outcome is asked for.
    /// A refused candidate is handed back. Costs a step for each of its cells, and room for one more candidate.
    pub fn submit(&mut self, candidate: Candidate) -> Result<Ticket, (SubmitFault, Candidate)>
        requires { IsSubmittable self.old.standing candidate }
        ensures { Submits candidate self.old result self.new }
    {
        if let Some(fault) = self.refusal(&candidate) {
            return Err((fault, candidate));
        }
        if make_room(&mut self.open_candidates).is_err() {
            return Err((SubmitFault::NoMemory, candidate));
        }
        see_candidate(&candidate);
        let ticket = self.next_ticket();
        self.size += bytes_of(&candidate);
        self.open_candidates.push(candidate).unwrap();
        Ok(ticket)
    }

    /// Why the candidate isn't taken, if it isn't.
    fn refusal(&self, candidate: &Candidate) -> Option<SubmitFault>
        ensures { result ≡ submit_refusal candidate.now self.now.standing }
    {
        if !self.up {
            return Some(SubmitFault::Down);
        }
        let open_epoch = self.open_epoch();
        let start = candidate.start;
        if u64::from(open_epoch) > u64::from(start) + u64::from(MAX_AGE) {
            return Some(SubmitFault::TooOld { start, open_epoch });
        }
        if self.is_full(candidate) {
            return Some(SubmitFault::BatchFull);
        }
        None
    }

    /// Whether one candidate more would be too many for the batch, or make it too long.
    fn is_full(&self, candidate: &Candidate) -> bool
        ensures { result ≡ is_full self.now.standing.open_candidates candidate.now }
    {
        self.open_candidates.len() as u64 >= u64::from(MAX_CANDIDATES)
            || self.size + bytes_of(candidate) > MAX_BATCH_BYTES
    }

    /// The ticket of the next candidate.
    fn next_ticket(&self) -> Ticket
        ensures { result ≡ next_ticket self.now.standing }
    {
        Ticket {
            id: CandId {
                epoch: self.open_epoch(),
                region: self.no,
                csn: self.open_count(),
            },
            life: self.life,
        }
    }
}
