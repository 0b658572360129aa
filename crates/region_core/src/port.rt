//! A region as a session reaches it.
ghost use Rattle.std.specs.Prelude.{◌≡◌, ℕ, IfOk, OnOk};
ghost use Rattle.write_set.specs.declared.candidate.Candidate.{Candidate};
ghost use Rattle.write_set.specs.Overlay.{Table};
ghost use Rattle.snap_view.specs.Snapshots.{rows_of};
ghost use Rattle.region_core.specs.declared.ticket.Ticket.{Ticket};
ghost use Rattle.region_core.specs.Region.{RegionValue};
ghost use Rattle.region_core.specs.Calls.{Tells};
ghost use Rattle.region_core.specs.Ports.{Meets, Begins, ReadsEpoch, SubmitsBy, KeepsGiven, KeepsRight, KeepsTold, IsTaken};

use crate::port_fault::{PortAsOfFault, PortFault, PortSubmitFault};
use crate::region::Region;
use crate::ticket::Ticket;
use crate::told::{Polled, Told};
use geo_base::{Duplicate, NoMemory};
use snap_view::Snapshot;
use std::alloc::Global;
use write_set::Candidate;

/// A region as a session reaches it, which may be one that others use too: between two calls it may then move on.
///
/// Each call meets the region in a state that may have come after the one that the call before left, answers what the
/// region's own call answers there, and leaves the state that this call leaves. A call that names a life is refused as
/// gone, before all else, exactly where the region is in another one.
pub trait Port {
    /// The region's state as the last call left it.
    ghost state: { Self → RegionValue };

    /// What may have become of the region, from a state that a call left, when the next call meets it.
    ghost may_come: { RegionValue → RegionValue → Type 0 };

    /// The starts that were given: the life, the epoch, and the rows of its snapshot.
    ghost given: { Self → ℕ → ℕ → Table → Type 0 };

    /// Which candidates are right for the rows of their start.
    ghost right: { Self → Table → Candidate → Type 0 };

    /// The tickets that it tells of.
    ghost tells: { Self → Ticket → Type 0 };

    /// How often the region has crashed.
    fn life(&mut self) -> u64
        ensures call { Meets may_come (state self.old) (λ met. (result ≡ met.standing.life) × (state self.new ≡ met)) }
        ensures given { KeepsGiven (given self.old) (given self.new) }
        ensures right { KeepsRight (right self.old) (right self.new) }
        ensures tells { KeepsTold (tells self.old) (tells self.new) };

    /// Whether the region is up.
    fn up(&mut self) -> bool
        ensures call { Meets may_come (state self.old) (λ met. (result ≡ met.standing.up) × (state self.new ≡ met)) }
        ensures given { KeepsGiven (given self.old) (given self.new) }
        ensures right { KeepsRight (right self.old) (right self.new) }
        ensures tells { KeepsTold (tells self.old) (tells self.new) };

    /// The snapshot of the published epoch, which is given as a start from now on.
    fn begin(&mut self, alloc: Global, life: u64) -> Result<Snapshot, PortFault>
        ensures call { Meets may_come (state self.old) (λ met. Begins life met result (state self.new)) }
        ensures start { IfOk result (λ snapshot. given self.new life snapshot.epoch (rows_of snapshot)) }
        ensures given { KeepsGiven (given self.old) (given self.new) }
        ensures right { KeepsRight (right self.old) (right self.new) }
        ensures tells { KeepsTold (tells self.old) (tells self.new) };

    /// The snapshot of an epoch from the horizon to the published one.
    fn as_of(&mut self, alloc: Global, life: u64, epoch: u64) -> Result<Snapshot, PortAsOfFault>
        ensures call { Meets may_come (state self.old) (λ met. ReadsEpoch life epoch met result (state self.new)) }
        ensures given { KeepsGiven (given self.old) (given self.new) }
        ensures right { KeepsRight (right self.old) (right self.new) }
        ensures tells { KeepsTold (tells self.old) (tells self.new) };

    /// Takes a candidate whose start was given in the life, and which is right for its rows. A refused one is handed
    /// back.
    fn submit(
        &mut self,
        alloc: Global,
        life: u64,
        candidate: Candidate,
    ) -> Result<Ticket, (PortSubmitFault, Candidate)>
        requires { IsTaken (given self.old) (right self.old) life candidate }
        ensures call { Meets may_come (state self.old) (λ met. SubmitsBy life candidate met result (state self.new)) }
        ensures ticket { IfOk result (tells self.new) }
        ensures given { KeepsGiven (given self.old) (given self.new) }
        ensures right { KeepsRight (right self.old) (right self.new) }
        ensures tells { KeepsTold (tells self.old) (tells self.new) };

    /// What became of the candidate of a ticket, where its epoch is published.
    fn told(&mut self, alloc: Global, ticket: &Ticket) -> Result<Polled, NoMemory>
        requires { tells self.old ticket.now }
        ensures call { Meets may_come (state self.old) (λ met. IfOk result (Tells met ticket.now) × (state self.new ≡ met)) }
        ensures given { KeepsGiven (given self.old) (given self.new) }
        ensures right { KeepsRight (right self.old) (right self.new) }
        ensures tells { KeepsTold (tells self.old) (tells self.new) };
}

/// A region that is lent to one session: only the port's calls change it.
impl Port for Region {
    ghost use Rattle.std.specs.Prelude.{◌≡◌};
    ghost use Rattle.region_core.specs.Calls.{IsTicketOf};
    ghost use Rattle.region_core.specs.Ports.{IsGivenBy, IsRightFor};

    ghost state = { λ r. r };

    ghost may_come = { λ left met. met ≡ left };

    ghost given = { λ r. IsGivenBy r.standing };

    ghost right = { λ r. IsRightFor r.standing };

    ghost tells = { λ r. IsTicketOf r.standing };

    fn life(&mut self) -> u64 {
        Region::life(self)
    }

    fn up(&mut self) -> bool {
        Region::up(self)
    }

    fn begin(&mut self, _alloc: Global, life: u64) -> Result<Snapshot, PortFault> {
        if life != self.life {
            return Err(PortFault::Gone);
        }
        Ok(Region::begin(self)?)
    }

    fn as_of(&mut self, _alloc: Global, life: u64, epoch: u64) -> Result<Snapshot, PortAsOfFault> {
        if life != self.life {
            return Err(PortAsOfFault::Gone);
        }
        Ok(Region::as_of(self, epoch)?)
    }

    fn submit(
        &mut self,
        _alloc: Global,
        life: u64,
        candidate: Candidate,
    ) -> Result<Ticket, (PortSubmitFault, Candidate)> {
        if life != self.life {
            return Err((PortSubmitFault::Gone, candidate));
        }
        match Region::submit(self, candidate) {
            Ok(ticket) => Ok(ticket),
            Err((fault, back)) => Err((PortSubmitFault::from(fault), back)),
        }
    }

    fn told(&mut self, alloc: Global, ticket: &Ticket) -> Result<Polled, NoMemory> {
        match self.outcome(ticket) {
            Told::Outcome(outcome) => Ok(Polled::Outcome(outcome.copy(alloc)?)),
            Told::NotYet(published) => Ok(Polled::NotYet(published)),
            Told::Gone => Ok(Polled::Gone),
        }
    }
}
