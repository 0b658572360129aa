ghost use Rattle.std.specs.Prelude.{◌≡◌};
ghost use Rattle.merge_round.specs.declared.fault.GatherFault.TheVariants as gather_fault;

use geo_base::NoMemory;

/// Why a round gave no outcomes.
#[derive(Clone, Copy, Debug, PartialEq, Eq)]
pub enum GatherFault {
    /// No seat that was given judged the candidate with this number, which is the least such one.
    Unjudged(u32),
    /// There was no memory.
    NoMemory,
}

impl From<NoMemory> for GatherFault {
    ghost from_gives = { λ _ fault. fault ≡ gather_fault.NoMemory };

    fn from(_e: NoMemory) -> GatherFault {
        GatherFault::NoMemory
    }
}
