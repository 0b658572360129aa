ghost use Rattle.std.specs.Prelude.{◌≡◌};
ghost use Rattle.world_script.specs.declared.script.ReadFault.TheVariants as read_fault;

use crate::event::EventList;
use std::alloc::AllocFailed;

/// A script that was read: the number of regions, 1 to 8, and the events.
#[derive(Debug, Drop)]
pub struct Script {
    pub regions: u8,
    pub events: EventList,
}

/// What is wrong with a line of a script.
#[derive(Clone, Copy, Debug, PartialEq, Eq)]
pub enum ScriptKind {
    /// The script has more than 16,777,216 bytes; the line is 0.
    TooLong,
    /// The line is not one that can be played, or it is missing.
    NotBuilt,
}

/// The first bad line of a script, counted from 1, and what is wrong with it.
#[derive(Clone, Copy, Debug, PartialEq, Eq)]
pub struct ScriptFault {
    /// Counted from 1; 0 where the whole text is too long. A line that is missing is the one after the last.
    pub line: u32,
    /// What is wrong with the line, or with the whole text.
    pub kind: ScriptKind,
}

/// Why no script was read.
#[derive(Clone, Copy, Debug, PartialEq, Eq)]
pub enum ReadFault {
    /// The bytes are no script.
    Script(ScriptFault),
    /// There was no memory for the events. It says nothing of the bytes.
    NoMemory,
}

impl<T: Drop> From<AllocFailed<T>> for ReadFault {
    ghost from_gives = { λ _ fault. fault ≡ read_fault.NoMemory };

    fn from(_e: AllocFailed<T>) -> ReadFault {
        ReadFault::NoMemory
    }
}

impl From<ScriptFault> for ReadFault {
    ghost from_gives = { λ e fault. fault ≡ read_fault.Script e };

    fn from(e: ScriptFault) -> ReadFault {
        ReadFault::Script(e)
    }
}
