ghost use Rattle.std.specs.Prelude.{◌≡◌};
ghost use Rattle.geo_script.specs.declared.fault.ScriptRefusal.TheVariants as refusal;

use geo_base::NoMemory;
use std::alloc::{AllocError, AllocFailed};

/// What is wrong with a line of a script.
#[derive(Clone, Copy, Debug, PartialEq, Eq)]
pub enum ScriptKind {
    /// The script has more than [`geo_base::limits::SCRIPT_BYTES`] bytes; the line is 0.
    TooLong,
    /// The line is no UTF-8.
    NotUtf8,
    /// Line 1 doesn't name the form that is wanted, line 2 isn't `regions` and one more word, or one of the
    /// two is missing.
    BadHeader,
    /// Above the line `begin`, a `table` line that spells no table, or one that can't stand beside the tables
    /// above it.
    BadTable,
    /// Above the line `begin`, an `index` line that spells no index, or none that a table above it can have.
    BadIndex,
    /// There is no line `begin`; the line is the one after the last.
    MissingBegin,
    /// There is no such line at this place: words that no line has there (another first word, another word
    /// where `sealing`, `kept`, `lost` or `after` stands, a wrong number of words), an empty word, an event
    /// above the line `begin`, a declaration below it, or a second crash of a region in a run.
    BadLine,
    /// A number is misspelt or out of its range.
    BadNumber,
    /// A statement of more than [`crate::limits::STATEMENT_BYTES`] bytes.
    LongStatement,
    /// The line is of one session more than a run may have.
    TooManySessions,
}

/// The first bad line of a script, counted from 1, and what is wrong with it.
#[derive(Clone, Copy, Debug, PartialEq, Eq)]
pub struct ScriptFault {
    /// Counted from 1; 0 where the whole text is too long, and the line after the last where one is missing.
    pub line: u32,
    /// The first thing that is wrong with the line.
    pub kind: ScriptKind,
}

/// Why no script was read.
#[derive(Clone, Copy, Debug, PartialEq, Eq)]
pub enum ScriptRefusal {
    /// The bytes are no script.
    Script(ScriptFault),
    /// There was no memory for what was read.
    NoMemory,
}

impl From<NoMemory> for ScriptRefusal {
    ghost from_gives = { λ _ fault. fault ≡ refusal.NoMemory };

    fn from(_e: NoMemory) -> ScriptRefusal {
        ScriptRefusal::NoMemory
    }
}

impl From<AllocError> for ScriptRefusal {
    ghost from_gives = { λ _ fault. fault ≡ refusal.NoMemory };

    fn from(_e: AllocError) -> ScriptRefusal {
        ScriptRefusal::NoMemory
    }
}

impl<T: Drop> From<AllocFailed<T>> for ScriptRefusal {
    ghost from_gives = { λ _ fault. fault ≡ refusal.NoMemory };

    fn from(_e: AllocFailed<T>) -> ScriptRefusal {
        ScriptRefusal::NoMemory
    }
}

impl From<ScriptFault> for ScriptRefusal {
    ghost from_gives = { λ e fault. fault ≡ refusal.Script e };

    fn from(e: ScriptFault) -> ScriptRefusal {
        ScriptRefusal::Script(e)
    }
}

/// The line with this number is the first bad one.
pub(crate) fn bad(line: u32, kind: ScriptKind) -> ScriptRefusal
    ensures { result ≡ refusal.Script (record { line = line; kind = kind }) }
{
    ScriptRefusal::Script(ScriptFault { line, kind })
}
