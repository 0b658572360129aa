//! Reading the script from its source.
ghost use Rattle.std.specs.Prelude.{◌≡◌, ◌≤◌, ℕ, ◌+◌, List, Some, IfOk, MatchResult};
ghost use Rattle.geo_io.specs.Told.{LosesAtMost};
ghost use Rattle.world_script.specs.declared.script.Script.{Script};
ghost use Rattle.world_script.specs.Script.{IsScript};
ghost use Rattle.geogauss.specs.inner.Reading.{IsReadWhole, IsNotRead};

use crate::status::Status;
use geo_base::limits::SCRIPT_BYTES;
use geo_io::{IoFault, Source, read_limited};
use std::alloc::Global;
use world_script::{ReadFault, Script, read_script};

/// Reads a script. An error is the status of the call that asks for it.
pub(crate) fn take_script<S: Source>(alloc: Global, src: &mut S) -> Result<Script, Status>
    ensures script { IfOk result (λ script. IsReadWhole script (S.left src.old) (S.left src.new)) }
    ensures only { (input : List ℕ) (script : Script) → S.left src.old ≡ Some input → IsScript script input →
        IfOk result (λ found. found ≡ script) }
    ensures err { MatchResult result (λ _. Unit {0})
        (IsNotRead (S.left src.old) (S.left src.new) (S.faults src.old) (S.faults src.new)) }
    ensures taken { LosesAtMost (SCRIPT_BYTES + 1) (S.left src.old) (S.left src.new) }
    ensures later { S.faults src.old ≤ S.faults src.new }
{
    let bytes = match read_limited(alloc, src, SCRIPT_BYTES) {
        Ok(bytes) => bytes,
        Err(IoFault::Failed) => return Err(Status::ReadFault),
        Err(IoFault::NoMemory) => return Err(Status::NoMemory),
    };
    match read_script(alloc, bytes.as_slice()) {
        Ok(script) => Ok(script),
        Err(ReadFault::Script(fault)) => Err(Status::ScriptFault {
            line: fault.line,
            kind: fault.kind,
        }),
        Err(ReadFault::NoMemory) => Err(Status::NoMemory),
    }
}
