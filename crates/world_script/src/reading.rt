//! Reading the text of a script.
ghost use Rattle.std.specs.Prelude.{◌≡◌, IfOk, MatchResult, Err};
ghost use Rattle.world_script.specs.declared.script.Script.{Script};
ghost use Rattle.world_script.specs.declared.script.ScriptFault.{ScriptFault};
ghost use Rattle.world_script.specs.Script.{IsScript};
ghost use Rattle.world_script.specs.Fault.{IsFault};

mod event_line;
mod event_lines;
mod header;
mod numbers;
mod pieces;
mod statement;

use crate::script::{ReadFault, Script, ScriptFault, ScriptKind};
use event_lines::read_events;
use geo_base::limits::SCRIPT_BYTES;
use header::read_header;
use std::alloc::Global;

/// The script whose text the bytes are. A text that is none is refused at its first bad line, or as too
/// long. One pass over the bytes.
pub fn read_script(alloc: Global, bytes: &[u8]) -> Result<Script, ReadFault>
    ensures script { IfOk result (λ script. IsScript script bytes.now) }
    ensures only { (script : Script) → IsScript script bytes.now →
        MatchResult result (λ found. found ≡ script) (λ e. e ≡ ReadFault.NoMemory) }
    ensures fault { (fault : ScriptFault) → result ≡ Err (ReadFault.Script fault) → IsFault bytes.now fault }
{
    if bytes.len() > SCRIPT_BYTES {
        return Err(ReadFault::Script(ScriptFault {
            line: 0,
            kind: ScriptKind::TooLong,
        }));
    }
    let (regions, text) = read_header(bytes)?;
    let events = read_events(alloc, text, regions)?;
    Ok(Script { regions, events })
}
