//! The lines before the events.
ghost use Rattle.std.specs.Prelude.{◌≡◌, ◌+◌, ◌≤◌, ◌∷◌, ◌++◌, IfOk, IfErr, IfSome, IfNone};
ghost use Rattle.std.specs.Fmt.{decimal};
ghost use Rattle.world_script.specs.declared.script.ScriptKind.TheVariants.{NotBuilt};
ghost use Rattle.world_script.specs.Fault.{IsFirstBad};
ghost use Rattle.world_script.specs.inner.Reading.{HasHeader, LacksWanted, HasRegions, IsRegionsLine};

use crate::reading::numbers::number_after;
use crate::reading::pieces::{after_line, cut_at};
use crate::script::{ScriptFault, ScriptKind};
use geo_base::limits::MAX_REGIONS;

/// The number of regions, and the text behind the header.
pub fn read_header(text: &[u8]) -> Result<(u8, &[u8]), ScriptFault>
    ensures ok { IfOk result (λ header. HasHeader text.now header.0 header.1.now) }
    ensures fault { IfErr result (λ fault. (fault.kind ≡ NotBuilt) × IsFirstBad text.now fault.line) }
{
    let Some(rest) = after_line(text, b"geogauss play 1") else {
        return Err(bad_line(1));
    };
    let Some((regions, rest)) = read_regions(rest) else {
        return Err(bad_line(2));
    };
    let Some(rest) = after_line(rest, b"table kv (k INT KEY, v INT)") else {
        return Err(bad_line(3));
    };
    let Some(rest) = after_line(rest, b"begin") else {
        return Err(bad_line(4));
    };
    Ok((regions, rest))
}

/// The number of regions in the first line, and the text behind that.
fn read_regions(text: &[u8]) -> Option<(u8, &[u8])>
    ensures found { IfSome result (λ found. HasRegions text.now found.0 found.1.now) }
    ensures none { IfNone result (LacksWanted IsRegionsLine text.now) }
{
    let (line, rest) = cut_at(text, b'\n')?;
    let regions = number_after(line, b"regions ", MAX_REGIONS + 1)?;
    if regions == 0 {
        None
    } else {
        Some((regions, rest))
    }
}

/// The line of this number is the first bad one.
pub fn bad_line(line: u32) -> ScriptFault
    ensures kind { result.kind ≡ NotBuilt }
    ensures line { result.line ≡ line }
{
    ScriptFault {
        line,
        kind: ScriptKind::NotBuilt,
    }
}
