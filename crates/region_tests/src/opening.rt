//! Regions that are opened on logs, and logs on which none is opened.
ghost use Rattle.std.specs.Prelude.{◌<◌, ◌≤◌};

use crate::keeping::keepers_for;
use crate::telling::{standing, written};
use codec_kit::{halves, schema_named};
use geo_base::RegionNo;
use geo_base::limits::LAST_EPOCH;
use region_core::Region;
use std::alloc::Global;
use std::test::Fail;

/// What comes of opening the region, which is 0 or 1 of two, on the entries, where the calls fail so.
fn opened(alloc: Global, no: RegionNo, entries: &str, fails: &str) -> Result<String, Fail>
    requires { no < 2 }
{
    let schema = schema_named(alloc, "numbers")?;
    let mut logs = keepers_for(alloc, no, entries, fails)?;
    match Region::open(alloc, no, 2, &schema, LAST_EPOCH, &mut logs) {
        Ok(region) => {
            let told = standing(alloc, &region);
            drop(region);
            told
        }
        Err(fault) => written(alloc, fault),
    }
}

fn is_told(alloc: Global, line: &str) -> Result<bool, Fail> {
    let (asked, want) = halves(line, " => ")?;
    let (no, asked) = halves(asked, ": ")?;
    let (entries, fails) = halves(asked, " /")?;
    let no = if no == "0" { 0 } else { 1 };
    Ok(opened(alloc, no, entries.trim(), fails.trim())?.as_str() == want)
}

/// The region, its entries, the calls that fail, and what comes of it.
const OPENED: &str = "\
0:  / => true published 0 open 1 with 0 horizon 0 life 0
1:  / => true published 0 open 1 with 0 horizon 0 life 0
0: GGB2 0 #1 #0, GGB1 0 #2 #0 / => true published 0 open 3 with 0 horizon 0 life 0
1: GGB2 1 #1 #0 / => true published 0 open 2 with 0 horizon 0 life 0
0: GGB2 0 #1 #0, GGB1 0 #2 #0 / 0 => LogFault
0: GGB2 0 #1 #0, GGB1 0 #2 #0 / 1 => LogFault
0: GGB2 0 #1 #0, GGB1 0 #2 #0 / 2 => LogFault
0: GGB2 0 #1 #0, GGB1 0 #2 #0 / 3 => true published 0 open 3 with 0 horizon 0 life 0
0: GGB2 1 #1 #0 / => BadLog { entry: 0, fault: Region(1) }
1: GGB2 1 #1 #0, GGB2 1 #3 #0, GGB2 0 #3 #0 / => BadLog { entry: 1, fault: Epoch(3) }
0: GGB2 0 #1 #0, GGB2 0 #2 #0 7 / => BadLog { entry: 1, fault: Codec(Trailing(13)) }";

#[test]
fn regions_open_on_their_logs(rt: HostRuntime) -> Result<(), Fail> {
    for line in OPENED.lines() {
        if !is_told(rt.alloc(), line)? {
            return Err(Fail::new(line));
        }
    }
    Ok(())
}
