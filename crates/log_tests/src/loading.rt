//! What logs are told: the batches that they spell, or their first bad entry.
ghost use Rattle.std.specs.Prelude.{◌<◌};

use crate::keeping::{accounts, keepers_of, small};
use geo_base::RegionNo;
use geo_schema::Schema;
use own_log::load_log;
use std::alloc::Global;
use std::fmt::Write;
use std::test::Fail;
use write_set::Batch;

/// How many batches there are, and of each behind a slash its region, its epoch and how many candidates it
/// has.
fn batches_text(alloc: Global, batches: &[Batch]) -> Result<String, Fail> {
    let mut out = format!(in alloc; "{}", batches.len())?;
    for batch in batches {
        let count = batch.items.items().len();
        write!(out, " / {} {} {count}", batch.region, batch.epoch)?;
    }
    Ok(out)
}

/// What the log of the words is told.
fn told(
    alloc: Global,
    schema: &Schema,
    regions: u8,
    region: RegionNo,
    words: &str,
) -> Result<String, Fail>
    requires regions { regions < 8 }
    requires region { region < 8 }
{
    let mut logs = keepers_of(alloc, region, words)?;
    match load_log(alloc, &mut logs, schema, regions, region) {
        Ok(batches) => batches_text(alloc, &batches),
        Err(fault) => Ok(format!(in alloc; "{fault:?}")?),
    }
}

/// Whether the log of the line is told what the line says.
fn is_told(alloc: Global, schema: &Schema, line: &str) -> Result<bool, Fail> {
    let (log, want) = line.split_once(" => ").ok_or("a line without an answer")?;
    let (regions, log) = log.split_once(' ').ok_or("a line without regions")?;
    let (region, words) = log.split_once(':').ok_or("a line without a region")?;
    let told = told(alloc, schema, small(regions)?, small(region)?, words)?;
    Ok(told.as_str() == want)
}

/// The number of regions, the region, its entries, and what they are told: a batch as its region, its epoch
/// and the number of its candidates. An old entry puts a row, a new one touches it.
const TOLD: &str = "\
2 0: => 0
2 0: 47474232000000000100000000 => 1 / 0 1 0
2 0: 47474231000000000100000000 47474232000000000200000000 47474231000000000300000000 => 3 / 0 1 0 / 0 2 0 / 0 3 0
1 0: 474742310000000001000000010000000000000001000101000000000000000101000000000000000a 4747423200000000020000000100000001000000010003010000000000000001 => 2 / 0 1 1 / 0 2 1
2 1: 47474232010000000100000000 47474232010000000200000000 => 2 / 1 1 0 / 1 2 0
2 0: 47474232010000000100000000 => BadLog { entry: 0, fault: Region(1) }
1 0: 47474232010000000100000000 => BadLog { entry: 0, fault: Codec(BadTag(4)) }
2 0: 47474232010000000200000000 => BadLog { entry: 0, fault: Region(1) }
2 0: 47474232000000000100000000 47474232010000000200000000 => BadLog { entry: 1, fault: Region(1) }
2 1: 47474232010000000100000000 47474232000000000200000000 => BadLog { entry: 1, fault: Region(0) }
2 0: 47474232000000000200000000 => BadLog { entry: 0, fault: Epoch(2) }
2 0: 47474232000000000100000000 47474232000000000300000000 => BadLog { entry: 1, fault: Epoch(3) }
2 0: 47474232000000000100000000 47474232000000000100000000 => BadLog { entry: 1, fault: Epoch(1) }
2 0: 4747423200fffffffd00000000 => BadLog { entry: 0, fault: Epoch(4294967293) }
2 0: 4747423200fffffffe00000000 => BadLog { entry: 0, fault: Codec(BadTag(5)) }
2 0: 47474232000000000000000000 => BadLog { entry: 0, fault: Codec(BadTag(5)) }
2 0: - => BadLog { entry: 0, fault: Codec(Short(0)) }
2 0: 47474232000000000100000000 47474232 => BadLog { entry: 1, fault: Codec(Short(4)) }
2 0: 47474232000000000100000000 474742320000000002000000 => BadLog { entry: 1, fault: Codec(Short(12)) }
2 0: 4747423200000000010000000007 => BadLog { entry: 0, fault: Codec(Trailing(13)) }
2 0: 47474232000000000100000000 47474233000000000200000000 => BadLog { entry: 1, fault: Codec(BadTag(0)) }
2 0: 47474232000000000100000000 47474232000000000200001001 => BadLog { entry: 1, fault: Codec(OverLimit(9, Candidates)) }
1 0: 4747423100000000010000000100000000000000010003010000000000000001 => BadLog { entry: 0, fault: Codec(BadTag(22)) }
2 0: 47474232000000000100000000 47474232010000000200000000 47474232 => BadLog { entry: 1, fault: Region(1) }
2 0: 47474232000000000500000000 47474232 47474232010000000300000000 => BadLog { entry: 0, fault: Epoch(5) }";

#[test]
fn logs_are_told(rt: HostRuntime) -> Result<(), Fail> {
    let schema = accounts(rt.alloc())?;
    for line in TOLD.lines() {
        assert!(rt; is_told(rt.alloc(), &schema, line)?, "{line}");
    }
    Ok(())
}
