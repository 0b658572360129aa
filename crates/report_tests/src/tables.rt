//! Tests of the lines of tables.
ghost use Rattle.std.specs.Prelude.{IfOk};
ghost use Rattle.snap_view.specs.Snapshots.{HoldsIndexes};

use crate::database::database;
use crate::playing::are_lines;
use geo_report::table_lines;
use geo_schema::Schema;
use index_kit::judged_of;
use index_store::IndexStore;
use snap_view::Snapshot;
use std::alloc::Global;
use std::test::Fail;
use version_store::Versions;

/// The snapshot of a first epoch, whose batches are those of the text.
fn snapshot_of(alloc: Global, schema: &Schema, texts: &str) -> Result<Snapshot, Fail>
    ensures { IfOk result (λ snapshot. HoldsIndexes schema.now snapshot) }
{
    let judged = judged_of(alloc, 1, texts)?;
    let batches = [&judged.zero, &judged.one];
    let mut versions = Versions::empty(alloc);
    let mut index = IndexStore::empty(alloc);
    versions.keeps_order();
    versions.apply_epoch(1, &batches, judged.outcomes.as_slice())?;
    versions.keeps_order();
    index.apply(schema, &versions, &batches, judged.outcomes.as_slice())?;
    Ok(Snapshot::new(versions, index, 1))
}

/// Shows the tables after the first epochs of the lines. Fails at the first one of which something else is printed than it
/// says.
fn play(alloc: Global, schema: &Schema, lines: &str) -> Result<(), Fail> {
    for line in lines.lines() {
        let (texts, want) = line.split_once(" => ").ok_or("a line without an answer")?;
        let snapshot = snapshot_of(alloc, schema, texts)?;
        let bytes = table_lines(alloc, schema, &snapshot);
        drop(snapshot);
        if !are_lines(alloc, bytes?.as_slice(), want)? {
            return Err(Fail::new(line));
        }
    }
    Ok(())
}

/// Rows in whatever order they come, of a table behind another one's, of a hidden table, and of a candidate that aborts.
const SHOWN: &str = "\
none => table acc 0 rows / table cust 0 rows / table free 0 rows
0 1 -> 1 10 => table acc 1 rows / (1, 10) / table cust 0 rows / table free 0 rows
0 2 -> 2 - & 0 -1 -> -1 10; 0 1 -> 1 5 => table acc 3 rows / (-1, 10) / (1, 5) / (2, NULL) / table cust 0 rows / table free 0 rows
2 9 -> 9 yes & 2 8 -> 8 no => table acc 0 rows / table cust 0 rows / table free 2 rows / (8, FALSE) / (9, TRUE)
1 'it's 7 -> 7 'it's & 64 'it's -> 'it's 7 => table acc 0 rows / table cust 1 rows / (7, 'it''s') / table free 0 rows
!0 1 -> 1 10 | 0 2 -> 2 20 => table acc 1 rows / (2, 20) / table cust 0 rows / table free 0 rows";

#[test]
fn all_tables_are_shown_with_their_rows(rt: HostRuntime) -> Result<(), Fail> {
    let alloc = rt.alloc();
    let schema = database(alloc)?;
    play(alloc, &schema, SHOWN)
}

#[test]
fn no_tables_are_no_lines(rt: HostRuntime) -> Result<(), Fail> {
    let alloc = rt.alloc();
    let schema = Schema::new(alloc, Vec::new(alloc))?;
    play(alloc, &schema, "none => nothing")
}
