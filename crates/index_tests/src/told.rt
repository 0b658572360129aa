//! What ranges tell, each behind what was applied and trimmed before.
use crate::playing::play;
use std::test::Fail;

const ONE_INDEX: &str = "acc|id I,owner i,amount i|0|by_owner 1";

const TWO_TABLES: &str = "\
acc|id I,owner i,amount i|0|by_both 12,by_amount 2
man|id I,name t,age i|0|by_name 1";

const WITH_UNIQUE: &str = "\
acc|id I,owner i,amount i|0|by_owner 1
unique one 1";

/// Versions 1 and 2 of row 1 have one pair, and so have 1 and 3 of row 2: version 2 of row 2 has another.
const SHARED: &str = "\
epoch 0 1 -> 1 10 5; 0 2 -> 2 10 5
ask 0 0 [10 .. [10 => (1)(2)
epoch 0 1 -> 1 10 6; 0 2 -> 2 20 5
ask 0 0 [10 .. [10 => (1)(2)
ask 0 0 [20 .. [20 => (2)
epoch 0 2 -> 2 10 7
trim 2
ask 0 0 [10 .. [10 => (1)(2)
ask 0 0 [20 .. [20 => (2)
trim 3
ask 0 0 [10 .. [10 => (1)(2)
ask 0 0 [20 .. [20 => none
epoch 0 1 x; 0 2 -> 2 30 7
trim 4
ask 0 0 [10 .. [10 => none
ask 0 0 open .. open => (2)";

#[test]
fn a_pair_stays_while_a_kept_version_has_it(rt: HostRuntime) -> Result<(), Fail> {
    play(rt.alloc(), ONE_INDEX, SHARED)
}

/// A row is found by the cells that it had after any epoch that is kept, and once.
const KEPT: &str = "\
epoch 0 1 -> 1 30 0; 0 2 -> 2 20 0; 0 3 -> 3 10 0
epoch 0 1 -> 1 5 0; 0 3 x
fork
epoch 0 1 -> 1 15 0
ask 0 0 open .. open => (1)(2)(3)
ask 0 0 [30 .. open => (1)
ask 0 0 [5 .. [15 => (1)(3)
trim 2
ask 0 0 open .. open => (1)(2)
ask 0 0 [30 .. open => none
ask 0 0 [5 .. [15 => (1)
trim 3
ask 0 0 [5 .. [10 => none
ask 0 0 [5 .. [15 => (1)
old 0 0 open .. open => (1)(2)(3)
old 0 0 [5 .. [5 => (1)
old 0 0 [15 .. [15 => none";

#[test]
fn a_range_finds_the_rows_of_all_kept_epochs(rt: HostRuntime) -> Result<(), Fail> {
    play(rt.alloc(), ONE_INDEX, KEPT)
}

/// A fork drops what was lost before it was made, as what it was made of does.
const FORK_TRIMMED: &str = "\
epoch 0 1 -> 1 10 5; 0 2 -> 2 10 5
epoch 0 1 -> 1 20 5; 0 2 x
fork
swap
trim 2
ask 0 0 [10 .. [10 => none
ask 0 0 open .. open => (1)
old 0 0 [10 .. [10 => (1)(2)
swap
trim 2
ask 0 0 [10 .. [10 => none";

#[test]
fn a_fork_drops_what_was_lost(rt: HostRuntime) -> Result<(), Fail> {
    play(rt.alloc(), ONE_INDEX, FORK_TRIMMED)
}

/// What aborts, and what is only touched, has no part in an index.
const ABORTED: &str = "\
epoch !0 1 -> 1 10 0; 0 2 -> 2 20 0
epoch 0 2 ~; !0 2 x
trim 2
ask 0 0 open .. open => (2)
epoch 0 2 x
ask 0 0 [20 .. [20 => (2)
epoch !0 9 x
trim 3
ask 0 0 [20 .. [20 => none
epoch 0 2 -> 2 20 1
trim 5
ask 0 0 [20 .. [20 => (2)";

#[test]
fn only_changes_that_commit_count(rt: HostRuntime) -> Result<(), Fail> {
    play(rt.alloc(), ONE_INDEX, ABORTED)
}

/// Candidates have several rows, and come from two regions, one of which may have none.
const TWO_REGIONS: &str = "\
epoch 0 1 -> 1 10 0 & 0 2 -> 2 20 0; !0 3 -> 3 30 0 & 0 4 -> 4 40 0 | 0 5 -> 5 10 0 & 0 6 -> 6 60 0
ask 0 0 open .. open => (1)(2)(5)(6)
ask 0 0 [10 .. [10 => (1)(5)
epoch !0 1 x | 0 1 -> 1 15 0 & 0 6 x
ask 0 0 [10 .. [15 => (1)(5)
trim 2
ask 0 0 [10 .. [10 => (5)
ask 0 0 open .. open => (1)(2)(5)
epoch 0 1 -> 1 25 0 | !0 5 x; 0 2 -> 2 25 0
trim 3
ask 0 0 open .. open => (1)(2)(5)
ask 0 0 [25 .. [25 => (1)(2)
ask 0 0 [10 .. [20 => (5)
epoch none | 0 5 -> 5 25 0
ask 0 0 [25 .. [25 => (1)(2)(5)
trim 4
ask 0 0 [10 .. [10 => none";

#[test]
fn batches_of_all_regions_are_followed(rt: HostRuntime) -> Result<(), Fail> {
    play(rt.alloc(), ONE_INDEX, TWO_REGIONS)
}

/// Row 1 loses a pair, gets it again and loses it again; row 2 loses the same one by a removal, and keeps it when it
/// has it again.
const REGAINED: &str = "\
epoch 0 1 -> 1 10 0; 0 2 -> 2 10 0
epoch 0 1 -> 1 20 0; 0 2 x
epoch 0 1 -> 1 10 1; 0 2 -> 2 10 0
epoch 0 1 -> 1 20 0
epoch 0 1 -> 1 30 0
fork
ask 0 0 [10 .. [10 => (1)(2)
ask 0 0 [20 .. [20 => (1)
";

/// One horizon passes all of these epochs.
const AT_ONCE: &str = "\
trim 5
ask 0 0 [10 .. [10 => (2)
ask 0 0 [20 .. [20 => none
ask 0 0 open .. open => (1)(2)
old 0 0 [10 .. [20 => (1)(2)
old 0 0 [20 .. [20 => (1)";

/// The horizon passes one epoch after another.
const BY_STEPS: &str = "\
trim 2
ask 0 0 [10 .. [10 => (1)(2)
ask 0 0 [20 .. [20 => (1)
trim 3
ask 0 0 [10 .. [10 => (1)(2)
ask 0 0 [20 .. [20 => (1)
trim 4
ask 0 0 [10 .. [10 => (2)
ask 0 0 [20 .. [20 => (1)
trim 5
ask 0 0 [10 .. [10 => (2)
ask 0 0 [20 .. [20 => none
ask 0 0 [30 .. [30 => (1)";

#[test]
fn a_pair_may_be_lost_and_got_again(rt: HostRuntime) -> Result<(), Fail> {
    let alloc = rt.alloc();
    for trims in [AT_ONCE, BY_STEPS] {
        play(
            alloc,
            ONE_INDEX,
            format!(in alloc; "{REGAINED}{trims}")?.as_str(),
        )?;
    }
    Ok(())
}

/// The verdicts of an epoch let no two candidates with one row commit. The store doesn't ask for it: the row is then as
/// the last of them leaves it. In two epochs a row may be changed as often.
const ONE_ROW: &str = "\
epoch 0 1 -> 1 10 0; 0 1 -> 1 20 0
ask 0 0 [10 .. [10 => none
ask 0 0 [20 .. [20 => (1)
epoch 0 1 -> 1 30 0 | 0 1 x
ask 0 0 [30 .. [30 => none
ask 0 0 [20 .. [20 => (1)
trim 2
ask 0 0 open .. open => none
epoch 0 1 -> 1 10 0
epoch 0 1 -> 1 10 5
trim 4
ask 0 0 open .. open => (1)
epoch 0 1 x; 0 1 -> 1 10 5
trim 5
ask 0 0 [10 .. [10 => (1)";

#[test]
fn a_row_is_as_the_last_of_its_changes_leaves_it(rt: HostRuntime) -> Result<(), Fail> {
    play(rt.alloc(), ONE_INDEX, ONE_ROW)
}

/// An edge is compared with the first cells of a pair, NULL stands before all else, and each index is for itself.
const EDGES: &str = "\
epoch 0 1 -> 1 10 -; 0 2 -> 2 10 1; 0 3 -> 3 10 2; 0 4 -> 4 20 1; 0 5 -> 5 - 3; 1 10 -> 10 'ann 1; 1 20 -> 20 - 2
ask 0 0 open .. open => (1)(2)(3)(4)(5)
ask 0 0 [10 .. [10 => (1)(2)(3)
ask 0 0 (10 .. open => (4)
ask 0 0 open .. (10 => (5)
ask 0 0 [10 1 .. [10 => (2)(3)
ask 0 0 (10 1 .. [20 => (3)(4)
ask 0 0 (10 - .. [10 => (2)(3)
ask 0 0 [- .. [- => (5)
ask 0 0 (- .. [10 1 => (1)(2)
ask 0 1 [1 .. [2 => (2)(3)(4)
ask 0 1 open .. (1 => (1)
ask 0 0 [20 .. [10 => none
ask 1 0 open .. open => (10)(20)
ask 1 0 ['ann .. ['ann => (10)
ask 1 0 (- .. open => (10)
ask 1 1 open .. open => none
ask 2 0 open .. open => none";

#[test]
fn edges_are_open_or_closed(rt: HostRuntime) -> Result<(), Fail> {
    play(rt.alloc(), TWO_TABLES, EDGES)
}

/// So many rows that their pairs stand on several pages.
const MANY: &str = "\
rows 1 200 7
ask 0 0 [7 63 .. [7 66 => (63)(64)(65)(66)
ask 0 1 [199 .. open => (199)(200)
ask 0 0 open .. (7 3 => (1)(2)
ask 0 0 (7 .. open => none
fork
rows 60 70 8
ask 0 0 [7 64 .. [7 65 => (64)(65)
ask 0 0 [8 68 .. [8 => (68)(69)(70)
trim 2
ask 0 0 [7 58 .. [7 72 => (58)(59)(71)(72)
ask 0 0 [8 68 .. open => (68)(69)(70)
ask 0 1 [63 .. [66 => (63)(64)(65)(66)
old 0 0 [7 63 .. [7 66 => (63)(64)(65)(66)
old 0 0 [8 .. [8 => none
epoch 0 200 x; 0 128 x
trim 3
ask 0 1 [127 .. [129 => (127)(129)
ask 0 0 (7 198 .. [7 => (199)";

#[test]
fn pairs_on_many_pages_are_found(rt: HostRuntime) -> Result<(), Fail> {
    play(rt.alloc(), TWO_TABLES, MANY)
}

/// A hidden table has no index, and its rows stand in none: they are found by their keys.
const HIDDEN: &str = "\
epoch 0 1 -> 1 10 0; 64 10 -> 10 1
epoch 0 1 -> 1 20 0; 64 10 x; 64 20 -> 20 1
ask 64 0 open .. open => none
ask 0 0 open .. open => (1)
trim 2
ask 64 0 open .. open => none
ask 0 0 [10 .. [10 => none
ask 0 0 [20 .. [20 => (1)";

#[test]
fn a_unique_has_no_pairs_of_its_own(rt: HostRuntime) -> Result<(), Fail> {
    play(rt.alloc(), WITH_UNIQUE, HIDDEN)
}
