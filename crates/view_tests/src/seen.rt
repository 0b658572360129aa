//! What snapshots and views tell.
use crate::playing::play;
use std::test::Fail;

/// Accounts with an index of their owners, and one of their amounts and then owners; places, whose keys have two cells.
const TABLES: &str = "\
acc|id I,owner i,amount i|0|by_owner 1,by_amount 21
pos|x I,y I,size i|01|by_size 2";

/// Account 2 gets another owner in epoch 2 and account 3 is removed, account 9 is put by a candidate that aborts, and
/// account 4 comes in epoch 3. A snapshot has the rows of its epoch, also where a range of an index has pairs of others.
const EPOCHS: &str = "\
at => 0
keys 0 open .. open => none
epoch 0 1 -> 1 7 100 & 0 2 -> 2 7 50; !0 9 -> 9 7 7 | 0 3 -> 3 8 100
epoch 0 2 -> 2 8 60 & 0 3 x & 0 1 ~
epoch 0 4 -> 4 7 10
keys 0 open .. open => none
view 1
at => 1
row 0 2 => (2, 7, 50) in base
row 0 4 => none
row 0 9 => none
keys 0 open .. open => (1, 7, 100)(2, 7, 50)(3, 8, 100)
keys 0 [2 .. open => (2, 7, 50)(3, 8, 100)
keys 0 (2 .. open => (3, 8, 100)
keys 0 open .. (2 => (1, 7, 100)
keys 0 [3 .. [1 => none
index 0 0 [7 .. [7 => (1, 7, 100)(2, 7, 50)
index 0 0 [8 .. [8 => (3, 8, 100)
index 0 0 open .. open => (1, 7, 100)(2, 7, 50)(3, 8, 100)
index 0 1 [100 .. open => (1, 7, 100)(3, 8, 100)
index 0 1 [100 8 .. [100 8 => (3, 8, 100)
last 0 1 => 1
last 0 2 => 1
last 0 3 => 1
last 0 4 => 0
view 2
at => 2
row 0 2 => (2, 8, 60) in base
row 0 3 => none
keys 0 open .. open => (1, 7, 100)(2, 8, 60)
index 0 0 [7 .. [7 => (1, 7, 100)
index 0 0 [8 .. [8 => (2, 8, 60)
index 0 1 open .. (100 => (2, 8, 60)
last 0 1 => 1
last 0 2 => 2
last 0 3 => 2
last 0 4 => 0
view 3
keys 0 open .. open => (1, 7, 100)(2, 8, 60)(4, 7, 10)
index 0 0 [7 .. [7 => (1, 7, 100)(4, 7, 10)
last 0 1 => 1
last 0 2 => 2
last 0 3 => 2
last 0 4 => 3
last 0 9 => 0
trim 2
view 2
last 0 1 => 1
last 0 2 => 2
last 0 3 => 0
last 0 4 => 0";

#[test]
fn a_snapshot_has_the_rows_of_its_epoch(rt: HostRuntime) -> Result<(), Fail> {
    play(rt.alloc(), TABLES, EPOCHS)
}

/// Account 1 had owner 7 after epoch 1 and has it no more, account 2 has come to owner 7 since: a range at epoch 1 finds
/// the one by an older version than the newest, and not the other.
const OLDER: &str = "\
epoch 0 1 -> 1 7 100 & 0 2 -> 2 9 50 & 0 3 -> 3 7 1
epoch 0 1 -> 1 8 100 & 0 2 -> 2 7 50
epoch 0 1 -> 1 9 100 & 0 3 x
view 1
index 0 0 [7 .. [7 => (1, 7, 100)(3, 7, 1)
index 0 0 [8 .. [8 => none
index 0 0 [9 .. [9 => (2, 9, 50)
view 2
index 0 0 [7 .. [7 => (2, 7, 50)(3, 7, 1)
index 0 0 [8 .. [8 => (1, 8, 100)
index 0 0 [9 .. [9 => none
trim 2
view 2
index 0 0 [7 .. [7 => (2, 7, 50)(3, 7, 1)
index 0 0 [8 .. [8 => (1, 8, 100)
index 0 1 [100 8 .. [100 8 => (1, 8, 100)
index 0 1 [100 9 .. [100 9 => none
view 3
index 0 0 [7 .. [7 => (2, 7, 50)
index 0 0 [9 .. [9 => (1, 9, 100)";

#[test]
fn a_range_finds_older_versions(rt: HostRuntime) -> Result<(), Fail> {
    play(rt.alloc(), TABLES, OLDER)
}

/// A snapshot and a copy of it stay as they are while their region goes on. After the trim the versions that they read
/// are no longer kept in the region.
const STAYING: &str = "\
epoch 0 1 -> 1 7 100 & 0 2 -> 2 7 50
view 1
copy
epoch 0 1 -> 1 8 100
epoch 0 2 x
trim 3
at => 1
keys 0 open .. open => (1, 7, 100)(2, 7, 50)
index 0 0 [7 .. [7 => (1, 7, 100)(2, 7, 50)
index 0 0 [8 .. [8 => none
copy
index 0 0 open .. open => (1, 7, 100)(2, 7, 50)
view 3
keys 0 open .. open => (1, 8, 100)
index 0 0 [7 .. [7 => none
index 0 0 [8 .. [8 => (1, 8, 100)
row 0 2 => none";

#[test]
fn a_snapshot_never_changes(rt: HostRuntime) -> Result<(), Fail> {
    play(rt.alloc(), TABLES, STAYING)
}

/// Own writes: account 1 gets another owner, 2 is removed, 3 is touched, and 0, 5 and 9 are new. They are seen at their
/// places in the order of keys, and the base stays without them.
const OWN: &str = "\
epoch 0 1 -> 1 7 100 & 0 2 -> 2 7 50 & 0 3 -> 3 8 100 & 0 6 -> 6 8 20
view 1
own 0 1 -> 1 9 100 & 0 2 x & 0 3 ~ & 0 0 -> 0 7 1 & 0 5 -> 5 7 30 & 0 9 -> 9 8 2
row 0 1 => (1, 9, 100) in base
row 0 2 => none in base
row 0 3 => (3, 8, 100) in base
row 0 5 => (5, 7, 30)
row 0 4 => none
last 0 1 => 1
last 0 5 => 0
keys 0 open .. open => (0, 7, 1)(1, 9, 100)(3, 8, 100)(5, 7, 30)(6, 8, 20)(9, 8, 2)
keys 0 [1 .. [5 => (1, 9, 100)(3, 8, 100)(5, 7, 30)
keys 0 (1 .. (5 => (3, 8, 100)
keys 0 [2 .. [2 => none
keys 0 [9 .. open => (9, 8, 2)
index 0 0 [7 .. [7 => (0, 7, 1)(5, 7, 30)
index 0 0 [8 .. [8 => (3, 8, 100)(6, 8, 20)(9, 8, 2)
index 0 0 [9 .. [9 => (1, 9, 100)
index 0 0 open .. open => (0, 7, 1)(1, 9, 100)(3, 8, 100)(5, 7, 30)(6, 8, 20)(9, 8, 2)
index 0 1 (20 .. open => (1, 9, 100)(3, 8, 100)(5, 7, 30)
own 0 1 x & 0 2 x & 0 3 x & 0 6 x
keys 0 open .. open => none
index 0 0 open .. open => none
own none
index 0 0 [7 .. [7 => (1, 7, 100)(2, 7, 50)
keys 0 [6 .. open => (6, 8, 20)";

#[test]
fn own_writes_are_laid_over_the_rows(rt: HostRuntime) -> Result<(), Fail> {
    play(rt.alloc(), TABLES, OWN)
}

/// Rows of two tables: no range tells rows of the other. NULL is less than each number.
const TWO: &str = "\
epoch 0 1 -> 1 - 100 | 1 1 2 -> 1 2 30; 1 1 5 -> 1 5 - ; 1 2 0 -> 2 0 10
view 1
own 1 1 9 -> 1 9 10 & 1 2 0 x & 0 8 -> 8 - - & 1 3 3 -> 3 3 30
keys 0 open .. open => (1, NULL, 100)(8, NULL, NULL)
keys 1 open .. open => (1, 2, 30)(1, 5, NULL)(1, 9, 10)(3, 3, 30)
keys 1 [1 .. [1 => (1, 2, 30)(1, 5, NULL)(1, 9, 10)
keys 1 (1 .. open => (3, 3, 30)
keys 1 [1 5 .. [1 9 => (1, 5, NULL)(1, 9, 10)
keys 1 (1 5 .. (3 3 => (1, 9, 10)
keys 2 open .. open => none
index 0 0 [- .. [- => (1, NULL, 100)(8, NULL, NULL)
index 0 1 [- .. [- => (8, NULL, NULL)
index 1 0 [10 .. [10 => (1, 9, 10)
index 1 0 [30 .. [30 => (1, 2, 30)(3, 3, 30)
index 1 0 open .. (30 => (1, 5, NULL)(1, 9, 10)";

#[test]
fn tables_stay_apart(rt: HostRuntime) -> Result<(), Fail> {
    play(rt.alloc(), TABLES, TWO)
}

/// Account 1 had another owner before: a pair of it stands in the range until the horizon passes, and own writes put it
/// back. A row that there isn't may be removed and touched, and nothing lies between edges that are the wrong way round.
const BACK: &str = "\
epoch 0 1 -> 1 7 100 & 0 2 -> 2 7 50
epoch 0 1 -> 1 8 100
epoch 0 2 -> 2 9 50
view 2
index 0 0 [7 .. [7 => (2, 7, 50)
own 0 1 -> 1 7 5
index 0 0 [7 .. [7 => (1, 7, 5)(2, 7, 50)
index 0 0 [8 .. [8 => none
trim 2
view 2
index 0 0 [7 .. [8 => (1, 7, 5)(2, 7, 50)
own 0 1 -> 1 7 5 & 0 2 -> 2 9 1
index 0 0 [7 .. [7 => (1, 7, 5)
index 0 0 [9 .. [9 => (2, 9, 1)
index 0 0 [9 .. [7 => none
keys 0 [2 .. [1 => none
own 0 3 x & 0 4 ~
row 0 3 => none
row 0 4 => none
keys 0 open .. open => (1, 8, 100)(2, 7, 50)
index 0 0 open .. open => (1, 8, 100)(2, 7, 50)";

#[test]
fn own_writes_put_rows_back_into_a_range(rt: HostRuntime) -> Result<(), Fail> {
    play(rt.alloc(), TABLES, BACK)
}

const TEXTS: &str = "man|id I,name t|0|by_name 1";

const NAMES: &str = "\
epoch 0 1 -> 1 'ann & 0 2 -> 2 'bob & 0 3 -> 3 -
view 1
own 0 4 -> 4 'ann & 0 2 x
index 0 0 ['ann .. ['ann => (1, 'ann')(4, 'ann')
index 0 0 ('ann .. open => none
index 0 0 open .. ('ann => (3, NULL)";

/// So many rows that they stand on several pages, and own writes among them.
const MANY: &str = "\
rows 1 200 7
view 1
own 0 64 x & 0 65 -> 65 8 1 & 0 201 -> 201 7 0
keys 0 [62 .. [67 => (62, 7, 62)(63, 7, 63)(65, 8, 1)(66, 7, 66)(67, 7, 67)
keys 0 (199 .. open => (200, 7, 200)(201, 7, 0)
index 0 0 (7 .. open => (65, 8, 1)
index 0 1 [127 .. [129 => (127, 7, 127)(128, 7, 128)(129, 7, 129)
rows 60 62 9
index 0 0 [9 .. open => none
own none
keys 0 [61 .. [65 => (61, 7, 61)(62, 7, 62)(63, 7, 63)(64, 7, 64)(65, 7, 65)
view 2
index 0 0 [9 .. [9 => (60, 9, 60)(61, 9, 61)(62, 9, 62)
keys 0 [61 .. (64 => (61, 9, 61)(62, 9, 62)(63, 7, 63)";

#[test]
fn texts_and_many_rows_are_found(rt: HostRuntime) -> Result<(), Fail> {
    play(rt.alloc(), TEXTS, NAMES)?;
    play(rt.alloc(), TABLES, MANY)
}
