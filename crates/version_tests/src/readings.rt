//! What is read at each epoch, and what a horizon leaves.
use crate::playing::first_wrong;
use std::test::Fail;

/// Row 1 is put, changed and removed, row 2 is put and touched, row 3 is put by a candidate that aborts, row 4 by
/// the second region, and row 5 is removed and never was.
const READ: &str = "\
row 1 => 0- last 0
apply 1=10 2=20 !3=30 / 4=40
apply 1=11 @2 / -5
apply -1 !2=21
row 1 => 0- 1(10) 2(11) 3- last 3
row 2 => 0- 1(20) 2(20) 3(20) last 1
row 3 => 0- 1- 2- 3- last 0
row 4 => 0- 1(40) 2(40) 3(40) last 1
row 5 => 0- 1- 2- 3- last 2
last 1 0 => 0
last 1 1 => 1
last 1 2 => 2
last 1 3 => 3
last 2 2 => 1
last 2 3 => 1
last 3 3 => 0
last 5 1 => 0
last 5 3 => 2
check 0 => not too old";

#[test]
fn each_epoch_is_read_by_itself(rt: HostRuntime) -> Result<(), Fail> {
    assert_eq!(rt; first_wrong(rt.alloc(), READ)?, None);
    Ok(())
}

/// A horizon leaves the newest image at or below it, and no removal.
const TRIMMED: &str = "\
apply 1=10 2=20 / 4=40
apply 1=11 @2 / -5
apply -1
apply 4=41
trim 2
check 1 => too old, from 2 on
check 2 => not too old
last 1 2 => 2
last 1 3 => 3
last 2 3 => 1
last 4 3 => 1
last 4 4 => 4
last 5 4 => 0
row 1 => 2(11) 3- 4- last 3
row 2 => 2(20) 3(20) 4(20) last 1
row 4 => 2(40) 3(40) 4(41) last 4
row 5 => 2- 3- 4- last 0
trim 2
row 1 => 2(11) 3- 4- last 3
trim 3
row 1 => 3- 4- last 0
row 2 => 3(20) 4(20) last 1
row 4 => 3(40) 4(41) last 4
apply -2 1=12
trim 5
row 1 => 5(12) last 5
row 2 => 5- last 0
row 4 => 5(41) last 4";

#[test]
fn a_horizon_leaves_the_newest_image(rt: HostRuntime) -> Result<(), Fail> {
    assert_eq!(rt; first_wrong(rt.alloc(), TRIMMED)?, None);
    Ok(())
}

/// The row is put in epoch 1, and 63 epochs later it is read at 1 still; one epoch and one trim after that it isn't,
/// but its image is.
const OLDEST: &str = "\
apply 1=10
wait 63
row 1 1 => (10)
row 1 0 => -
apply 1=11
trim 1
check 0 => too old, from 1 on
row 1 1 => (10)
row 1 64 => (10)
row 1 65 => (11)
apply
trim 2
check 1 => too old, from 2 on
row 1 2 => (10)
row 1 66 => (11)";

/// The row is put in epoch 1 and removed in epoch 2. After 70 empty epochs and one that puts it again, nothing is read
/// of it at the horizon.
const REMOVED: &str = "\
apply 1=5
apply -1
wait 70
trim 8
apply 1=5
trim 9
check 8 => too old, from 9 on
check 9 => not too old
row 1 9 => -
row 1 72 => -
row 1 73 => (5)
rows 0 9 9 => none
rows 0 9 73 => (1)(5)";

#[test]
fn old_epochs_are_read_from_the_horizon_on(rt: HostRuntime) -> Result<(), Fail> {
    assert_eq!(rt; first_wrong(rt.alloc(), OLDEST)?, None);
    assert_eq!(rt; first_wrong(rt.alloc(), REMOVED)?, None);
    Ok(())
}

/// A fork is trimmed as what it was made of would be.
const FORK_TRIMMED: &str = "\
apply 1=10 2=20 3=30
apply -1 2=21
fork
swap
trim 2
row 1 => 2- last 0
row 2 => 2(21) last 2
row 3 => 2(30) last 1
fork
swap
apply -2 -3
trim 3
row 2 => 3- last 0
row 3 => 3- last 0
swap
row 2 => 2(21) last 2
row 3 => 2(30) last 1";

/// What is applied and trimmed behind a fork changes neither it nor what it was made of.
const FORKED: &str = "\
apply 1=10 2=20
apply 1=11
fork
apply 1=13 -2 3=30
trim 3
row 1 => 3(13) last 3
row 2 => 3- last 0
row 3 => 3(30) last 3
swap
row 1 => 0- 1(10) 2(11) last 2
row 2 => 0- 1(20) 2(20) last 1
row 3 => 0- 1- 2- last 0
apply 2=22
trim 1
row 1 => 1(10) 2(11) 3(11) last 2
row 2 => 1(20) 2(20) 3(22) last 3
swap
row 1 => 3(13) last 3
row 2 => 3- last 0
row 3 => 3(30) last 3";

#[test]
fn a_fork_stays_as_it_was(rt: HostRuntime) -> Result<(), Fail> {
    assert_eq!(rt; first_wrong(rt.alloc(), FORKED)?, None);
    assert_eq!(rt; first_wrong(rt.alloc(), FORK_TRIMMED)?, None);
    Ok(())
}

/// Rows are listed in rising order, from a border on and before another, as they were after the epoch.
const LISTED: &str = "\
rows 0 9 0 => none
apply 5=50 1=10 / 3=30 -4
apply -3 1=11 / 2=20
rows 0 9 0 => none
rows 0 9 1 => (1)(10)(3)(30)(5)(50)
rows 0 9 2 => (1)(11)(2)(20)(5)(50)
rows 2 5 1 => (3)(30)
rows 2 5 2 => (2)(20)
rows 1 6 1 => (1)(10)(3)(30)(5)(50)
rows 5 1 2 => none
trim 2
rows 0 9 2 => (1)(11)(2)(20)(5)(50)";

#[test]
fn rows_are_listed_between_borders(rt: HostRuntime) -> Result<(), Fail> {
    assert_eq!(rt; first_wrong(rt.alloc(), LISTED)?, None);
    Ok(())
}

/// Each candidate changes several rows, the second region's in another table, whose keys have two cells. One that has
/// only the first cell in common is another row.
const SEVERAL: &str = "\
apply 1=10,2=20,3=30 / 1:2.4=24,1:2.5=25,1:1.9=19
apply -1,2=21,@3 / -1:2.4,1:2.5=26
row 1 => 0- 1(10) 2- last 2
row 2 => 0- 1(20) 2(21) last 2
row 3 => 0- 1(30) 2(30) last 1
row 1:1.9 => 0- 1(19) 2(19) last 1
row 1:2.4 => 0- 1(24) 2- last 2
row 1:2.5 => 0- 1(25) 2(26) last 2
row 1:2 => 0- 1- 2- last 0
row 2.5 => 0- 1- 2- last 0
rows 0 9 1 => (1)(10)(2)(20)(3)(30)
rows 0 1:9.9 1 => (1)(10)(2)(20)(3)(30)(1, 9)(19)(2, 4)(24)(2, 5)(25)
rows 1:0.0 1:2.5 1 => (1, 9)(19)(2, 4)(24)
rows 1:2.0 1:3.0 2 => (2, 5)(26)
trim 2
rows 0 1:9.9 2 => (2)(21)(3)(30)(1, 9)(19)(2, 5)(26)
row 1 => 2- last 0
row 2 => 2(21) last 2
row 3 => 2(30) last 1
row 1:2.4 => 2- last 0";

/// Several committed candidates change one row, in one epoch and in one after another: the last one of an epoch, by
/// region and then as they stand, decides what the epoch leaves.
const SHARED: &str = "\
apply 1=10 1=11 / 1=12
apply 1=13 / -1
apply -1 / 1=14
apply 1=15
apply @1 / 1=16
row 1 => 0- 1(12) 2- 3(14) 4(15) 5(16) last 5
trim 2
row 1 => 2- 3(14) 4(15) 5(16) last 5
trim 4
row 1 => 4(15) 5(16) last 5
trim 5
row 1 => 5(16) last 5";

#[test]
fn candidates_change_several_rows_and_share_some(rt: HostRuntime) -> Result<(), Fail> {
    assert_eq!(rt; first_wrong(rt.alloc(), SEVERAL)?, None);
    assert_eq!(rt; first_wrong(rt.alloc(), SHARED)?, None);
    Ok(())
}

/// Rows that stand in several pages: all are put, some of them are put again, and more than a half of them go.
const MANY: &str = "\
many 1 200 =7
rows 0 999 0 => none
rows 0 999 1 => 200 rows
rows 63 67 1 => (63)(7)(64)(7)(65)(7)(66)(7)
rows 199 999 1 => (199)(7)(200)(7)
many 100 150 =8
rows 98 102 2 => (98)(7)(99)(7)(100)(8)(101)(8)
rows 149 153 2 => (149)(8)(150)(8)(151)(7)(152)(7)
rows 149 153 1 => (149)(7)(150)(7)(151)(7)(152)(7)
many 1 120 -
rows 0 999 3 => 80 rows
rows 0 123 3 => (121)(8)(122)(8)
trim 2
rows 0 999 2 => 200 rows
rows 98 101 2 => (98)(7)(99)(7)(100)(8)
row 110 => 2(8) 3- last 3
row 130 => 2(8) 3(8) last 2
trim 3
rows 0 999 3 => 80 rows
rows 0 123 3 => (121)(8)(122)(8)
row 110 => 3- last 0
row 130 => 3(8) last 2
row 160 => 3(7) last 1";

#[test]
fn rows_stand_in_several_pages(rt: HostRuntime) -> Result<(), Fail> {
    assert_eq!(rt; first_wrong(rt.alloc(), MANY)?, None);
    Ok(())
}
