//! Which fault is the first, where there are several.
use crate::playing::play;
use std::test::Fail;

/// All arguments come first, row by row and from left to right, and then the groups' items in the order of groups. In
/// `num` the kind of row 3 is 0, which is the first group.
const GROUPED: &str = "\
SELECT kind, SUM(v) FROM num WHERE id < 3 GROUP BY kind => Overflow
SELECT 1 / kind, SUM(v) FROM num WHERE id < 4 GROUP BY kind => DivideByZero
SELECT SUM(v), 1 / (kind - 1) FROM num WHERE id < 4 GROUP BY kind => Overflow
SELECT 1 / (kind - 1), SUM(v) FROM num WHERE id < 4 GROUP BY kind => DivideByZero
SELECT SUM(v), 1 / (kind - 2) FROM num GROUP BY kind => Overflow
SELECT 1 / kind, SUM(v + 1) FROM num GROUP BY kind => Overflow
SELECT SUM(1 / (id - 2)), SUM(v + 1) FROM num => Overflow
SELECT SUM(v + 1), SUM(1 / (id - 1)) FROM num => Overflow
SELECT SUM(1 / (id - 1)), SUM(v + 1) FROM num => DivideByZero
SELECT COUNT(1 / (id - 3)) FROM num => DivideByZero
SELECT MIN(1 / (id - 3)) FROM num => DivideByZero
SELECT MAX(1 / (id - 5)) FROM num => DivideByZero
SELECT SUM(v), 1 / (kind - 1) FROM num GROUP BY kind => Overflow";

/// Without groups the rows come one after another.
const PLAIN: &str = "\
SELECT 1 / (id - 2), v + 1 FROM num => Overflow
SELECT 1 / (id - 1), v + 1 FROM num => DivideByZero
SELECT v + 1, 1 / (id - 1) FROM num => Overflow
SELECT id, 1 / (id - 5) FROM num => DivideByZero";

/// Neither ORDER BY nor LIMIT spares one.
const LIMITED: &str = "\
SELECT 1 / (id - 4) FROM num LIMIT 1 => DivideByZero
SELECT 1 / (id - 4) FROM num LIMIT 0 => DivideByZero
SELECT 1 / (id - 4) FROM num ORDER BY id LIMIT 2 => DivideByZero
SELECT SUM(v) FROM num GROUP BY kind LIMIT 1 => Overflow
SELECT SUM(v) FROM num WHERE id < 3 LIMIT 0 => Overflow";

#[test]
fn arguments_come_before_groups(rt: HostRuntime) -> Result<(), Fail> {
    play(rt.alloc(), GROUPED)
}

#[test]
fn rows_come_one_after_another(rt: HostRuntime) -> Result<(), Fail> {
    play(rt.alloc(), PLAIN)
}

#[test]
fn limit_spares_no_fault(rt: HostRuntime) -> Result<(), Fail> {
    play(rt.alloc(), LIMITED)
}
