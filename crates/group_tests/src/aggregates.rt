//! Aggregates over all rows, over some and over none.
use crate::playing::play;
use std::test::Fail;

/// NULL isn't counted, nor summed, and is neither the least nor the greatest.
const VALUES: &str = "\
SELECT COUNT(*), COUNT(owner), COUNT(amount), COUNT(name), COUNT(good) FROM acc => (6, 4, 5, 5, 4)
SELECT SUM(amount), MIN(amount), MAX(amount) FROM acc => (95, 5, 30)
SELECT MIN(name), MAX(name), MIN(good), MAX(good) FROM acc => ('a', 'c', FALSE, TRUE)
SELECT MIN(owner), MAX(owner), SUM(owner) FROM acc => (7, 8, 30)
SELECT SUM(amount + owner), COUNT(amount + owner), MIN(-amount) FROM acc => (58, 3, -30)
SELECT COUNT(NULL), MIN(NULL), MAX(NULL), COUNT(1) FROM acc => (0, NULL, NULL, 6)
SELECT MIN(amount > 10), MAX(amount > 10), COUNT(amount > 10) FROM acc => (FALSE, TRUE, 5)
SELECT 1, 'x', COUNT(*) FROM acc => (1, 'x', 6)";

/// Over no rows there is one group, and over rows that have no value.
const NONE: &str = "\
SELECT COUNT(*) FROM acc WHERE id > 9 => (0)
SELECT COUNT(*), COUNT(id), SUM(id), MIN(id), MAX(id) FROM acc WHERE id > 9 => (0, 0, NULL, NULL, NULL)
SELECT COUNT(*), SUM(amount), MIN(amount), MAX(amount), COUNT(amount) FROM acc WHERE id = 4 => (1, NULL, NULL, NULL, 0)
SELECT 1 + 1, COUNT(*) FROM acc WHERE id > 9 => (2, 0)
SELECT owner, COUNT(*) FROM acc WHERE id > 9 GROUP BY owner =>
SELECT COUNT(*) FROM void => (0)
SELECT id FROM void =>";

/// The whole sum counts, and not what it is on the way.
const SUMS: &str = "\
SELECT SUM(v) FROM num WHERE id = 1 => (9223372036854775807)
SELECT SUM(v) FROM num WHERE id < 3 => Overflow
SELECT SUM(v) FROM num WHERE id < 4 => (9223372036854775806)
SELECT SUM(v) FROM num WHERE id = 4 => (-9223372036854775808)
SELECT SUM(v) FROM num WHERE id > 3 => Overflow
SELECT SUM(v) FROM num WHERE id = 4 OR id = 2 => (-9223372036854775807)
SELECT SUM(v) FROM num WHERE id = 1 OR id = 4 => (-1)
SELECT SUM(v) FROM num => (-3)
SELECT SUM(v), SUM(id) FROM num WHERE id < 3 => Overflow
SELECT MAX(v), MIN(v) FROM num => (9223372036854775807, -9223372036854775808)";

#[test]
fn aggregates_pass_over_null(rt: HostRuntime) -> Result<(), Fail> {
    play(rt.alloc(), VALUES)
}

#[test]
fn aggregates_of_nothing_are_null_or_0(rt: HostRuntime) -> Result<(), Fail> {
    play(rt.alloc(), NONE)
}

#[test]
fn sums_are_exact_over_the_whole_sum(rt: HostRuntime) -> Result<(), Fail> {
    play(rt.alloc(), SUMS)
}
