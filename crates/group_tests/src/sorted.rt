//! ORDER BY and LIMIT.
use crate::playing::play;
use std::test::Fail;

/// NULL comes first, and with DESC last; ties stay in the order of keys.
const ROWS_IN_ORDER: &str = "\
SELECT id FROM acc => (1) (2) (3) (4) (5) (6)
SELECT id FROM acc ORDER BY amount => (4) (5) (1) (2) (3) (6)
SELECT id FROM acc ORDER BY amount DESC => (3) (6) (2) (1) (5) (4)
SELECT id FROM acc ORDER BY owner => (3) (6) (1) (4) (2) (5)
SELECT id FROM acc ORDER BY owner DESC => (2) (5) (1) (4) (3) (6)
SELECT id FROM acc ORDER BY owner, amount DESC => (3) (6) (1) (4) (2) (5)
SELECT id FROM acc ORDER BY owner DESC, amount => (5) (2) (4) (1) (3) (6)
SELECT id FROM acc ORDER BY good => (3) (5) (2) (6) (1) (4)
SELECT id, name FROM acc ORDER BY name DESC, id DESC => (4, 'c') (6, 'b') (1, 'b') (5, 'a') (2, 'a') (3, NULL)
SELECT id, -amount AS m FROM acc ORDER BY m => (4, NULL) (3, -30) (6, -30) (2, -20) (1, -10) (5, -5)
SELECT id, -amount AS amount FROM acc ORDER BY acc.amount DESC => (3, -30) (6, -30) (2, -20) (1, -10) (5, -5) (4, NULL)";

/// Groups that tie stay in the order of their cells.
const GROUPS_IN_ORDER: &str = "\
SELECT owner, COUNT(*) AS n FROM acc GROUP BY owner ORDER BY n => (NULL, 2) (7, 2) (8, 2)
SELECT owner, COUNT(*) AS n FROM acc GROUP BY owner ORDER BY n DESC => (NULL, 2) (7, 2) (8, 2)
SELECT owner, COUNT(*) AS n FROM acc GROUP BY owner ORDER BY n, owner DESC => (8, 2) (7, 2) (NULL, 2)
SELECT owner, SUM(amount) AS s FROM acc GROUP BY owner ORDER BY s DESC => (NULL, 60) (8, 25) (7, 10)
SELECT name, COUNT(*) AS n FROM acc GROUP BY name ORDER BY n DESC => ('a', 2) ('b', 2) (NULL, 1) ('c', 1)
SELECT SUM(amount) FROM acc GROUP BY owner ORDER BY owner DESC => (25) (10) (60)
SELECT COUNT(*) AS n FROM acc ORDER BY n => (6)";

/// LIMIT leaves the first lines of those in order.
const LIMITS: &str = "\
SELECT id FROM acc LIMIT 2 => (1) (2)
SELECT id FROM acc LIMIT 0 =>
SELECT id FROM acc LIMIT 6 => (1) (2) (3) (4) (5) (6)
SELECT id FROM acc LIMIT 9223372036854775807 => (1) (2) (3) (4) (5) (6)
SELECT id FROM acc ORDER BY amount DESC LIMIT 2 => (3) (6)
SELECT id FROM acc ORDER BY id DESC LIMIT 9 => (6) (5) (4) (3) (2) (1)
SELECT owner FROM acc GROUP BY owner LIMIT 1 => (NULL)
SELECT owner FROM acc GROUP BY owner ORDER BY owner DESC LIMIT 1 => (8)
SELECT COUNT(*) FROM acc LIMIT 1 => (6)
SELECT COUNT(*) FROM acc LIMIT 0 =>";

#[test]
fn desc_is_the_exact_reverse_and_ties_stay(rt: HostRuntime) -> Result<(), Fail> {
    play(rt.alloc(), ROWS_IN_ORDER)
}

#[test]
fn groups_are_sorted_by_items_and_columns(rt: HostRuntime) -> Result<(), Fail> {
    play(rt.alloc(), GROUPS_IN_ORDER)
}

#[test]
fn limit_comes_behind_order(rt: HostRuntime) -> Result<(), Fail> {
    play(rt.alloc(), LIMITS)
}
