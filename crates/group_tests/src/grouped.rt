//! Groups of rows, and of pairs of rows.
use crate::playing::play;
use std::test::Fail;

/// A group for each value, in their order, where NULL is a value as others are and comes first.
const GROUPS: &str = "\
SELECT owner FROM acc GROUP BY owner => (NULL) (7) (8)
SELECT owner, COUNT(*), SUM(amount), MIN(amount), MAX(amount) FROM acc GROUP BY owner => (NULL, 2, 60, 30, 30) (7, 2, 10, 10, 10) (8, 2, 25, 5, 20)
SELECT owner, COUNT(amount) FROM acc GROUP BY owner => (NULL, 2) (7, 1) (8, 2)
SELECT name, COUNT(*) FROM acc GROUP BY name => (NULL, 1) ('a', 2) ('b', 2) ('c', 1)
SELECT good, MIN(id), MAX(id) FROM acc GROUP BY good => (NULL, 3, 5) (FALSE, 2, 6) (TRUE, 1, 4)
SELECT owner, good, COUNT(*) FROM acc GROUP BY owner, good => (NULL, NULL, 1) (NULL, FALSE, 1) (7, TRUE, 2) (8, NULL, 1) (8, FALSE, 1)
SELECT owner, good, COUNT(*) FROM acc GROUP BY good, owner => (NULL, NULL, 1) (8, NULL, 1) (NULL, FALSE, 1) (8, FALSE, 1) (7, TRUE, 2)
SELECT owner + 1, SUM(amount * 2) FROM acc GROUP BY owner => (NULL, 120) (8, 20) (9, 50)
SELECT COUNT(*) FROM acc GROUP BY owner => (2) (2) (2)
SELECT owner, COUNT(*) FROM acc WHERE amount > 10 GROUP BY owner => (NULL, 2) (8, 1)
SELECT id, COUNT(*) FROM acc GROUP BY id => (1, 1) (2, 1) (3, 1) (4, 1) (5, 1) (6, 1)
SELECT kind, SUM(id) FROM num GROUP BY kind => (0, 3) (1, 3) (2, 9)";

/// Columns of the right table stand behind those of the left one.
const PAIRS: &str = "\
SELECT kind, COUNT(*), SUM(amount) FROM acc JOIN num ON acc.id = num.id GROUP BY kind => (0, 1, 30) (1, 2, 30) (2, 2, 5)
SELECT owner, kind, COUNT(*) FROM acc JOIN num ON acc.id = num.id GROUP BY owner, kind => (NULL, 0, 1) (7, 1, 1) (7, 2, 1) (8, 1, 1) (8, 2, 1)
SELECT COUNT(*), MAX(name), MAX(kind) FROM acc JOIN num ON TRUE => (30, 'c', 2)
SELECT acc.id FROM acc JOIN num ON acc.id = num.id ORDER BY v DESC => (1) (2) (5) (3) (4)
SELECT acc.id, kind FROM acc JOIN num ON acc.id = num.id ORDER BY kind DESC, name => (5, 2) (4, 2) (2, 1) (1, 1) (3, 0)
SELECT a.id, b.id FROM num AS a JOIN num AS b ON a.kind = b.kind WHERE a.id < b.id => (1, 2) (4, 5)
SELECT COUNT(*) FROM acc JOIN void ON TRUE => (0)";

#[test]
fn groups_are_in_the_order_of_their_cells(rt: HostRuntime) -> Result<(), Fail> {
    play(rt.alloc(), GROUPS)
}

#[test]
fn pairs_are_grouped_as_rows_are(rt: HostRuntime) -> Result<(), Fail> {
    play(rt.alloc(), PAIRS)
}
