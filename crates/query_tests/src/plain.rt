//! Queries by each kind of plan, and what their conditions keep.
use exec_kit::{play, play_behind};
use std::test::Fail;

/// At most one row is handed out, whatever else is asked of it.
const POINTS: &str = "\
SELECT * FROM acc WHERE id = 2 => 1: (2, 8, 20)
SELECT * FROM acc WHERE 2 = id => 1: (2, 8, 20)
SELECT * FROM acc WHERE id = 4 => 0:
SELECT amount FROM acc WHERE id = 5 => 1: (NULL)
SELECT * FROM acc WHERE id = 2 AND amount > 20 => 1:
SELECT * FROM acc WHERE amount > 5 AND id = 1 => 1: (1, 7, 10)
SELECT * FROM acc WHERE amount > -1 AND id = 1 => 1: (1, 7, 10)
SELECT id FROM acc WHERE id = 2 AND id = 3 => 1:
SELECT * FROM event WHERE at = 1 AND region = 5 => 1: (5, 1, NULL)
SELECT kind FROM event WHERE region = 9 AND at = 2 => 1: (20)
SELECT kind FROM event WHERE region = 1 AND at = 2 => 0:
SELECT * FROM cust WHERE name = 'bob' => 1: ('bob', NULL)
SELECT * FROM void WHERE id = 1 => 0:";

/// The rows are handed out whose keys lie between the edges.
const KEYS: &str = "\
SELECT id FROM acc WHERE id >= 3 => 3: (3) (5) (8)
SELECT id FROM acc WHERE id > 3 => 2: (5) (8)
SELECT id FROM acc WHERE id <= 3 => 3: (1) (2) (3)
SELECT id FROM acc WHERE id < 3 => 2: (1) (2)
SELECT id FROM acc WHERE 3 > id => 2: (1) (2)
SELECT id FROM acc WHERE id > 1 AND id <= 5 => 3: (2) (3) (5)
SELECT id FROM acc WHERE id > 1 AND id <= 5 AND amount > 20 => 3: (3)
SELECT id FROM acc WHERE id >= 2 AND id >= 5 => 4: (5) (8)
SELECT id FROM acc WHERE id > 8 => 0:
SELECT id FROM acc WHERE id > 5 AND id < 3 => 0:
SELECT region FROM event WHERE at = 1 => 2: (2) (5)
SELECT region FROM event WHERE at = 1 AND region > 2 => 1: (5)
SELECT region FROM event WHERE at = 1 AND region >= 2 => 2: (2) (5)
SELECT region FROM event WHERE at = 2 AND region < 9 => 1: (0)
SELECT region, at FROM event WHERE at >= 2 => 3: (0, 2) (9, 2) (1, 3)
SELECT name FROM cust WHERE name > 'ann' => 2: ('bob') ('eve')
SELECT id FROM void WHERE id > 0 => 0:";

/// The rows are handed out whose cells in the index lie between the edges, in the order of their keys.
const INDEXES: &str = "\
SELECT id FROM acc WHERE owner = 7 => 2: (1) (5)
SELECT id FROM acc WHERE owner > 7 => 2: (2) (8)
SELECT id FROM acc WHERE owner >= 8 => 2: (2) (8)
SELECT id FROM acc WHERE owner < 9 => 3: (1) (2) (5)
SELECT id FROM acc WHERE owner <= 7 => 2: (1) (5)
SELECT id FROM acc WHERE owner > 7 AND owner < 9 => 1: (2)
SELECT id FROM acc WHERE owner = 7 AND amount IS NULL => 2: (5)
SELECT id FROM acc WHERE owner = 6 => 0:
SELECT region, at FROM event WHERE kind = 10 => 2: (0, 2) (1, 3)
SELECT region, at FROM event WHERE kind <= 20 => 3: (0, 2) (9, 2) (1, 3)
SELECT id FROM void WHERE value = 1 => 0:";

/// All rows of the table are handed out, and of its conditions each has to be true.
const SCANS: &str = "\
SELECT * FROM acc => 5: (1, 7, 10) (2, 8, 20) (3, NULL, 30) (5, 7, NULL) (8, 9, 0)
SELECT id FROM acc WHERE amount = 20 => 5: (2)
SELECT id FROM acc WHERE amount <> 20 => 5: (1) (3) (8)
SELECT id FROM acc WHERE id <> 2 => 5: (1) (3) (5) (8)
SELECT id FROM acc WHERE owner IS NULL => 5: (3)
SELECT id FROM acc WHERE owner IS NOT NULL => 5: (1) (2) (5) (8)
SELECT id FROM acc WHERE owner = NULL => 5:
SELECT id FROM acc WHERE NULL = NULL => 5:
SELECT id FROM acc WHERE NOT owner = 7 => 5: (2) (8)
SELECT id FROM acc WHERE owner = 7 OR amount = 30 => 5: (1) (3) (5)
SELECT id FROM acc WHERE owner = 7 OR amount > 10 => 5: (1) (2) (3) (5)
SELECT id FROM acc WHERE NOT (owner = 7 OR amount > 10) => 5: (8)
SELECT id FROM acc WHERE id = 1 OR id = 5 => 5: (1) (5)
SELECT id FROM acc WHERE id + 1 = 3 => 5: (2)
SELECT id FROM acc WHERE -id < 0 AND id = 1 => 5: (1)
SELECT id FROM acc WHERE NULL => 5:
SELECT id FROM acc WHERE FALSE => 5:
SELECT id FROM acc WHERE TRUE => 5: (1) (2) (3) (5) (8)
SELECT name FROM cust WHERE good => 3: ('ann')
SELECT name FROM cust WHERE NOT good => 3: ('eve')
SELECT name FROM cust WHERE good IS NULL => 3: ('bob')
SELECT name FROM cust WHERE good = FALSE OR good IS NULL => 3: ('bob') ('eve')
SELECT * FROM void => 0:
SELECT 1 / 0 FROM void WHERE 1 / 0 = 1 => 0:";

/// The cells of lines.
const ITEMS: &str = "\
SELECT id, id, amount + 1, owner IS NULL FROM acc WHERE id = 3 => 1: (3, 3, 31, TRUE)
SELECT -amount, amount / 3, amount * 2 - 1 FROM acc WHERE id = 2 => 1: (-20, 6, 39)
SELECT -20 / 3, 20 / -3 FROM acc WHERE id = 2 => 1: (-6, -6)
SELECT amount + 1, -amount, amount = amount FROM acc WHERE id = 5 => 1: (NULL, NULL, NULL)
SELECT 'a', NULL, TRUE FROM acc WHERE id < 3 => 2: ('a', NULL, TRUE) ('a', NULL, TRUE)
SELECT name, name < 'c', NOT good FROM cust => 3: ('ann', TRUE, FALSE) ('bob', TRUE, NULL) ('eve', FALSE, TRUE)
SELECT -9223372036854775807 - 1 FROM acc WHERE id = 1 => 1: (-9223372036854775808)
SELECT a.id, amount AS id FROM acc AS a WHERE a.id = 1 => 1: (1, 10)";

/// LIMIT leaves the first lines, and spares nothing before them.
const LIMITS: &str = "\
SELECT id FROM acc LIMIT 2 => 5: (1) (2)
SELECT id FROM acc LIMIT 0 => 5:
SELECT id FROM acc LIMIT 9 => 5: (1) (2) (3) (5) (8)
SELECT id FROM acc WHERE owner = 7 LIMIT 1 => 2: (1)
SELECT id FROM acc WHERE 10 / amount > 0 LIMIT 1 => 5: DivideByZero
SELECT 10 / amount FROM acc LIMIT 1 => 5: DivideByZero
SELECT 1 / 0 FROM acc LIMIT 0 => 5: DivideByZero";

/// The transaction has changed the account 2, removed 3, put 4, which the snapshot lacks, and locked 5.
const WRITES: &str = "\
+ 0: 2 8 25
- 0: 3 - 30
+ 0: 4 7 40
= 0: 5 7 -";

/// A query sees what its transaction has written.
const BEHIND_WRITES: &str = "\
SELECT * FROM acc => 5: (1, 7, 10) (2, 8, 25) (4, 7, 40) (5, 7, NULL) (8, 9, 0)
SELECT amount FROM acc WHERE id = 2 => 1: (25)
SELECT id FROM acc WHERE id = 3 => 0:
SELECT id FROM acc WHERE id = 4 => 1: (4)
SELECT id FROM acc WHERE id > 2 AND id < 6 => 2: (4) (5)
SELECT id FROM acc WHERE owner = 7 => 3: (1) (4) (5)
SELECT id FROM acc WHERE owner = 7 LIMIT 2 => 3: (1) (4)
SELECT id FROM acc WHERE amount > 20 => 5: (2) (4)
SELECT id FROM acc WHERE owner IS NULL => 5:";

#[test]
fn points_hand_out_one_row(rt: HostRuntime) -> Result<(), Fail> {
    play(rt.alloc(), POINTS)
}

#[test]
fn ranges_hand_out_rows_by_their_keys(rt: HostRuntime) -> Result<(), Fail> {
    play(rt.alloc(), KEYS)
}

#[test]
fn indexes_hand_out_rows_by_their_cells(rt: HostRuntime) -> Result<(), Fail> {
    play(rt.alloc(), INDEXES)
}

#[test]
fn other_queries_are_handed_all_rows(rt: HostRuntime) -> Result<(), Fail> {
    play(rt.alloc(), SCANS)
}

#[test]
fn lines_have_the_values_of_their_items(rt: HostRuntime) -> Result<(), Fail> {
    play(rt.alloc(), ITEMS)
}

#[test]
fn limit_leaves_the_first_lines(rt: HostRuntime) -> Result<(), Fail> {
    play(rt.alloc(), LIMITS)
}

#[test]
fn queries_see_what_their_transaction_has_written(rt: HostRuntime) -> Result<(), Fail> {
    play_behind(rt.alloc(), WRITES, BEHIND_WRITES)
}
