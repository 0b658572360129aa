//! The rows and pairs that are kept, by each kind of plan.
use crate::playing::play;
use std::test::Fail;

/// Rows of one table, in the order of keys, by each access.
const ALONE: &str = "\
SELECT * FROM acc => scan (10, 1, 100, 'a') (11, 2, 50, 'b') (12, NULL, 70, 'c') (13, 1, NULL, NULL) (14, 9, 0, 'a')
SELECT * FROM acc WHERE amount > 60 => scan (10, 1, 100, 'a') (12, NULL, 70, 'c')
SELECT * FROM acc WHERE id = 12 => point (12, NULL, 70, 'c')
SELECT * FROM acc WHERE id = 12 AND name = 'a' => point
SELECT * FROM acc WHERE id = 15 => point
SELECT * FROM acc WHERE id > 11 AND id < 14 => range (12, NULL, 70, 'c') (13, 1, NULL, NULL)
SELECT * FROM acc WHERE owner = 1 => index (10, 1, 100, 'a') (13, 1, NULL, NULL)
SELECT * FROM acc WHERE owner = 1 AND amount IS NULL => index (13, 1, NULL, NULL)
SELECT * FROM event WHERE day = 1 => range (1, 10, 5) (1, 11, NULL)";

/// Each left row beside each right one: left rows first.
const NESTED: &str = "\
SELECT * FROM cust JOIN event ON event.size > 5 => scan, scan nested (1, 'x')-(2, 10, 7) (2, 'a')-(2, 10, 7) (3, NULL)-(2, 10, 7)
SELECT * FROM event JOIN cust ON cust.id < event.day + 1 => scan, scan nested (1, 10, 5)-(1, 'x') (1, 11, NULL)-(1, 'x') (2, 10, 7)-(1, 'x') (2, 10, 7)-(2, 'a')
SELECT * FROM cust AS a JOIN cust AS b ON a.id <> b.id => scan, scan nested (1, 'x')-(2, 'a') (1, 'x')-(3, NULL) (2, 'a')-(1, 'x') (2, 'a')-(3, NULL) (3, NULL)-(1, 'x') (3, NULL)-(2, 'a')
SELECT * FROM cust JOIN acc ON acc.id = 11 AND cust.id > 1 => range, point nested (2, 'a')-(11, 2, 50, 'b') (3, NULL)-(11, 2, 50, 'b')
SELECT * FROM cust JOIN acc ON acc.owner = 1 WHERE cust.id = 3 => point, index nested (3, NULL)-(10, 1, 100, 'a') (3, NULL)-(13, 1, NULL, NULL)
SELECT * FROM cust JOIN acc ON acc.id = 15 => scan, point nested";

/// Beside each left row the one whose key follows from it.
const BY_KEY: &str = "\
SELECT * FROM acc JOIN cust ON acc.owner = cust.id => scan, scan by key (10, 1, 100, 'a')-(1, 'x') (11, 2, 50, 'b')-(2, 'a') (13, 1, NULL, NULL)-(1, 'x')
SELECT * FROM acc JOIN cust ON cust.id = acc.owner AND acc.id > 10 => range, scan by key (11, 2, 50, 'b')-(2, 'a') (13, 1, NULL, NULL)-(1, 'x')
SELECT * FROM acc JOIN cust ON acc.owner = cust.id WHERE acc.name = cust.name => scan, scan by key
SELECT * FROM acc JOIN cust ON acc.owner = cust.id WHERE cust.id < 2 => scan, range by key (10, 1, 100, 'a')-(1, 'x') (13, 1, NULL, NULL)-(1, 'x')
SELECT * FROM acc JOIN event ON event.day = 1 AND event.acc = acc.id => scan, range by key (10, 1, 100, 'a')-(1, 10, 5) (11, 2, 50, 'b')-(1, 11, NULL)
SELECT * FROM acc JOIN event ON event.day = acc.owner AND event.acc = acc.id => scan, scan by key (10, 1, 100, 'a')-(1, 10, 5)
SELECT * FROM acc AS a JOIN acc AS b ON a.owner = b.id => scan, scan by key";

/// Beside each left row those with an equal cell, in the order of their keys; NULL is equal to nothing.
const HASHED: &str = "\
SELECT * FROM cust JOIN acc ON acc.owner = cust.id => scan, scan hashed (1, 'x')-(10, 1, 100, 'a') (1, 'x')-(13, 1, NULL, NULL) (2, 'a')-(11, 2, 50, 'b')
SELECT * FROM acc JOIN cust ON acc.name = cust.name => scan, scan hashed (10, 1, 100, 'a')-(2, 'a') (14, 9, 0, 'a')-(2, 'a')
SELECT * FROM acc AS a JOIN acc AS b ON a.owner = b.owner WHERE a.id < 13 => range, scan hashed (10, 1, 100, 'a')-(10, 1, 100, 'a') (10, 1, 100, 'a')-(13, 1, NULL, NULL) (11, 2, 50, 'b')-(11, 2, 50, 'b')
SELECT * FROM acc AS a JOIN acc AS b ON a.name = b.name AND a.amount > b.amount => scan, scan hashed (10, 1, 100, 'a')-(14, 9, 0, 'a')
SELECT * FROM acc JOIN cust ON acc.owner = cust.id AND cust.id = 1 => scan, point hashed (10, 1, 100, 'a')-(1, 'x') (13, 1, NULL, NULL)-(1, 'x')
SELECT * FROM acc JOIN event ON acc.id = event.acc => scan, scan hashed (10, 1, 100, 'a')-(1, 10, 5) (10, 1, 100, 'a')-(2, 10, 7) (11, 2, 50, 'b')-(1, 11, NULL)
SELECT * FROM cust JOIN event ON cust.id = event.size => scan, scan hashed";

#[test]
fn rows_of_one_table_are_kept(rt: HostRuntime) -> Result<(), Fail> {
    play(rt.alloc(), ALONE)
}

#[test]
fn nested_pairs_come_by_left_rows(rt: HostRuntime) -> Result<(), Fail> {
    play(rt.alloc(), NESTED)
}

#[test]
fn keys_follow_from_left_rows(rt: HostRuntime) -> Result<(), Fail> {
    play(rt.alloc(), BY_KEY)
}

#[test]
fn equal_cells_are_linked(rt: HostRuntime) -> Result<(), Fail> {
    play(rt.alloc(), HASHED)
}
