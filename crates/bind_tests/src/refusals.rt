//! Refusals, and which of two comes first: each line is a statement and what it is refused for.
use crate::checking::first_wrong;
use crate::tables::schema;
use std::test::Fail;

/// Tables and their names, before all else.
const TABLES: &str = "
SELECT * FROM nix => 20 nix
SELECT x FROM nix WHERE 1 => 20 nix
SELECT * FROM nix JOIN nax ON TRUE => 20 nix
SELECT * FROM acc JOIN nax ON x => 20 nax
SELECT * FROM nix AS a JOIN acc AS a ON TRUE => 20 nix
SELECT * FROM acc AS a JOIN nax AS a ON TRUE => 20 nax
SELECT * FROM acc JOIN acc ON x => 22 acc
SELECT * FROM acc AS a JOIN cust AS a ON x => 22 a
SELECT * FROM acc AS cust JOIN cust ON x => 22 cust
SELECT * FROM nix JOIN acc ON 1 => 20 nix
SELECT * FROM nix AS a JOIN acc AS a ON x WHERE y => 20 nix
SELECT id FROM nix GROUP BY x => 20 nix
SELECT amount, COUNT(*) FROM nix => 20 nix
SELECT 1 + 'a' FROM nix => 20 nix
SELECT id FROM nix ORDER BY x => 20 nix
SELECT id AS a, id AS a FROM nix ORDER BY a => 20 nix
SELECT * FROM acc JOIN nix ON TRUE WHERE 1 => 20 nix
SELECT acc.id FROM acc JOIN nix ON TRUE GROUP BY y => 20 nix
SELECT x FROM acc JOIN nix ON TRUE => 20 nix
SELECT 1 + 'a' FROM acc JOIN nix ON TRUE => 20 nix
SELECT acc.id FROM acc JOIN nix ON TRUE ORDER BY y => 20 nix
SELECT * FROM acc JOIN acc ON TRUE WHERE 1 => 22 acc
SELECT * FROM acc JOIN acc ON TRUE GROUP BY x => 22 acc
SELECT x FROM acc JOIN acc ON TRUE => 22 acc
SELECT * FROM acc JOIN acc ON TRUE ORDER BY x => 22 acc
SELECT amount, COUNT(*) FROM acc AS a JOIN cust AS a ON 1 => 22 a
SELECT * FROM ACC => 20 ACC
SELECT acc.id FROM acc AS a JOIN acc AS b ON TRUE => 21 acc.id
SELECT * FROM acc JOIN acc AS b ON id = 1 => 22 id
SELECT * FROM acc AS b JOIN acc ON b.id = acc.x => 21 acc.x
SELECT a.id FROM acc => 21 a.id
SELECT ID FROM acc => 21 ID
SELECT Acc.id FROM acc => 21 Acc.id
";

/// ON, then WHERE, before what stands behind them.
const CONDITIONS: &str = "
SELECT * FROM acc JOIN cust ON x WHERE 1 => 21 x
SELECT * FROM acc JOIN cust ON 1 WHERE x => 23
SELECT * FROM acc JOIN cust ON id = 1 => 22 id
SELECT * FROM acc JOIN cust ON cust.amount = 1 => 21 cust.amount
SELECT * FROM acc AS a WHERE acc.id = 1 => 21 acc.id
SELECT * FROM acc WHERE cust.id = 1 => 21 cust.id
SELECT x FROM acc WHERE 1 GROUP BY y => 23
SELECT x FROM acc WHERE z GROUP BY y => 21 z
SELECT id FROM acc WHERE 'a' => 23
SELECT id AS a FROM acc WHERE a = 1 => 21 a
SELECT name FROM acc JOIN cust ON id = 1 WHERE x => 22 id
SELECT name FROM acc JOIN cust ON 'a' = 1 WHERE id = 1 => 23
SELECT name FROM acc JOIN cust ON name = amount WHERE x => 23
SELECT * FROM acc JOIN cust ON x GROUP BY y => 21 x
SELECT * FROM acc JOIN cust ON 1 GROUP BY y => 23
SELECT y FROM acc JOIN cust ON x => 21 x
SELECT id FROM acc JOIN cust ON 1 => 23
SELECT amount, COUNT(*) FROM acc JOIN cust ON 1 => 23
SELECT name FROM acc JOIN cust ON 1 ORDER BY id => 23
SELECT name FROM acc JOIN cust ON id = 1 ORDER BY x => 22 id
SELECT name FROM acc JOIN cust ON TRUE WHERE id = 1 => 22 id
SELECT name FROM acc JOIN cust ON TRUE WHERE id = 1 GROUP BY x => 22 id
SELECT name FROM acc JOIN cust ON TRUE WHERE 1 GROUP BY id => 23
SELECT x FROM acc WHERE 1 => 23
SELECT 1 + 'a' FROM acc WHERE x => 21 x
SELECT amount, COUNT(*) FROM acc WHERE 1 => 23
SELECT id FROM acc WHERE 1 ORDER BY x => 23
SELECT id FROM acc WHERE x ORDER BY y => 21 x
SELECT id AS a, amount AS a FROM acc WHERE 1 ORDER BY a => 23
SELECT id FROM acc WHERE 1 AND x => 21 x
SELECT id FROM acc WHERE (1 AND TRUE) AND x => 23
SELECT id FROM acc WHERE id => 23
SELECT id FROM acc WHERE -id => 23
SELECT id AS good FROM acc WHERE good => 21 good
SELECT name AS id FROM cust WHERE id = 'a' => 23
SELECT id AS name FROM cust WHERE name = 1 => 23
";

/// GROUP BY before the items.
const GROUPS: &str = "
SELECT x FROM acc GROUP BY y => 21 y
SELECT x FROM acc GROUP BY y, id => 21 y
SELECT amount FROM acc GROUP BY id, y => 21 y
SELECT name FROM acc JOIN cust ON TRUE GROUP BY id => 22 id
SELECT id AS a FROM acc GROUP BY a => 21 a
SELECT id FROM acc GROUP BY x ORDER BY y => 21 x
SELECT 1 + 'a' FROM acc GROUP BY y => 21 y
SELECT amount FROM acc JOIN cust ON TRUE GROUP BY id => 22 id
SELECT x FROM acc JOIN cust ON TRUE GROUP BY id => 22 id
SELECT name FROM acc JOIN cust ON TRUE GROUP BY x, id => 21 x
SELECT name FROM acc JOIN cust ON TRUE GROUP BY id, x => 22 id
SELECT name FROM acc JOIN cust ON TRUE GROUP BY name, cust.x => 21 cust.x
SELECT name FROM acc JOIN cust ON TRUE GROUP BY id ORDER BY x => 22 id
SELECT id AS a, id AS a FROM acc GROUP BY id, x ORDER BY a => 21 x
SELECT id FROM acc AS a GROUP BY acc.id => 21 acc.id
SELECT amount AS id, COUNT(*) FROM acc GROUP BY id => 26 amount
";

/// Items from left to right, and in each the left part, the right one and then the operator.
const ITEMS: &str = "
SELECT x + y FROM acc => 21 x
SELECT 'a' + x FROM acc => 21 x
SELECT ('a' + 1) + x FROM acc => 23
SELECT x + ('a' + 1) FROM acc => 21 x
SELECT id + (name + x) FROM acc JOIN cust ON TRUE => 22 id
SELECT 'a' + 1, x FROM acc => 23
SELECT x, 'a' + 1 FROM acc => 21 x
SELECT -'a' FROM acc => 23
SELECT NOT 1 FROM acc => 23
SELECT 1 AND TRUE FROM acc => 23
SELECT TRUE OR 'a' FROM acc => 23
SELECT id = 'a' FROM acc => 23
SELECT id < TRUE FROM acc => 23
SELECT (x IS NULL) + 1 FROM acc => 21 x
SELECT (id IS NULL) + 1 FROM acc => 23
SELECT SUM('a') FROM acc => 23
SELECT SUM(x = 'a' + 1) FROM acc => 21 x
SELECT SUM(id = 1) FROM acc => 23
SELECT COUNT(x) FROM acc => 21 x
SELECT MIN(1 + 'a') FROM acc => 23
SELECT MAX(cust.id) FROM acc => 21 cust.id
SELECT amount FROM acc GROUP BY id => 26 amount
SELECT acc.amount FROM acc GROUP BY id => 26 acc.amount
SELECT amount, COUNT(*) FROM acc => 26 amount
SELECT COUNT(*), amount FROM acc => 26 amount
SELECT * FROM acc GROUP BY amount => 26 id
SELECT * FROM acc GROUP BY id => 26 amount
SELECT * FROM acc JOIN cust ON TRUE GROUP BY acc.id, amount, cust.id, good => 26 name
SELECT 'a' + amount, COUNT(*) FROM acc => 26 amount
SELECT amount + 'a', x, COUNT(*) FROM acc => 26 amount
SELECT x + amount, COUNT(*) FROM acc => 21 x
SELECT amount + x, COUNT(*) FROM acc => 26 amount
SELECT id, COUNT(*) FROM acc JOIN cust ON TRUE => 22 id
SELECT amount, SUM('a') FROM acc => 26 amount
SELECT SUM('a'), amount FROM acc => 23
SELECT NOT id FROM acc => 23
SELECT -good FROM cust => 23
SELECT good + 1 FROM cust => 23
SELECT id = name FROM cust => 23
SELECT name < good FROM cust => 23
SELECT id AND good FROM cust => 23
SELECT good OR 1 FROM cust => 23
SELECT NULL + 'a' FROM acc => 23
SELECT (NULL + 1) = 'a' FROM acc => 23
SELECT -NULL = 'a' FROM acc => 23
SELECT (NULL = NULL) + 1 FROM acc => 23
SELECT (NULL AND NULL) = 1 FROM acc => 23
SELECT (name IS NULL) = name FROM cust => 23
SELECT SUM(name) FROM cust => 23
SELECT SUM(good) FROM cust => 23
SELECT COUNT(id) FROM acc JOIN cust ON TRUE => 22 id
SELECT COUNT(1 + 'a'), amount FROM acc => 23
SELECT COUNT(x), amount FROM acc => 21 x
SELECT amount, COUNT(x) FROM acc => 26 amount
SELECT amount, x, COUNT(*) FROM acc => 26 amount
SELECT -(amount + 'a'), COUNT(*) FROM acc => 26 amount
SELECT NOT amount, COUNT(*) FROM acc => 26 amount
SELECT amount IS NULL, COUNT(*) FROM acc => 26 amount
SELECT 1 + 'a' + amount, COUNT(*) FROM acc => 23
SELECT id, COUNT(*) FROM acc AS a GROUP BY a.amount => 26 id
SELECT cust.id, COUNT(*) FROM acc JOIN cust ON TRUE GROUP BY acc.id => 26 cust.id
SELECT name, COUNT(*) FROM acc JOIN cust ON TRUE GROUP BY amount, cust.id => 26 name
SELECT * FROM cust GROUP BY name, id => 26 good
SELECT * FROM acc JOIN cust ON TRUE GROUP BY acc.id, amount => 26 id
SELECT 1 + 'a' FROM acc ORDER BY x => 23
SELECT id FROM acc JOIN cust ON TRUE ORDER BY x => 22 id
SELECT amount, COUNT(*) FROM acc ORDER BY x => 26 amount
SELECT * FROM acc GROUP BY id ORDER BY x => 26 amount
SELECT x AS a, id AS a FROM acc ORDER BY a => 21 x
SELECT SUM('a') AS a, COUNT(*) AS a FROM acc ORDER BY a => 23
";

/// ORDER BY behind the items.
const ORDERS: &str = "
SELECT x FROM acc ORDER BY y => 21 x
SELECT id FROM acc ORDER BY y => 21 y
SELECT id FROM acc ORDER BY y, acc.z => 21 y
SELECT id FROM acc ORDER BY cust.id => 21 cust.id
SELECT name FROM acc JOIN cust ON TRUE ORDER BY id => 22 id
SELECT COUNT(*) FROM acc ORDER BY amount => 26 amount
SELECT COUNT(*) FROM acc ORDER BY acc.amount => 26 acc.amount
SELECT COUNT(*) FROM acc ORDER BY x => 21 x
SELECT id FROM acc GROUP BY id ORDER BY amount => 26 amount
SELECT amount AS a, COUNT(*) FROM acc ORDER BY a => 26 amount
SELECT id AS a, amount AS a FROM acc ORDER BY a => 22 a
SELECT id AS a, amount AS a, COUNT(*) FROM acc ORDER BY a => 26 id
SELECT id AS a, amount AS a FROM acc ORDER BY acc.a => 21 acc.a
SELECT id AS a, amount AS a FROM acc ORDER BY x, a => 21 x
SELECT id AS a FROM acc ORDER BY acc.a => 21 acc.a
SELECT * FROM acc ORDER BY x => 21 x
SELECT COUNT(*) FROM acc JOIN cust ON TRUE ORDER BY id => 22 id
SELECT COUNT(*) FROM acc ORDER BY amount, x => 26 amount
SELECT COUNT(*) FROM acc ORDER BY x, amount => 21 x
SELECT id FROM acc GROUP BY id ORDER BY acc.id, acc.amount => 26 acc.amount
SELECT COUNT(*) AS amount FROM acc ORDER BY acc.amount => 26 acc.amount
SELECT id AS a, amount AS a FROM acc ORDER BY a, x => 22 a
SELECT id AS amount, id AS amount FROM acc ORDER BY amount => 22 amount
SELECT COUNT(*) AS a, SUM(id) AS a FROM acc ORDER BY a, amount => 22 a
SELECT COUNT(*) AS a, SUM(id) AS a FROM acc ORDER BY amount, a => 26 amount
SELECT name FROM acc JOIN cust ON TRUE ORDER BY id, x => 22 id
SELECT name FROM acc JOIN cust ON TRUE ORDER BY x, id => 21 x
SELECT name FROM acc JOIN cust ON TRUE ORDER BY acc.name => 21 acc.name
SELECT id AS x FROM acc ORDER BY X => 21 X
";

/// FOR UPDATE, whose own refusal is the last.
const LOCKS: &str = "
SELECT * FROM acc JOIN cust ON TRUE FOR UPDATE => 27
SELECT id FROM acc GROUP BY id FOR UPDATE => 27
SELECT COUNT(*) FROM acc FOR UPDATE => 27
SELECT COUNT(*) FROM acc ORDER BY x FOR UPDATE => 21 x
SELECT COUNT(*) FROM acc ORDER BY id FOR UPDATE => 26 id
SELECT * FROM acc JOIN cust ON 1 FOR UPDATE => 23
SELECT * FROM nix JOIN acc ON TRUE FOR UPDATE => 20 nix
SELECT * FROM acc JOIN nix ON TRUE FOR UPDATE => 20 nix
SELECT * FROM acc JOIN acc ON TRUE FOR UPDATE => 22 acc
SELECT * FROM acc JOIN cust ON x FOR UPDATE => 21 x
SELECT * FROM acc JOIN cust ON TRUE WHERE 1 FOR UPDATE => 23
SELECT id FROM acc GROUP BY x FOR UPDATE => 21 x
SELECT amount FROM acc GROUP BY id FOR UPDATE => 26 amount
SELECT x, COUNT(*) FROM acc FOR UPDATE => 21 x
SELECT SUM('a') FROM acc FOR UPDATE => 23
SELECT id AS a, id AS a FROM acc GROUP BY id ORDER BY a FOR UPDATE => 22 a
SELECT name FROM acc JOIN cust ON TRUE ORDER BY id FOR UPDATE => 22 id
SELECT * FROM nix FOR UPDATE => 20 nix
SELECT id FROM acc WHERE 1 FOR UPDATE => 23
SELECT x FROM acc FOR UPDATE => 21 x
SELECT id FROM acc ORDER BY x FOR UPDATE => 21 x
SELECT MIN(id) FROM acc LIMIT 1 FOR UPDATE => 27
SELECT id FROM acc GROUP BY id ORDER BY id FOR UPDATE => 27
SELECT * FROM acc AS a JOIN acc AS b ON TRUE FOR UPDATE => 27
SELECT COUNT(*) FROM acc JOIN cust ON TRUE FOR UPDATE => 27
";

/// Queries that are explained, as others.
const EXPLAINS: &str = "
EXPLAIN SELECT x FROM acc => 21 x
EXPLAIN SELECT * FROM nix => 20 nix
EXPLAIN SELECT * FROM nix JOIN nax ON x => 20 nix
EXPLAIN SELECT * FROM acc JOIN nax ON x => 20 nax
EXPLAIN SELECT * FROM acc JOIN acc ON x => 22 acc
EXPLAIN SELECT * FROM acc JOIN cust ON 1 WHERE x => 23
EXPLAIN SELECT x FROM acc WHERE 1 GROUP BY y => 23
EXPLAIN SELECT x FROM acc GROUP BY y => 21 y
EXPLAIN SELECT amount, x FROM acc GROUP BY id => 26 amount
EXPLAIN SELECT 1 + 'a' FROM acc ORDER BY x => 23
EXPLAIN SELECT id AS a, amount AS a FROM acc ORDER BY a, x => 22 a
EXPLAIN SELECT COUNT(*) FROM acc ORDER BY x, id => 21 x
";

/// The table, the list of columns, and the rows.
const INSERTS: &str = "
INSERT INTO nix(a, a) VALUES (1) => 20 nix
INSERT INTO acc(x, id, id) VALUES (1) => 21 x
INSERT INTO acc(id, id, x) VALUES (1) => 22 id
INSERT INTO acc(id, x, id) VALUES (1) => 21 x
INSERT INTO acc(id, amount, id) VALUES (y) => 22 id
INSERT INTO acc(x) VALUES (1, 2) => 21 x
INSERT INTO acc VALUES (x) => 24
INSERT INTO acc VALUES (1, 2, 3) => 24
INSERT INTO acc(amount) VALUES (1, 2) => 24
INSERT INTO acc VALUES (x, 'a') => 21 x
INSERT INTO acc VALUES ('a', x) => 23
INSERT INTO acc VALUES (id, 1) => 21 id
INSERT INTO acc VALUES (1, acc.id) => 21 acc.id
INSERT INTO acc VALUES (1, x), (1) => 21 x
INSERT INTO acc VALUES (1), (1, x) => 24
INSERT INTO acc VALUES ('a', 2), (1) => 23
INSERT INTO acc VALUES (1, 2), (1, TRUE) => 23
INSERT INTO acc(amount, id) VALUES (TRUE, x) => 23
INSERT INTO cust(name, id, region) VALUES (1, 2, 3) => 23
INSERT INTO nix VALUES (x) => 20 nix
INSERT INTO nix VALUES (1 + 'a') => 20 nix
INSERT INTO nix(x) VALUES (1, 2) => 20 nix
INSERT INTO acc(x, x) VALUES (1) => 21 x
INSERT INTO acc(id, amount, x, id) VALUES (1) => 21 x
INSERT INTO acc(ID) VALUES (1) => 21 ID
INSERT INTO acc(x) VALUES (y) => 21 x
INSERT INTO acc(id, x) VALUES (1 + 'a', 1) => 21 x
INSERT INTO acc(id, id) VALUES (1) => 22 id
INSERT INTO acc(id, id) VALUES (x, 1) => 22 id
INSERT INTO acc(id, id) VALUES ('a', 1) => 22 id
INSERT INTO acc VALUES ('a') => 24
INSERT INTO acc VALUES (1 + 'a') => 24
INSERT INTO acc VALUES ('a', x, 1) => 24
INSERT INTO acc(id) VALUES (1, x) => 24
INSERT INTO acc VALUES (1 + 'a', x) => 23
INSERT INTO acc VALUES ('a' + x, 1) => 21 x
INSERT INTO acc VALUES (x = 1, 2) => 21 x
INSERT INTO acc VALUES (x IS NULL, 1) => 21 x
INSERT INTO acc VALUES (amount, 'a') => 21 amount
INSERT INTO acc VALUES (1 = 1, 2) => 23
INSERT INTO acc VALUES (1, x), ('a', 1) => 21 x
INSERT INTO acc VALUES (1, 2), (x, 1), (1) => 21 x
INSERT INTO acc VALUES (1, 2), (1), ('a', 1) => 24
INSERT INTO acc VALUES (1, 2), ('a', 1), (x, 1) => 23
INSERT INTO cust(good) VALUES (1) => 23
INSERT INTO cust(name) VALUES (TRUE) => 23
INSERT INTO cust VALUES (1, 'a', TRUE) => 24
INSERT INTO cust VALUES (1, 'a', 1, x) => 23
";

/// The table, what is set, and WHERE.
const UPDATES: &str = "
UPDATE nix SET a = 1 WHERE 1 => 20 nix
UPDATE acc SET x = y => 21 x
UPDATE acc SET id = y => 25 id
UPDATE cust SET region = 'a' => 25 region
UPDATE acc SET id = 1, id = 2 => 25 id
UPDATE acc SET x = 1, id = 2 => 21 x
UPDATE acc SET id = 1, x = 2 => 25 id
UPDATE acc SET amount = 1, amount = x => 22 amount
UPDATE acc SET amount = 1, id = x => 25 id
UPDATE acc SET amount = 1, amount = 2, id = 3 => 22 amount
UPDATE acc SET amount = x, amount = 1 => 21 x
UPDATE acc SET amount = 'a', id = 1 => 23
UPDATE acc SET amount = x + 'a' WHERE 1 => 21 x
UPDATE acc SET amount = 'a' + x WHERE 1 => 21 x
UPDATE acc SET amount = 'a' WHERE x => 23
UPDATE acc SET amount = 1 WHERE x => 21 x
UPDATE acc SET amount = 1 WHERE 1 => 23
UPDATE acc SET amount = cust.id WHERE 1 => 21 cust.id
UPDATE nix SET a = 1, a = 2 => 20 nix
UPDATE nix SET a = 1 + 'a' => 20 nix
UPDATE nix SET a = x WHERE y => 20 nix
UPDATE acc SET x = 1 + 'a' => 21 x
UPDATE acc SET x = 1, amount = y => 21 x
UPDATE acc SET x = 1, amount = 1, amount = 2 => 21 x
UPDATE acc SET x = 1 WHERE 1 => 21 x
UPDATE acc SET AMOUNT = 1 => 21 AMOUNT
UPDATE acc SET id = 1 + 'a' => 25 id
UPDATE acc SET id = x, amount = 'a' => 25 id
UPDATE acc SET id = 1 WHERE x => 25 id
UPDATE acc SET amount = 1, id = 1, amount = 2 => 25 id
UPDATE acc SET amount = 1, x = 2, amount = 3 => 21 x
UPDATE acc SET amount = 1, amount = 2, x = 3 => 22 amount
UPDATE acc SET amount = 1, amount = 'a' => 22 amount
UPDATE acc SET amount = 1, amount = 2 WHERE x => 22 amount
UPDATE acc SET amount = x, id = 1 => 21 x
UPDATE acc SET amount = x, y = 1 => 21 x
UPDATE acc SET amount = x = 1 => 21 x
UPDATE acc SET amount = nix.id => 21 nix.id
UPDATE acc SET amount = 'a', x = 1 => 23
UPDATE acc SET amount = 'a', amount = 1 => 23
UPDATE acc SET amount = 1 + 'a' WHERE x => 23
UPDATE cust SET name = x, good = 1 => 21 x
UPDATE cust SET name = 1, good = x => 23
UPDATE cust SET name = 1, region = 1 => 23
UPDATE cust SET region = 1, name = 1 => 25 region
UPDATE cust SET id = 'a' => 25 id
UPDATE cust SET good = good AND name => 23
UPDATE cust SET good = id => 23
UPDATE acc SET amount = 1 WHERE 'a' = x => 21 x
UPDATE acc SET amount = 1 WHERE 1 AND x => 21 x
";

/// The table and WHERE.
const DELETES: &str = "
DELETE FROM nix WHERE 1 => 20 nix
DELETE FROM acc WHERE x = 'a' + 1 => 21 x
DELETE FROM acc WHERE 1 => 23
DELETE FROM acc WHERE cust.id = 1 => 21 cust.id
DELETE FROM ACC => 20 ACC
DELETE FROM nix WHERE x = 'a' => 20 nix
DELETE FROM acc WHERE 'a' + 1 = x => 23
DELETE FROM acc WHERE ('a' + 1) AND x => 23
DELETE FROM acc WHERE 1 AND x => 21 x
DELETE FROM acc WHERE 1 OR x => 21 x
DELETE FROM acc WHERE NOT x => 21 x
DELETE FROM acc WHERE NOT 1 => 23
DELETE FROM acc WHERE id = 'a' => 23
DELETE FROM acc WHERE id => 23
DELETE FROM acc WHERE acc.id = acc.x => 21 acc.x
DELETE FROM cust WHERE name => 23
";

#[test]
fn statements_are_refused_in_the_order_of_binding(rt: HostRuntime) -> Result<(), Fail> {
    let alloc = rt.alloc();
    let schema = schema(alloc)?;
    for lines in [
        TABLES, CONDITIONS, GROUPS, ITEMS, ORDERS, LOCKS, EXPLAINS, INSERTS, UPDATES, DELETES,
    ] {
        assert_eq!(rt; first_wrong(alloc, &schema, lines)?, None);
    }
    Ok(())
}
