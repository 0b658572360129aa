//! What bound statements say: each line is a statement and its bound form.
use crate::checking::first_wrong;
use crate::tables::schema;
use std::test::Fail;

const STATEMENTS: &str = "
SELECT * FROM acc => select 0: #0 #1
SELECT * FROM acc JOIN cust ON TRUE => select 0 1: #0 #1 #2 #3 #4 #5 where TRUE
SELECT * FROM cust JOIN acc ON amount = region => select 1 0: #0 #1 #2 #3 #4 #5 where (#5 = #3)
SELECT amount, acc.id FROM acc WHERE acc.amount > -3 => select 0: #1 #0 where (#1 > -3)
SELECT c.id, a.id FROM cust AS c JOIN acc AS a ON a.amount = c.id => select 1 0: #0 #4 where (#5 = #0)
SELECT b.amount FROM acc AS a JOIN acc AS b ON a.id = b.id => select 0 0: #3 where (#0 = #2)
SELECT id FROM acc AS cust WHERE cust.amount = 1 => select 0: #0 where (#1 = 1)
SELECT name FROM acc JOIN cust ON good AND amount = 1 WHERE name = 'a' AND (good AND NULL) => select 0 1: #3 where #4 where (#1 = 1) where (#3 = 'a') where #4 where NULL
SELECT id FROM acc WHERE (id = 1 AND amount = 2) AND (id = 3 OR id = 4 AND id = 5) => select 0: #0 where (#0 = 1) where (#1 = 2) where ((#0 = 3) OR ((#0 = 4) AND (#0 = 5)))
SELECT id FROM acc WHERE NOT (id = 1 AND id = 2) => select 0: #0 where NOT ((#0 = 1) AND (#0 = 2))
SELECT id + 1 * 2 - 3 / amount, -(id), 'x''y' FROM acc => select 0: ((#0 + (1 * 2)) - (3 / #1)) -#0 'x''y'
SELECT id <> 1, id < 2, id <= 3, id >= 4, id IS NULL, id IS NOT NULL FROM acc => select 0: (#0 <> 1) (#0 < 2) (#0 <= 3) (#0 >= 4) #0 IS NULL #0 IS NOT NULL
SELECT NULL + NULL, NULL = NULL, -NULL, NOT NULL, NULL AND TRUE, 'a' = NULL, NULL < FALSE FROM acc => select 0: (NULL + NULL) (NULL = NULL) -NULL NOT NULL (NULL AND TRUE) ('a' = NULL) (NULL < FALSE)
SELECT COUNT(*), COUNT(name), SUM(id + 1), SUM(NULL), MIN(name), MAX(good) FROM cust => select 1: count count(#1) sum((#0 + 1)) sum(NULL) min(#1) max(#2) group
SELECT region, region + 1, COUNT(good) FROM cust GROUP BY region => select 1: #3 (#3 + 1) count(#2) group #3
SELECT id FROM acc GROUP BY amount, id, acc.amount, id => select 0: #0 group #1 #0
SELECT * FROM acc GROUP BY amount, id => select 0: #0 #1 group #1 #0
SELECT 1, COUNT(*) FROM acc => select 0: 1 count group
SELECT c.id, SUM(amount) FROM cust AS c JOIN acc ON TRUE GROUP BY c.id ORDER BY c.id DESC LIMIT 0 => select 1 0: #0 sum(#5) where TRUE group #0 down #0 limit 0
SELECT id FROM acc ORDER BY amount DESC, id ASC, acc.id LIMIT 9 => select 0: #0 down #1 up #0 up #0 limit 9
SELECT amount AS id, id AS x FROM acc ORDER BY id, acc.id, x DESC => select 0: #1 #0 up item 0 up #0 down item 1
SELECT id AS a, amount AS a FROM acc ORDER BY id => select 0: #0 #1 up #0
SELECT COUNT(*) AS n FROM acc ORDER BY n => select 0: count group up item 0
SELECT name FROM acc JOIN cust ON TRUE ORDER BY region, amount => select 0 1: #3 where TRUE up #5 up #1
SELECT * FROM acc WHERE id = 1 FOR UPDATE => lock 0: #0 #1 where (#0 = 1)
SELECT id AS a FROM acc ORDER BY a LIMIT 2 FOR UPDATE => lock 0: #0 up item 0 limit 2
EXPLAIN SELECT COUNT(*) FROM acc JOIN cust ON TRUE => explain 0 1: count where TRUE group
INSERT INTO acc VALUES (1, NULL), (1 + 2, -3) => insert 0: #0 #1 row 1 NULL row (1 + 2) -3
INSERT INTO acc(amount, id) VALUES (1, 2) => insert 0: #1 #0 row 1 2
INSERT INTO cust(good, name) VALUES (1 = 2, 'a') => insert 1: #2 #1 row (1 = 2) 'a'
INSERT INTO cust VALUES (NULL, NULL, NULL, NULL) => insert 1: #0 #1 #2 #3 row NULL NULL NULL NULL
UPDATE acc SET amount = acc.amount + id => update 0: set #1 (#1 + #0)
UPDATE cust SET good = id = 1, name = NULL WHERE good AND region = 2 AND id = 3 => update 1: set #2 (#0 = 1) set #1 NULL where #2 where (#3 = 2) where (#0 = 3)
DELETE FROM acc => delete 0:
DELETE FROM acc WHERE acc.id = 1 AND NULL => delete 0: where (#0 = 1) where NULL
SELECT a.id FROM acc AS a JOIN cust AS b ON b.region = a.id WHERE b.good => select 0 1: #0 where (#5 = #0) where #4
SELECT * FROM cust AS a JOIN cust AS b ON a.id = b.id AND a.region = b.region => select 1 1: #0 #1 #2 #3 #4 #5 #6 #7 where (#0 = #4) where (#3 = #7)
SELECT amount AS id FROM acc WHERE id = 1 => select 0: #1 where (#0 = 1)
SELECT amount AS id, COUNT(*) FROM acc GROUP BY amount ORDER BY id => select 0: #1 count group #1 up item 0
SELECT id FROM acc WHERE NULL => select 0: #0 where NULL
SELECT id FROM acc WHERE (NULL OR TRUE) AND NOT NULL => select 0: #0 where (NULL OR TRUE) where NOT NULL
SELECT SUM(amount), MIN(amount + id), COUNT(amount) FROM acc GROUP BY id => select 0: sum(#1) min((#1 + #0)) count(#1) group #0
SELECT acc.id FROM acc GROUP BY id ORDER BY id => select 0: #0 group #0 up #0
SELECT id AS amount, COUNT(*) FROM acc GROUP BY id ORDER BY amount DESC => select 0: #0 count group #0 down item 0
SELECT COUNT(*) AS amount FROM acc ORDER BY amount => select 0: count group up item 0
SELECT acc.id AS id FROM acc JOIN cust ON TRUE ORDER BY id => select 0 1: #0 where TRUE up item 0
SELECT id AS a, id AS a FROM acc ORDER BY acc.id => select 0: #0 #0 up #0
SELECT 9223372036854775807, -9223372036854775807, -0 FROM acc => select 0: 9223372036854775807 -9223372036854775807 0
EXPLAIN SELECT id FROM acc WHERE amount = 2 ORDER BY id DESC LIMIT 3 => explain 0: #0 where (#1 = 2) down #0 limit 3
INSERT INTO acc(amount) VALUES (1), (NULL), (2 * 3) => insert 0: #1 row 1 row NULL row (2 * 3)
INSERT INTO cust VALUES (1, 'a', FALSE, 2) => insert 1: #0 #1 #2 #3 row 1 'a' FALSE 2
UPDATE acc SET amount = NULL => update 0: set #1 NULL
UPDATE acc SET amount = amount WHERE id = 1 AND (amount = 2 AND id IS NOT NULL) => update 0: set #1 #1 where (#0 = 1) where (#1 = 2) where #0 IS NOT NULL
DELETE FROM cust WHERE good => delete 1: where #2
";

#[test]
fn bound_statements_say_what_is_written(rt: HostRuntime) -> Result<(), Fail> {
    let alloc = rt.alloc();
    let schema = schema(alloc)?;
    assert_eq!(rt; first_wrong(alloc, &schema, STATEMENTS)?, None);
    Ok(())
}
