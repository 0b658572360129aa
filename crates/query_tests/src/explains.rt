//! What EXPLAIN says of queries: the lines of their plans, each behind a bar. No row is handed out.
use exec_kit::play_over;
use std::test::Fail;

/// Customers, accounts with an index of their owners, and a table of 32 columns: its key has four of them, which aren't
/// in their order, and its indexes are of the last column, and of the two before the last.
const TABLES: &str = "\
cust|id i,name t|0|
acc|id i,owner i,amount i|0|by_owner 1
wide|c0 i,c1 i,c2 i,c3 i,c4 i,c5 i,c6 i,c7 i,c8 i,c9 i,c10 i,c11 i,c12 i,c13 i,c14 i,c15 i,c16 i,c17 i,c18 i,c19 i,c20 i,c21 i,c22 i,c23 i,c24 i,c25 i,c26 i,c27 i,c28 i,c29 i,c30 i,c31 i|3102|by_last v,by_two tu";

/// Each kind of access and of join. A table has its own name in its line, whatever it is called in the query.
const KINDS: &str = "\
EXPLAIN SELECT * FROM acc JOIN cust ON acc.owner = cust.id WHERE acc.id >= 10 => 0: | acc key range | cust scan, join by key
EXPLAIN SELECT * FROM cust AS c JOIN acc AS a ON a.owner = c.id => 0: | cust scan | acc scan, join hashed
EXPLAIN SELECT * FROM acc WHERE owner = 1 AND amount / 2 > 10 => 0: | acc index by_owner
EXPLAIN SELECT * FROM acc WHERE amount / 2 > 10 AND id = 10 => 0: | acc scan
EXPLAIN SELECT * FROM acc WHERE id = 10 => 0: | acc point
EXPLAIN SELECT * FROM acc WHERE owner = 1 => 0: | acc index by_owner
EXPLAIN SELECT COUNT(*) FROM acc => 0: | acc scan
EXPLAIN SELECT * FROM acc AS cust WHERE cust.owner < 5 => 0: | acc index by_owner
EXPLAIN SELECT a.id FROM acc AS a JOIN acc AS b ON TRUE WHERE b.owner = 1 AND a.id = 2 => 0: | acc point | acc index by_owner, join nested
EXPLAIN SELECT owner, SUM(amount) FROM acc WHERE id > -3 GROUP BY owner ORDER BY owner LIMIT 1 => 0: | acc key range";

/// Tests of the wide table. The columns of its key are c3, c1, c0 and c2, in this order.
const WIDE: &str = "\
EXPLAIN SELECT c31 FROM wide WHERE c0 = 1 AND c1 = 2 AND c2 = 3 AND c3 = 4 => 0: | wide point
EXPLAIN SELECT c31 FROM wide WHERE c2 = 3 AND c0 = 1 AND c1 = 2 AND c3 = 4 AND c31 = 5 => 0: | wide point
EXPLAIN SELECT c31 FROM wide WHERE c0 = 1 AND c1 = 2 AND c3 = 4 => 0: | wide key range
EXPLAIN SELECT c31 FROM wide WHERE c0 = 1 AND c1 = 2 AND c2 > 3 AND c3 = 4 => 0: | wide key range
EXPLAIN SELECT c31 FROM wide WHERE c3 > 4 AND c31 = 5 => 0: | wide key range
EXPLAIN SELECT c31 FROM wide WHERE c0 = 1 AND c1 = 2 AND c2 = 3 => 0: | wide scan
EXPLAIN SELECT c0 FROM wide WHERE c0 = 1 AND c31 = 5 => 0: | wide index by_last
EXPLAIN SELECT c0 FROM wide WHERE c31 > 5 AND c29 = 1 AND c30 = 2 => 0: | wide index by_two
EXPLAIN SELECT c0 FROM wide WHERE c31 > 5 AND c29 < 1 => 0: | wide index by_last
EXPLAIN SELECT c0 FROM wide WHERE c30 = 2 => 0: | wide scan
EXPLAIN SELECT c0 FROM wide WHERE c31 IS NULL AND c30 = c31 => 0: | wide scan";

/// The wide table beside itself.
const WIDE_JOINS: &str = "\
EXPLAIN SELECT a.c0 FROM wide AS a JOIN wide AS b ON a.c3 = b.c3 AND a.c1 = b.c1 AND a.c0 = b.c0 AND a.c2 = b.c2 => 0: | wide scan | wide scan, join by key
EXPLAIN SELECT a.c0 FROM wide AS a JOIN wide AS b ON a.c30 = b.c2 AND b.c0 = 7 WHERE b.c3 = 8 AND b.c1 = 9 => 0: | wide scan | wide key range, join by key
EXPLAIN SELECT a.c0 FROM wide AS a JOIN wide AS b ON a.c3 = b.c3 AND a.c1 = b.c1 AND a.c0 = b.c0 => 0: | wide scan | wide scan, join hashed
EXPLAIN SELECT a.c0 FROM wide AS a JOIN wide AS b ON a.c31 = b.c31 WHERE b.c3 = 1 AND b.c1 = 2 AND b.c0 = 3 AND b.c2 = 4 => 0: | wide scan | wide point, join hashed
EXPLAIN SELECT a.c0 FROM wide AS a JOIN wide AS b ON a.c31 = b.c31 AND a.c31 = 9 => 0: | wide index by_last | wide scan, join hashed
EXPLAIN SELECT a.c0 FROM wide AS a JOIN wide AS b ON a.c31 < b.c31 WHERE b.c31 = 9 => 0: | wide scan | wide index by_last, join nested";

#[test]
fn plans_are_explained(rt: HostRuntime) -> Result<(), Fail> {
    play_over(rt.alloc(), TABLES, "", "", KINDS)
}

#[test]
fn plans_of_a_wide_table_are_explained(rt: HostRuntime) -> Result<(), Fail> {
    play_over(rt.alloc(), TABLES, "", "", WIDE)
}

#[test]
fn joins_of_a_wide_table_are_explained(rt: HostRuntime) -> Result<(), Fail> {
    play_over(rt.alloc(), TABLES, "", "", WIDE_JOINS)
}
