//! Queries of two tables, of groups and in order, and how many rows are handed out for each.
use exec_kit::play_over;
use std::test::Fail;

/// Customers and their accounts, with an index of the owners.
const TABLES: &str = "\
cust|id i,name T|0|
acc|id i,owner I,amount I|0|by_owner 1";

const ROWS: &str = "\
0: 1 'Ann
0: 2 'Bob
1: 10 1 500
1: 11 1 250
1: 20 2 40";

/// Rows of the right table are handed out once, and by key one for each left row.
const JOINS: &str = "\
SELECT c.id, a.id FROM cust AS c JOIN acc AS a ON a.owner = c.id AND a.amount > 100 => 5: (1, 10) (1, 11)
SELECT a.id, c.name FROM acc AS a JOIN cust AS c ON a.owner = c.id WHERE a.id > 10 => 4: (11, 'Ann') (20, 'Bob')
SELECT a.id, c.name FROM acc AS a JOIN cust AS c ON a.owner = c.id WHERE a.id = 20 => 2: (20, 'Bob')
SELECT c.name, a.id FROM cust AS c JOIN acc AS a ON a.owner = 1 WHERE c.id = 2 => 3: ('Bob', 10) ('Bob', 11)
SELECT * FROM cust JOIN acc ON acc.owner = cust.id WHERE acc.amount < 300 => 5: (1, 'Ann', 11, 1, 250) (2, 'Bob', 20, 2, 40)
SELECT acc.id, cust.id FROM cust JOIN acc ON acc.amount > 100 LIMIT 3 => 5: (10, 1) (11, 1) (10, 2)
SELECT acc.id FROM cust JOIN acc ON acc.owner = cust.id ORDER BY acc.amount => 5: (20) (11) (10)
SELECT COUNT(*) FROM cust JOIN acc ON acc.amount > 100 => 5: (4)";

const GROUPS: &str = "\
SELECT owner, COUNT(*), MAX(amount) FROM acc GROUP BY owner ORDER BY owner DESC LIMIT 1 => 3: (2, 1, 40)
SELECT COUNT(*) FROM acc WHERE amount > 1000 GROUP BY owner => 3:
SELECT COUNT(*) FROM acc WHERE id = 20 => 1: (1)
SELECT id FROM acc ORDER BY amount LIMIT 2 => 3: (20) (11)
SELECT id FROM acc WHERE owner = 1 ORDER BY amount => 2: (11) (10)
SELECT c.name, COUNT(*), SUM(a.amount) FROM cust AS c JOIN acc AS a ON a.owner = c.id GROUP BY c.name ORDER BY c.name DESC => 5: ('Bob', 1, 40) ('Ann', 2, 750)";

/// The same with what the transaction itself has written.
const OWN: &str = "\
+ 1: 10 1 400
+ 1: 20 2 140";

const BEHIND_OWN: &str = "\
SELECT c.name, COUNT(*), SUM(a.amount) FROM cust AS c JOIN acc AS a ON a.owner = c.id GROUP BY c.name ORDER BY c.name DESC => 5: ('Bob', 1, 140) ('Ann', 2, 650)";

/// Conditions come before all lines, and ORDER BY and LIMIT spare none of these.
const FAULTS: &str = "\
SELECT SUM(1 / (amount - 500)) FROM acc => 3: DivideByZero
SELECT SUM(1 / (amount - 500)) FROM acc WHERE 9223372036854775807 + amount > 0 => 3: Overflow
SELECT 1 / (amount - 40) AS x FROM acc ORDER BY x LIMIT 1 => 3: DivideByZero
SELECT 1 / (a.amount - 500) FROM cust AS c JOIN acc AS a ON a.owner = c.id AND c.id > 1 => 4: (0)
SELECT 1 / (a.amount - 500) FROM cust AS c JOIN acc AS a ON a.owner = c.id => 5: DivideByZero
SELECT c.id FROM cust AS c JOIN acc AS a ON a.owner = c.id AND 9223372036854775806 + c.id > 1 / (a.id - 11) => 5: DivideByZero";

/// Sums that are out of range, NULL first, and a sum of nothing.
const WHOLE_SUMS: &str = "\
SELECT SUM(amount) FROM acc => 3: Overflow
SELECT COUNT(*), MIN(amount) FROM acc WHERE id > 1 => 2: (2, 1)
SELECT id FROM acc ORDER BY amount => 3: (3) (2) (1)
SELECT SUM(amount) FROM acc WHERE id = 9 => 0: (NULL)";

#[test]
fn tables_are_joined_by_their_plan(rt: HostRuntime) -> Result<(), Fail> {
    play_over(rt.alloc(), TABLES, ROWS, "", JOINS)
}

#[test]
fn groups_and_orders_are_of_what_is_kept(rt: HostRuntime) -> Result<(), Fail> {
    play_over(rt.alloc(), TABLES, ROWS, "", GROUPS)
}

#[test]
fn own_writes_are_joined(rt: HostRuntime) -> Result<(), Fail> {
    play_over(rt.alloc(), TABLES, ROWS, OWN, BEHIND_OWN)
}

#[test]
fn conditions_fail_before_lines(rt: HostRuntime) -> Result<(), Fail> {
    play_over(rt.alloc(), TABLES, ROWS, "", FAULTS)
}

#[test]
fn sums_are_exact_over_the_whole(rt: HostRuntime) -> Result<(), Fail> {
    let rows = "0: 1 9223372036854775807\n0: 2 1\n0: 3 -";
    play_over(rt.alloc(), "acc|id i,amount i|0|", rows, "", WHOLE_SUMS)
}
