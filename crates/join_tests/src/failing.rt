//! First faults: rows before rows, left ones before right ones, and a test after those before it.
use crate::playing::play;
use std::test::Fail;

/// A test that isn't true spares those behind it; a fault comes where its test is evaluated first.
const TESTS_IN_ORDER: &str = "\
SELECT * FROM acc WHERE 1000 / amount > 0 => scan DivideByZero
SELECT * FROM acc WHERE name = 'b' AND 1000 / amount > 0 => scan (11, 2, 50, 'b')
SELECT * FROM acc WHERE id < 12 AND 1000 / amount > 0 => range (10, 1, 100, 'a') (11, 2, 50, 'b')
SELECT * FROM acc WHERE 1000 / amount > 0 AND id < 12 => scan DivideByZero
SELECT * FROM acc WHERE owner = 2 AND 9223372036854775807 + id > 0 => index Overflow
SELECT * FROM acc JOIN cust ON acc.owner = cust.id AND 1000 / acc.amount > 0 => scan, scan by key (10, 1, 100, 'a')-(1, 'x') (11, 2, 50, 'b')-(2, 'a')
SELECT * FROM cust JOIN acc ON acc.owner = cust.id AND 1000 / acc.amount > 0 => scan, scan hashed (1, 'x')-(10, 1, 100, 'a') (2, 'a')-(11, 2, 50, 'b')
SELECT * FROM acc JOIN cust ON 1000 / acc.amount > 0 AND acc.owner = cust.id => scan, scan nested DivideByZero";

/// The first pair that has a fault tells it.
const PAIRS_IN_ORDER: &str = "\
SELECT * FROM cust JOIN event ON 9223372036854775806 + cust.id > 10 / (event.size - 7) => scan, scan nested DivideByZero
SELECT * FROM cust JOIN event ON 9223372036854775805 + cust.id > 10 / (event.size - 5) => scan, scan nested DivideByZero
SELECT * FROM event JOIN cust ON 9223372036854775806 + cust.id > 10 / (event.size - 7) => scan, scan nested Overflow
SELECT * FROM cust JOIN acc ON acc.owner = cust.id AND 9223372036854775806 + cust.id > 10 / (acc.id - 11) => scan, scan hashed Overflow
SELECT * FROM cust JOIN acc ON acc.owner = cust.id AND 9223372036854775806 + cust.id > 10 / (acc.id - 13) => scan, scan hashed DivideByZero
SELECT * FROM acc JOIN cust ON acc.owner = cust.id AND 9223372036854775806 + cust.id > 10 / (acc.id - 13) => scan, scan by key Overflow";

#[test]
fn tests_are_evaluated_in_order(rt: HostRuntime) -> Result<(), Fail> {
    play(rt.alloc(), TESTS_IN_ORDER)
}

#[test]
fn pairs_are_tested_in_order(rt: HostRuntime) -> Result<(), Fail> {
    play(rt.alloc(), PAIRS_IN_ORDER)
}
