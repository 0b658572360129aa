//! Queries that lock: what they answer, and what the transaction's net is behind them.
use exec_kit::{play, play_behind};
use std::test::Fail;

/// Rows that are kept are touched, also where no line shows their keys, and past LIMIT.
const TOUCHES: &str = "\
SELECT * FROM acc WHERE id = 2 FOR UPDATE => 1: (2, 8, 20); 0 (2)
SELECT id FROM acc WHERE id = 4 FOR UPDATE => 0:;
SELECT id FROM acc WHERE id = 2 AND amount > 20 FOR UPDATE => 1:;
SELECT amount FROM acc WHERE id < 4 FOR UPDATE => 3: (10) (20) (30); 0 (1) 0 (2) 0 (3)
SELECT id FROM acc WHERE owner = 7 FOR UPDATE => 2: (1) (5); 0 (1) 0 (5)
SELECT amount FROM acc WHERE amount > 10 FOR UPDATE => 5: (20) (30); 0 (2) 0 (3)
SELECT kind FROM event WHERE kind = 10 FOR UPDATE => 2: (10) (10); 2 (2, 0) 2 (3, 1)
SELECT 1 FROM cust FOR UPDATE => 3: (1) (1) (1); 1 ('ann') 1 ('bob') 1 ('eve')
SELECT * FROM void FOR UPDATE => 0:;
SELECT amount FROM acc WHERE id < 4 LIMIT 1 FOR UPDATE => 3: (10); 0 (1) 0 (2) 0 (3)
SELECT id FROM acc LIMIT 0 FOR UPDATE => 5:; 0 (1) 0 (2) 0 (3) 0 (5) 0 (8)
SELECT id FROM acc WHERE 10 / amount > 0 FOR UPDATE => 5: DivideByZero
SELECT 10 / amount FROM acc WHERE id > 5 FOR UPDATE => 1: DivideByZero
SELECT 10 / amount FROM acc LIMIT 1 FOR UPDATE => 5: DivideByZero";

/// All conditions come before the items, also for LIMIT 0, and of both the first fault of the first row is answered. The
/// greatest number is 9223372036854775805 and 2 more.
const FAULTS: &str = "\
SELECT 1 / (id - 1) FROM acc WHERE 9223372036854775800 + id > 0 FOR UPDATE => 5: Overflow
SELECT 9223372036854775807 + id FROM acc WHERE 1 / (id - 8) < 9 FOR UPDATE => 5: DivideByZero
SELECT id FROM acc WHERE 1 / (id - 5) < 9 AND 9223372036854775805 + id > 0 FOR UPDATE => 5: Overflow
SELECT id FROM acc WHERE 1 / (id - 2) < 9 AND 9223372036854775805 + id > 0 FOR UPDATE => 5: DivideByZero
SELECT 9223372036854775807 + id FROM acc WHERE id = 1 FOR UPDATE => 1: Overflow
SELECT 1 / (id - 1), 9223372036854775807 + id FROM acc WHERE id < 3 FOR UPDATE => 2: DivideByZero
SELECT 9223372036854775807 + id, 1 / (id - 1) FROM acc WHERE id < 3 FOR UPDATE => 2: Overflow
SELECT 1 / (id - 2), 9223372036854775807 + id FROM acc WHERE id < 3 FOR UPDATE => 2: Overflow
SELECT 1 / (id - 2), 9223372036854775806 + id FROM acc WHERE id < 3 FOR UPDATE => 2: DivideByZero
SELECT 1 / 0 FROM acc LIMIT 0 FOR UPDATE => 5: DivideByZero
SELECT 9223372036854775800 + id FROM acc LIMIT 1 FOR UPDATE => 5: Overflow
SELECT 9223372036854775800 + id FROM acc WHERE id < 8 LIMIT 1 FOR UPDATE => 4: (9223372036854775801); 0 (1) 0 (2) 0 (3) 0 (5)";

/// What a plan leaves out has no fault, and what stands behind arithmetic leaves nothing out.
const PLANS: &str = "\
SELECT id FROM acc WHERE id = 1 AND 10 / amount > 0 FOR UPDATE => 1: (1); 0 (1)
SELECT id FROM acc WHERE 10 / amount > 0 AND id = 1 FOR UPDATE => 5: DivideByZero
SELECT id FROM acc WHERE id < 8 AND 10 / amount > 0 FOR UPDATE => 4: (1); 0 (1)
SELECT id FROM acc WHERE 10 / amount > 0 AND id < 8 FOR UPDATE => 5: DivideByZero
SELECT id FROM acc WHERE owner = 7 AND 10 / amount > 0 FOR UPDATE => 2: (1); 0 (1)
SELECT id FROM acc WHERE 10 / amount > 0 AND owner = 7 FOR UPDATE => 5: DivideByZero
SELECT 10 / amount FROM acc WHERE owner < 9 FOR UPDATE => 3: (1) (0) (NULL); 0 (1) 0 (2) 0 (5)
SELECT 1 / 0 FROM acc WHERE id = 4 FOR UPDATE => 0:;
SELECT id FROM acc WHERE id = 4 AND 1 / 0 = 1 FOR UPDATE => 0:;
SELECT id FROM acc WHERE 1 / 0 = 1 AND id = 4 FOR UPDATE => 5: DivideByZero";

/// The net has a touch of the account 2 already, which stays.
const TOUCHED: &str = "\
SELECT * FROM acc WHERE id = 2 FOR UPDATE => 1: (2, 8, 20); 0 (2)
SELECT id FROM acc WHERE id < 4 FOR UPDATE => 3: (1) (2) (3); 0 (1) 0 (2) 0 (3)
SELECT id FROM acc WHERE id = 4 FOR UPDATE => 0:; 0 (2)
SELECT id FROM acc WHERE owner = 7 FOR UPDATE => 2: (1) (5); 0 (1) 0 (2) 0 (5)
SELECT 1 / 0 FROM acc WHERE id = 1 FOR UPDATE => 1: DivideByZero";

/// The transaction has changed the account 2, removed 3 and put 4, which the snapshot lacks.
const WRITES: &str = "\
+ 0: 2 8 25
- 0: 3 - 30
+ 0: 4 7 40";

/// What the transaction has written stays as it is.
const WRITTEN: &str = "\
SELECT * FROM acc WHERE id = 2 FOR UPDATE => 1: (2, 8, 25); +0 (2) (2, 8, 25) -0 (3) +0 (4) (4, 7, 40)
SELECT * FROM acc WHERE id = 3 FOR UPDATE => 0:; +0 (2) (2, 8, 25) -0 (3) +0 (4) (4, 7, 40)
SELECT id FROM acc WHERE owner = 7 FOR UPDATE => 3: (1) (4) (5); 0 (1) +0 (2) (2, 8, 25) -0 (3) +0 (4) (4, 7, 40) 0 (5)
SELECT id FROM acc WHERE id > 3 LIMIT 1 FOR UPDATE => 3: (4); +0 (2) (2, 8, 25) -0 (3) +0 (4) (4, 7, 40) 0 (5) 0 (8)
SELECT 10 / (amount - 30) FROM acc FOR UPDATE => 5: (0) (-2) (1) (NULL) (0); 0 (1) +0 (2) (2, 8, 25) -0 (3) +0 (4) (4, 7, 40) 0 (5) 0 (8)
SELECT id FROM acc WHERE 10 / (amount - 30) < 1 FOR UPDATE => 5: (1) (2) (8); 0 (1) +0 (2) (2, 8, 25) -0 (3) +0 (4) (4, 7, 40) 0 (8)
SELECT id FROM acc WHERE 10 / (amount - 20) < 1 FOR UPDATE => 5: (1) (4) (8); 0 (1) +0 (2) (2, 8, 25) -0 (3) +0 (4) (4, 7, 40) 0 (8)
SELECT id FROM acc WHERE 10 / (amount - 25) < 1 FOR UPDATE => 5: DivideByZero
SELECT 10 / (amount - 40) FROM acc FOR UPDATE => 5: DivideByZero";

#[test]
fn rows_that_are_kept_are_touched(rt: HostRuntime) -> Result<(), Fail> {
    play(rt.alloc(), TOUCHES)
}

#[test]
fn the_first_fault_is_answered(rt: HostRuntime) -> Result<(), Fail> {
    play(rt.alloc(), FAULTS)
}

#[test]
fn plans_leave_out_no_fault(rt: HostRuntime) -> Result<(), Fail> {
    play(rt.alloc(), PLANS)
}

#[test]
fn a_touch_stays_a_touch(rt: HostRuntime) -> Result<(), Fail> {
    play_behind(rt.alloc(), "= 0: 2 8 20", TOUCHED)
}

#[test]
fn what_is_written_stays(rt: HostRuntime) -> Result<(), Fail> {
    play_behind(rt.alloc(), WRITES, WRITTEN)
}
