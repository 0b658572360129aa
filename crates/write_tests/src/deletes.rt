//! DELETE: how many rows it changes, and what the transaction's net is behind it.
use exec_kit::{play, play_behind};
use std::test::Fail;

/// Rows that are kept are removed.
const REMOVALS: &str = "\
DELETE FROM acc WHERE id = 2 => 1: 1; -0 (2)
DELETE FROM acc WHERE id = 4 => 0: 0;
DELETE FROM acc WHERE id = 2 AND amount > 20 => 1: 0;
DELETE FROM acc WHERE id > 2 AND id <= 5 => 2: 2; -0 (3) -0 (5)
DELETE FROM acc WHERE owner = 7 => 2: 2; -0 (1) -0 (5)
DELETE FROM acc WHERE amount > 10 => 5: 2; -0 (2) -0 (3)
DELETE FROM acc => 5: 5; -0 (1) -0 (2) -0 (3) -0 (5) -0 (8)
DELETE FROM event WHERE kind = 10 => 2: 2; -2 (2, 0) -2 (3, 1)
DELETE FROM cust WHERE good IS NULL => 3: 1; -1 ('bob')
DELETE FROM void => 0: 0;
DELETE FROM acc WHERE 10 / amount > 0 => 5: DivideByZero
DELETE FROM acc WHERE id < 8 AND 10 / amount > 0 => 4: 1; -0 (1)
DELETE FROM acc WHERE 9223372036854775807 + amount > 0 => 5: Overflow";

/// The first row that has a fault is answered with its first one. The greatest number is 9223372036854775787 and 20 more.
const ORDER: &str = "\
DELETE FROM acc WHERE 1 / (amount - 20) < 9 AND 9223372036854775787 + amount > 0 => 5: DivideByZero
DELETE FROM acc WHERE 1 / (amount - 30) < 9 AND 9223372036854775797 + amount > 0 => 5: Overflow
DELETE FROM acc WHERE 9223372036854775797 + amount > 0 AND 1 / (amount - 20) < 9 => 5: Overflow
DELETE FROM acc WHERE 9223372036854775787 + amount > 0 AND 1 / (amount - 20) < 9 => 5: DivideByZero
DELETE FROM acc WHERE id < 2 AND 1 / (amount - 20) < 9 AND 9223372036854775787 + amount > 0 => 1: 1; -0 (1)";

/// What a plan leaves out has no fault, and what stands behind arithmetic leaves nothing out.
const PLANS: &str = "\
DELETE FROM acc WHERE id = 1 AND 10 / amount > 0 => 1: 1; -0 (1)
DELETE FROM acc WHERE 10 / amount > 0 AND id = 1 => 5: DivideByZero
DELETE FROM acc WHERE 10 / amount > 0 AND id < 8 => 5: DivideByZero
DELETE FROM acc WHERE owner = 7 AND 10 / amount > 0 => 2: 1; -0 (1)
DELETE FROM acc WHERE 10 / amount > 0 AND owner = 7 => 5: DivideByZero
DELETE FROM acc WHERE owner < 9 AND 10 / amount < 1 => 3: 1; -0 (2)
DELETE FROM acc WHERE id = 4 AND 1 / 0 = 1 => 0: 0;
DELETE FROM acc WHERE 1 / 0 = 1 AND id = 4 => 5: DivideByZero";

/// The transaction has changed the account 2, removed 3, put 4, which the snapshot lacks, and locked 5.
const WRITES: &str = "\
+ 0: 2 8 25
- 0: 3 - 30
+ 0: 4 7 40
= 0: 5 7 -";

/// A removal takes the place of a put and of a touch, and of what the snapshot lacks nothing is left.
const BEHIND_WRITES: &str = "\
DELETE FROM acc WHERE id = 4 => 1: 1; +0 (2) (2, 8, 25) -0 (3) 0 (5)
DELETE FROM acc WHERE id = 2 => 1: 1; -0 (2) -0 (3) +0 (4) (4, 7, 40) 0 (5)
DELETE FROM acc WHERE id = 3 => 0: 0; +0 (2) (2, 8, 25) -0 (3) +0 (4) (4, 7, 40) 0 (5)
DELETE FROM acc WHERE id = 5 => 1: 1; +0 (2) (2, 8, 25) -0 (3) +0 (4) (4, 7, 40) -0 (5)
DELETE FROM acc WHERE amount > 20 => 5: 2; -0 (2) -0 (3) 0 (5)
DELETE FROM acc => 5: 5; -0 (1) -0 (2) -0 (3) -0 (5) -0 (8)
DELETE FROM acc WHERE 1 / 0 = 1 => 5: DivideByZero
DELETE FROM acc WHERE 10 / (amount - 30) < 1 => 5: 3; -0 (1) -0 (2) -0 (3) +0 (4) (4, 7, 40) 0 (5) -0 (8)
DELETE FROM acc WHERE 10 / (amount - 20) < 1 => 5: 3; -0 (1) +0 (2) (2, 8, 25) -0 (3) 0 (5) -0 (8)
DELETE FROM acc WHERE 10 / (amount - 25) < 1 => 5: DivideByZero";

#[test]
fn rows_that_are_kept_are_removed(rt: HostRuntime) -> Result<(), Fail> {
    play(rt.alloc(), REMOVALS)
}

#[test]
fn the_first_fault_of_the_first_row_is_answered(rt: HostRuntime) -> Result<(), Fail> {
    play(rt.alloc(), ORDER)
}

#[test]
fn plans_leave_out_no_fault(rt: HostRuntime) -> Result<(), Fail> {
    play(rt.alloc(), PLANS)
}

#[test]
fn removals_take_the_place_of_what_was_written(rt: HostRuntime) -> Result<(), Fail> {
    play_behind(rt.alloc(), WRITES, BEHIND_WRITES)
}
