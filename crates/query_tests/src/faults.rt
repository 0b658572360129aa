//! Queries that are refused while they run, and faults that nothing meets.
use exec_kit::{play, play_behind};
use std::test::Fail;

/// Rows are tested one after another, each by one condition after another, up to one that isn't true.
const CONDITIONS: &str = "\
SELECT id FROM acc WHERE 10 / amount > 0 => 5: DivideByZero
SELECT id FROM acc WHERE amount > 0 AND 10 / amount > 0 => 5: (1)
SELECT id FROM acc WHERE FALSE AND 1 / 0 = 1 => 5:
SELECT id FROM acc WHERE NULL AND 1 / 0 = 1 => 5:
SELECT id FROM acc WHERE amount = 0 OR 10 / amount > 0 => 5: (1) (8)
SELECT id FROM acc WHERE 10 / amount > 0 OR amount = 0 => 5: DivideByZero
SELECT id FROM acc WHERE 1 / (amount - 20) < 9 AND 9223372036854775807 + amount > 0 => 5: Overflow
SELECT id FROM acc WHERE 1 / (amount - 10) < 9 AND 9223372036854775807 + amount > 0 => 5: DivideByZero
SELECT id FROM acc WHERE 9223372036854775807 + amount > 0 AND 1 / (amount - 10) < 9 => 5: Overflow
SELECT id FROM acc WHERE 1 / 0 = 9223372036854775807 + 1 => 5: DivideByZero
SELECT id FROM acc WHERE NULL + 1 / 0 = 1 => 5: DivideByZero";

/// What a plan leaves out has no fault, and what stands behind arithmetic leaves nothing out.
const PLANS: &str = "\
SELECT id FROM acc WHERE id < 8 AND 10 / amount > 0 => 4: (1)
SELECT id FROM acc WHERE 10 / amount > 0 AND id < 8 => 5: DivideByZero
SELECT id FROM acc WHERE amount >= 0 AND 10 / amount > 0 AND id = 1 => 5: DivideByZero
SELECT id FROM acc WHERE id = 1 AND 10 / amount > 0 => 1: (1)
SELECT id FROM acc WHERE id = 8 AND 10 / amount > 0 => 1: DivideByZero
SELECT id FROM acc WHERE id = 4 AND 1 / 0 = 1 => 0:
SELECT id FROM acc WHERE 1 / 0 = 1 AND id = 4 => 5: DivideByZero
SELECT id FROM acc WHERE owner = 7 AND 10 / amount > 0 => 2: (1)
SELECT id FROM acc WHERE 10 / amount > 0 AND owner = 7 => 5: DivideByZero
SELECT id FROM acc WHERE id > 2 AND 10 / (amount - 30) > 0 => 3: DivideByZero
SELECT id FROM acc WHERE id > 2 AND 10 / (amount - 10) < 1 => 3: (3) (8)";

/// Lines are made behind all tests, each from left to right.
const ITEMS: &str = "\
SELECT 10 / amount FROM acc WHERE id > 5 => 1: DivideByZero
SELECT 10 / amount FROM acc WHERE id < 3 => 2: (1) (0)
SELECT 10 / amount FROM acc => 5: DivideByZero
SELECT 9223372036854775807 + amount FROM acc WHERE 10 / amount >= 0 => 5: DivideByZero
SELECT 1 / 0, 9223372036854775807 + 1 FROM acc WHERE id = 1 => 1: DivideByZero
SELECT 9223372036854775807 + 1, 1 / 0 FROM acc WHERE id = 1 => 1: Overflow
SELECT 1 / (amount - 20), 9223372036854775807 + amount FROM acc WHERE id < 3 => 2: Overflow
SELECT 1 / (amount - 10), 9223372036854775807 + amount FROM acc WHERE id < 3 => 2: DivideByZero
SELECT 1 / 0 FROM acc WHERE id = 4 => 0:
SELECT 1 / 0 FROM acc WHERE FALSE => 5:
SELECT -(-9223372036854775807 - 1) FROM acc WHERE id = 1 => 1: Overflow
SELECT (-9223372036854775807 - 1) / -1 FROM acc WHERE id = 1 => 1: Overflow
SELECT 9223372036854775807 * 2 FROM acc WHERE id = 1 => 1: Overflow";

/// The transaction has changed the account 2, removed 3 and put 4, which the snapshot lacks.
const WRITES: &str = "\
+ 0: 2 8 25
- 0: 3 - 30
+ 0: 4 7 40";

/// A row that the transaction has removed has no fault, and one that it has changed those of its new image.
const BEHIND_WRITES: &str = "\
SELECT id FROM acc WHERE 10 / (amount - 30) < 1 => 5: (1) (2) (8)
SELECT id FROM acc WHERE 10 / (amount - 20) < 1 => 5: (1) (4) (8)
SELECT id FROM acc WHERE 10 / (amount - 25) < 1 => 5: DivideByZero
SELECT 10 / (amount - 30) FROM acc => 5: (0) (-2) (1) (NULL) (0)
SELECT 10 / (amount - 20) FROM acc => 5: (-1) (2) (0) (NULL) (0)
SELECT 10 / (amount - 25) FROM acc => 5: DivideByZero
SELECT 10 / (amount - 40) FROM acc => 5: DivideByZero
SELECT 10 / (amount - 40) FROM acc WHERE id < 4 => 2: (0) (0)";

#[test]
fn the_first_fault_of_a_condition_is_answered(rt: HostRuntime) -> Result<(), Fail> {
    play(rt.alloc(), CONDITIONS)
}

#[test]
fn plans_leave_out_no_fault(rt: HostRuntime) -> Result<(), Fail> {
    play(rt.alloc(), PLANS)
}

#[test]
fn lines_are_made_behind_all_tests(rt: HostRuntime) -> Result<(), Fail> {
    play(rt.alloc(), ITEMS)
}

#[test]
fn faults_are_those_of_the_rows_behind_the_net(rt: HostRuntime) -> Result<(), Fail> {
    play_behind(rt.alloc(), WRITES, BEHIND_WRITES)
}
