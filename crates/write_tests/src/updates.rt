//! UPDATE: how many rows it changes, what the transaction's net is behind it, and which of its faults is answered.
use exec_kit::{play, play_behind};
use std::test::Fail;

/// Rows that are kept are put with what is set, each counted, also where its image stays the same.
const ROWS: &str = "\
UPDATE acc SET amount = amount + 1 WHERE id = 2 => 1: 1; +0 (2) (2, 8, 21)
UPDATE acc SET amount = 1 WHERE id = 4 => 0: 0;
UPDATE acc SET amount = 1 WHERE id = 2 AND amount > 20 => 1: 0;
UPDATE acc SET amount = amount WHERE id < 3 => 2: 2; +0 (1) (1, 7, 10) +0 (2) (2, 8, 20)
UPDATE acc SET owner = amount, amount = owner WHERE id = 2 => 1: 1; +0 (2) (2, 20, 8)
UPDATE acc SET amount = id * 10, owner = NULL WHERE id >= 5 => 2: 2; +0 (5) (5, NULL, 50) +0 (8) (8, NULL, 80)
UPDATE acc SET owner = 8 WHERE owner = 7 => 2: 2; +0 (1) (1, 8, 10) +0 (5) (5, 8, NULL)
UPDATE acc SET amount = amount + 10 WHERE amount < 30 => 5: 3; +0 (1) (1, 7, 20) +0 (2) (2, 8, 30) +0 (8) (8, 9, 10)
UPDATE acc SET owner = owner + 1 WHERE owner = 7 OR owner = 8 => 5: 3; +0 (1) (1, 8, 10) +0 (2) (2, 9, 20) +0 (5) (5, 8, NULL)
UPDATE event SET kind = region WHERE at = 1 => 2: 2; +2 (1, 2) (2, 1, 2) +2 (1, 5) (5, 1, 5)
UPDATE cust SET good = name < 'c' => 3: 3; +1 ('ann') ('ann', TRUE) +1 ('bob') ('bob', TRUE) +1 ('eve') ('eve', FALSE)
UPDATE void SET value = 1 / 0 => 0: 0;
UPDATE cust SET good = NULL WHERE name = 'bob' => 1: 1; +1 ('bob') ('bob', NULL)
UPDATE item SET note = 'éééééééééé' WHERE id = 1 => 1: 1; +4 (1) (1, 'pen', 'éééééééééé', 3)
UPDATE acc SET owner = 9223372036854775807, amount = -9223372036854775807 - 1 WHERE id = 1 => 1: 1; +0 (1) (1, 9223372036854775807, -9223372036854775808)
UPDATE acc SET owner = 9223372036854775797 + amount, amount = -9223372036854775807 - amount / 10 WHERE id = 1 => 1: 1; +0 (1) (1, 9223372036854775807, -9223372036854775808)";

/// Of a row that is kept its values come first, from left to right, and then its cells, column by column.
const FAULTS: &str = "\
UPDATE acc SET owner = 1 / 0, amount = 9223372036854775807 + 1 WHERE id = 1 => 1: DivideByZero
UPDATE acc SET owner = 9223372036854775807 + 1, amount = 1 / 0 WHERE id = 1 => 1: Overflow
UPDATE acc SET amount = 1 / 0, owner = 9223372036854775807 + 1 WHERE id = 1 => 1: DivideByZero
UPDATE item SET name = NULL WHERE id = 1 => 1: NullNotAllowed name
UPDATE item SET name = NULL, size = 1 / 0 WHERE id = 1 => 1: DivideByZero
UPDATE item SET note = 'twenty-one bytes long', size = 9223372036854775807 + 1 WHERE id = 1 => 1: Overflow
UPDATE item SET note = 'twenty-one bytes long', name = NULL WHERE id = 1 => 1: NullNotAllowed name
UPDATE item SET note = 'twenty-one bytes long', name = 'twenty-one bytes long' WHERE id = 1 => 1: TextTooLong name
UPDATE item SET note = 'twenty-one bytes long' WHERE id = 1 => 1: TextTooLong note
UPDATE item SET note = 'of twenty bytes text' WHERE id = 1 => 1: 1; +4 (1) (1, 'pen', 'of twenty bytes text', 3)
UPDATE item SET name = NULL WHERE id = 3 => 0: 0;
UPDATE item SET name = NULL WHERE 1 / 0 = 1 => 2: DivideByZero
UPDATE item SET note = 'ééééééééééé' WHERE id = 1 => 1: TextTooLong note
UPDATE acc SET amount = -9223372036854775807 - amount / 5 WHERE id = 1 => 1: Overflow
UPDATE memo SET body = NULL, title = 'twenty-one bytes long' WHERE id = 1 => 1: TextTooLong title
UPDATE memo SET body = NULL, title = source WHERE id = 1 => 1: TextTooLong title
UPDATE memo SET title = source, body = source WHERE id = 2 => 1: NullNotAllowed body
UPDATE memo SET body = source, size = 1 / 0 WHERE id = 1 => 1: DivideByZero";

/// One row is tested and changed after another.
const ORDER: &str = "\
UPDATE acc SET amount = 10 / amount => 5: DivideByZero
UPDATE acc SET amount = 10 / amount WHERE amount <> 0 => 5: 3; +0 (1) (1, 7, 1) +0 (2) (2, 8, 0) +0 (3) (3, NULL, 0)
UPDATE acc SET amount = 10 / amount WHERE id < 8 => 4: 4; +0 (1) (1, 7, 1) +0 (2) (2, 8, 0) +0 (3) (3, NULL, 0) +0 (5) (5, 7, NULL)
UPDATE acc SET amount = 1 WHERE 10 / amount > 0 => 5: DivideByZero
UPDATE acc SET amount = 9223372036854775807 + amount WHERE 10 / amount >= 0 => 5: Overflow
UPDATE acc SET amount = 9223372036854775807 + amount WHERE 10 / (amount - 10) >= 0 => 5: DivideByZero
UPDATE acc SET amount = 9223372036854775807 + amount WHERE 10 / (amount - 20) > 0 => 5: DivideByZero
UPDATE item SET name = note WHERE 1 / (id - 2) < 5 => 2: NullNotAllowed name
UPDATE item SET name = note WHERE 1 / (id - 1) < 5 => 2: DivideByZero
UPDATE item SET name = note, size = 9 / (id - 2) => 2: NullNotAllowed name
UPDATE item SET name = note, size = 9 / (id - 1) => 2: DivideByZero
UPDATE acc SET amount = 1 WHERE 9223372036854775807 + amount > 0 => 5: Overflow
UPDATE acc SET amount = 1 / 0 WHERE 9223372036854775807 + amount > 0 => 5: Overflow";

/// The sources of the first and the third note are too long for a body, and that of the second one is NULL. The size of the
/// first is 1, and of the second 0.
const TEXTS: &str = "\
UPDATE memo SET body = source => 3: TextTooLong body
UPDATE memo SET body = source WHERE id > 1 => 2: NullNotAllowed body
UPDATE memo SET body = source WHERE id > 2 => 1: TextTooLong body
UPDATE memo SET body = source, size = 9 / size => 3: TextTooLong body
UPDATE memo SET body = source, size = 9 / size WHERE id > 1 => 2: DivideByZero
UPDATE memo SET body = 'short', size = 9 / size => 3: DivideByZero
UPDATE memo SET body = source, size = 9223372036854775807 + (1 - size) => 3: TextTooLong body
UPDATE memo SET body = source, size = 9223372036854775807 + (1 - size) WHERE id > 1 => 2: Overflow
UPDATE memo SET body = 'short', size = 9223372036854775807 + (1 - size) => 3: Overflow
UPDATE memo SET body = source WHERE 1 / size > 0 => 3: TextTooLong body
UPDATE memo SET body = source WHERE 9223372036854775807 + (1 - size) > 0 => 3: TextTooLong body
UPDATE memo SET body = source WHERE 1 / (size - 1) < 9 => 3: DivideByZero
UPDATE memo SET body = source WHERE 9223372036854775807 + size > 0 => 3: Overflow
UPDATE memo SET body = title => 3: NullNotAllowed body
UPDATE memo SET body = title WHERE id > 2 => 1: 1; +5 (3) ('old', 3, 'old', 'twenty-one-bytes-long', 2)";

/// What a plan leaves out has no fault, and what stands behind arithmetic leaves nothing out.
const PLANS: &str = "\
UPDATE acc SET amount = 1 WHERE id = 1 AND 10 / amount > 0 => 1: 1; +0 (1) (1, 7, 1)
UPDATE acc SET amount = 1 WHERE 10 / amount > 0 AND id = 1 => 5: DivideByZero
UPDATE acc SET amount = 1 WHERE id < 8 AND 10 / amount > 0 => 4: 1; +0 (1) (1, 7, 1)
UPDATE acc SET amount = 1 WHERE 10 / amount > 0 AND id < 8 => 5: DivideByZero
UPDATE acc SET amount = 1 WHERE owner = 7 AND 10 / amount > 0 => 2: 1; +0 (1) (1, 7, 1)
UPDATE acc SET amount = 1 WHERE 10 / amount > 0 AND owner = 7 => 5: DivideByZero
UPDATE acc SET amount = 10 / amount WHERE owner < 9 => 3: 3; +0 (1) (1, 7, 1) +0 (2) (2, 8, 0) +0 (5) (5, 7, NULL)
UPDATE acc SET amount = 10 / amount WHERE owner >= 9 => 1: DivideByZero
UPDATE acc SET amount = 1 / 0 WHERE owner = 6 => 0: 0;
UPDATE acc SET amount = 1 / 0 WHERE id = 4 => 0: 0;
UPDATE acc SET amount = 1 WHERE id = 4 AND 1 / 0 = 1 => 0: 0;
UPDATE acc SET amount = 1 WHERE 1 / 0 = 1 AND id = 4 => 5: DivideByZero";

/// The transaction has changed the account 2, removed 3, put 4, which the snapshot lacks, and locked 5.
const WRITES: &str = "\
+ 0: 2 8 25
- 0: 3 - 30
+ 0: 4 7 40
= 0: 5 7 -";

/// A put takes the place of a put and of a touch, over the row as the transaction has left it.
const BEHIND_WRITES: &str = "\
UPDATE acc SET amount = amount + 1 WHERE id = 2 => 1: 1; +0 (2) (2, 8, 26) -0 (3) +0 (4) (4, 7, 40) 0 (5)
UPDATE acc SET amount = 0 WHERE id = 3 => 0: 0; +0 (2) (2, 8, 25) -0 (3) +0 (4) (4, 7, 40) 0 (5)
UPDATE acc SET amount = id WHERE owner = 7 => 3: 3; +0 (1) (1, 7, 1) +0 (2) (2, 8, 25) -0 (3) +0 (4) (4, 7, 4) +0 (5) (5, 7, 5)
UPDATE acc SET owner = 1 WHERE id = 5 => 1: 1; +0 (2) (2, 8, 25) -0 (3) +0 (4) (4, 7, 40) +0 (5) (5, 1, NULL)
UPDATE acc SET amount = 10 / (amount - 40) WHERE id < 5 => 3: DivideByZero
UPDATE acc SET amount = 10 / (amount - 30) => 5: 5; +0 (1) (1, 7, 0) +0 (2) (2, 8, -2) -0 (3) +0 (4) (4, 7, 1) +0 (5) (5, 7, NULL) +0 (8) (8, 9, 0)
UPDATE acc SET amount = 10 / (amount - 20) => 5: 5; +0 (1) (1, 7, -1) +0 (2) (2, 8, 2) -0 (3) +0 (4) (4, 7, 0) +0 (5) (5, 7, NULL) +0 (8) (8, 9, 0)
UPDATE acc SET amount = 10 / (amount - 25) => 5: DivideByZero
UPDATE acc SET amount = 1 WHERE 10 / (amount - 30) < 1 => 5: 3; +0 (1) (1, 7, 1) +0 (2) (2, 8, 1) -0 (3) +0 (4) (4, 7, 40) 0 (5) +0 (8) (8, 9, 1)
UPDATE acc SET amount = 1 WHERE 10 / (amount - 20) < 1 => 5: 3; +0 (1) (1, 7, 1) +0 (2) (2, 8, 25) -0 (3) +0 (4) (4, 7, 1) 0 (5) +0 (8) (8, 9, 1)
UPDATE acc SET amount = 1 WHERE 10 / (amount - 25) < 1 => 5: DivideByZero";

#[test]
fn rows_that_are_kept_are_changed(rt: HostRuntime) -> Result<(), Fail> {
    play(rt.alloc(), ROWS)
}

#[test]
fn the_first_fault_of_a_row_that_is_kept_is_answered(rt: HostRuntime) -> Result<(), Fail> {
    play(rt.alloc(), FAULTS)
}

#[test]
fn one_row_is_changed_after_another(rt: HostRuntime) -> Result<(), Fail> {
    play(rt.alloc(), ORDER)
}

#[test]
fn texts_are_tested_row_by_row(rt: HostRuntime) -> Result<(), Fail> {
    play(rt.alloc(), TEXTS)
}

#[test]
fn plans_leave_out_no_fault(rt: HostRuntime) -> Result<(), Fail> {
    play(rt.alloc(), PLANS)
}

#[test]
fn changes_go_over_what_was_written(rt: HostRuntime) -> Result<(), Fail> {
    play_behind(rt.alloc(), WRITES, BEHIND_WRITES)
}
