//! Statements after which a transaction would have more rows than it may, which is found behind all faults of their rows.
use exec_kit::{TABLES, play, play_over};
use std::test::Fail;

/// INSERT of 1,024 rows, and of one more, of which each fault comes first. A put of two numbers has 20 bytes.
const INSERTS: &str = "\
INSERT INTO void VALUES {1023:(#,0),}(1024,0) => 0: 1024; 1024 rows of 20480 bytes
INSERT INTO void VALUES {1024:(#,0),}(1025,0) => 0: TooManyRows
INSERT INTO void VALUES {1024:(#,0),}(1,0) => 0: Duplicate 3 (1)
INSERT INTO void VALUES {1024:(#,0),}(1025,1 / 0) => 0: DivideByZero
INSERT INTO void VALUES {1024:(#,0),}(1025,9223372036854775807 + 1) => 0: Overflow
INSERT INTO void VALUES {1024:(#,0),}(NULL,0) => 0: NullNotAllowed id
INSERT INTO cust VALUES {1024:('#',TRUE),}('twenty-one bytes long',TRUE) => 0: TextTooLong name
INSERT INTO acc VALUES {1024:(1#,0,0),}(8,0,0) => 0: Duplicate 0 (8)";

/// 1,025 rows.
const MANY_ROWS: &str = "{1025:3: # 0\n}";

/// A fault of the last row comes before the limit. The greatest number is 9223372036854774783 and 1,024 more.
const UPDATES: &str = "\
UPDATE void SET value = 1 => 1025: TooManyRows
UPDATE void SET value = 0 => 1025: TooManyRows
UPDATE void SET value = 1 / (id - 1025) => 1025: DivideByZero
UPDATE void SET value = 9223372036854774783 + id => 1025: Overflow
UPDATE void SET value = 1 WHERE 1 / (id - 1025) < 2 => 1025: DivideByZero
UPDATE void SET value = 1 WHERE 9223372036854774783 + id > 0 => 1025: Overflow
UPDATE void SET value = 1 WHERE id = 1025 => 1: 1; +3 (1025) (1025, 1)
UPDATE void SET value = 1 WHERE id > 1023 => 2: 2; +3 (1024) (1024, 1) +3 (1025) (1025, 1)
UPDATE void SET value = 1 WHERE id < 1025 => 1024: 1024; 1024 rows of 20480 bytes
UPDATE void SET value = NULL WHERE id <> 7 => 1025: 1024; 1024 rows of 12288 bytes";

/// A removal, as a touch, has 11 bytes.
const DELETES: &str = "\
DELETE FROM void => 1025: TooManyRows
DELETE FROM void WHERE value = 0 => 1025: TooManyRows
DELETE FROM void WHERE id < 1025 => 1024: 1024; 1024 rows of 11264 bytes
DELETE FROM void WHERE id <> 7 => 1025: 1024; 1024 rows of 11264 bytes
DELETE FROM void WHERE 1 / (id - 1025) < 9 => 1025: DivideByZero
DELETE FROM void WHERE 9223372036854774783 + id > 0 => 1025: Overflow";

/// LIMIT spares no touch.
const LOCKS: &str = "\
SELECT id FROM void FOR UPDATE => 1025: TooManyRows
SELECT id FROM void LIMIT 0 FOR UPDATE => 1025: TooManyRows
SELECT id FROM void WHERE id < 1025 FOR UPDATE => 1024: 1024 lines; 1024 rows of 11264 bytes
SELECT id FROM void WHERE id <> 7 LIMIT 2 FOR UPDATE => 1025: (1) (2); 1024 rows of 11264 bytes
SELECT id FROM void WHERE 1 / (id - 1025) < 9 FOR UPDATE => 1025: DivideByZero
SELECT id FROM void WHERE 9223372036854774783 + id > 0 LIMIT 0 FOR UPDATE => 1025: Overflow
SELECT 1 / (id - 1025) FROM void LIMIT 0 FOR UPDATE => 1025: DivideByZero
SELECT 9223372036854774783 + id FROM void LIMIT 1 FOR UPDATE => 1025: Overflow";

/// 1,025 items and 1,025 notes, of which the last one would get NULL, or a text that is too long.
const MANY_TEXTS: &str = "\
{1024:4: # 'pen 'note 1\n}4: 1025 'pen - 1
{1024:5: - # 'body 'short 1\n}5: - 1025 'body 'twenty-one-bytes-long 1";

const CELLS: &str = "\
UPDATE item SET name = note => 1025: NullNotAllowed name
UPDATE item SET name = 'pen' => 1025: TooManyRows
UPDATE item SET name = note WHERE id < 1025 => 1024: 1024; 1024 rows of 34816 bytes
UPDATE memo SET body = source => 1025: TextTooLong body
UPDATE memo SET body = 'short' => 1025: TooManyRows";

/// 1,025 rows and two accounts.
const OTHER_ROWS: &str = "\
0: 3 - 30
0: 5 7 -
{1025:3: # 0\n}";

/// A put of a row that the snapshot lacks, a removal and a touch: 51 bytes.
const THREE: &str = "\
+ 0: 4 7 40
- 0: 3 - 30
= 0: 5 7 -";

/// 1,021 rows more may be written.
const BEHIND_THREE: &str = "\
INSERT INTO void VALUES {1020:(2000#,0),}(0,0) => 0: 1021; 1024 rows of 20471 bytes
INSERT INTO void VALUES {1021:(2000#,0),}(0,0) => 0: TooManyRows
UPDATE void SET value = 1 WHERE id < 1022 => 1021: 1021; 1024 rows of 20471 bytes
UPDATE void SET value = 1 WHERE id < 1023 => 1022: TooManyRows
DELETE FROM void WHERE id < 1022 => 1021: 1021; 1024 rows of 11282 bytes
DELETE FROM void WHERE id < 1023 => 1022: TooManyRows
SELECT id FROM void WHERE id < 1022 FOR UPDATE => 1021: 1021 lines; 1024 rows of 11282 bytes
SELECT id FROM void WHERE id < 1023 LIMIT 1 FOR UPDATE => 1022: TooManyRows";

/// The same and 1,000 touches.
const TOUCHES: &str = "\
+ 0: 4 7 40
- 0: 3 - 30
= 0: 5 7 -
{1000:= 3: # 0\n}";

/// A row that is touched already is no row more.
const BEHIND_TOUCHES: &str = "\
UPDATE void SET value = 1 WHERE id < 1001 => 1000: 1000; 1003 rows of 20051 bytes
UPDATE void SET value = 1 WHERE id < 1022 => 1021: 1021; 1024 rows of 20471 bytes
UPDATE void SET value = 1 WHERE id < 1023 => 1022: TooManyRows
DELETE FROM void WHERE id > 4 AND id < 1022 => 1017: 1017; 1024 rows of 11282 bytes
DELETE FROM void WHERE id > 4 AND id < 1023 => 1018: TooManyRows
SELECT id FROM void WHERE id < 1022 LIMIT 1 FOR UPDATE => 1021: (1); 1024 rows of 11282 bytes
SELECT id FROM void WHERE id < 1023 LIMIT 1 FOR UPDATE => 1022: TooManyRows
DELETE FROM acc WHERE id = 4 => 1: 1; 1002 rows of 11022 bytes";

/// The same and 21 touches more, so that there are 1,024 rows.
const FULL: &str = "\
+ 0: 4 7 40
- 0: 3 - 30
= 0: 5 7 -
{1021:= 3: # 0\n}";

const BEHIND_FULL: &str = "\
UPDATE void SET value = 1 WHERE id = 1022 => 1: TooManyRows
UPDATE void SET value = 1 WHERE id = 1021 => 1: 1; 1024 rows of 11291 bytes
UPDATE void SET value = 1 / 0 WHERE id = 1022 => 1: DivideByZero
UPDATE void SET value = 1 WHERE id = 1026 => 0: 0; 1024 rows of 11282 bytes
INSERT INTO acc VALUES (3, 1, 1) => 0: 1; 1024 rows of 11300 bytes
INSERT INTO acc VALUES (6, 1, 1) => 0: TooManyRows
INSERT INTO acc VALUES (5, 1, 1) => 0: Duplicate 0 (5)
DELETE FROM acc WHERE id = 5 => 1: 1; 1024 rows of 11282 bytes
DELETE FROM acc WHERE id = 4 => 1: 1; 1023 rows of 11253 bytes
DELETE FROM void WHERE id = 1022 => 1: TooManyRows
SELECT id FROM void WHERE id = 1021 FOR UPDATE => 1: (1021); 1024 rows of 11282 bytes
SELECT id FROM void WHERE id = 1022 FOR UPDATE => 1: TooManyRows
SELECT id FROM void WHERE id = 1026 FOR UPDATE => 0:; 1024 rows of 11282 bytes";

/// One row more than an answer has lines.
const EVEN_MORE_ROWS: &str = "{100001:3: # 0\n}";

/// A query with more lines than an answer has is refused before its touches are counted; an UPDATE has no lines.
const LINES: &str = "\
SELECT id FROM void FOR UPDATE => 100001: ResultTooLong
SELECT id FROM void LIMIT 100000 FOR UPDATE => 100001: TooManyRows
UPDATE void SET value = 1 => 100001: TooManyRows";

#[test]
fn an_insert_of_too_many_rows_is_refused(rt: HostRuntime) -> Result<(), Fail> {
    play(rt.alloc(), INSERTS)
}

#[test]
fn an_update_of_too_many_rows_is_refused(rt: HostRuntime) -> Result<(), Fail> {
    play_over(rt.alloc(), TABLES, MANY_ROWS, "", UPDATES)
}

#[test]
fn a_delete_of_too_many_rows_is_refused(rt: HostRuntime) -> Result<(), Fail> {
    play_over(rt.alloc(), TABLES, MANY_ROWS, "", DELETES)
}

#[test]
fn a_lock_of_too_many_rows_is_refused(rt: HostRuntime) -> Result<(), Fail> {
    play_over(rt.alloc(), TABLES, MANY_ROWS, "", LOCKS)
}

#[test]
fn cells_are_tested_before_rows_are_counted(rt: HostRuntime) -> Result<(), Fail> {
    play_over(rt.alloc(), TABLES, MANY_TEXTS, "", CELLS)
}

#[test]
fn rows_are_counted_with_those_of_the_net(rt: HostRuntime) -> Result<(), Fail> {
    play_over(rt.alloc(), TABLES, OTHER_ROWS, THREE, BEHIND_THREE)?;
    play_over(rt.alloc(), TABLES, OTHER_ROWS, TOUCHES, BEHIND_TOUCHES)?;
    play_over(rt.alloc(), TABLES, OTHER_ROWS, FULL, BEHIND_FULL)
}

#[test]
fn lines_are_counted_before_rows(rt: HostRuntime) -> Result<(), Fail> {
    play_over(rt.alloc(), TABLES, EVEN_MORE_ROWS, "", LINES)
}
