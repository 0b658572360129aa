//! Statements that one transaction does one after another: each works on what those before it have left, and one that is
//! refused leaves nothing.
use exec_kit::{TABLES, play, play_over};
use std::test::Fail;

const BEHIND_ONE_ANOTHER: &str = "\
INSERT INTO void VALUES (1, 2); UPDATE void SET value = 3 => 1: 1; +3 (1) (1, 3)
INSERT INTO void VALUES (1, 2); DELETE FROM void => 1: 1;
INSERT INTO void VALUES (1, 2); SELECT id FROM void FOR UPDATE => 1: (1); +3 (1) (1, 2)
INSERT INTO void VALUES (2, 0); INSERT INTO void VALUES (1, 0) => 0: 1; +3 (1) (1, 0) +3 (2) (2, 0)
UPDATE acc SET amount = 11 WHERE id = 1; UPDATE acc SET amount = amount + 1 WHERE id = 1 => 1: 1; +0 (1) (1, 7, 12)
UPDATE acc SET amount = 11 WHERE id = 1; DELETE FROM acc WHERE id < 3 => 2: 2; -0 (1) -0 (2)
DELETE FROM acc WHERE id = 1; INSERT INTO acc VALUES (1, 2, 3) => 0: 1; +0 (1) (1, 2, 3)
DELETE FROM acc WHERE id = 1; SELECT id FROM acc => 4: (2) (3) (5) (8)
SELECT id FROM acc WHERE id = 1 FOR UPDATE; UPDATE acc SET amount = 11 WHERE id = 2 => 1: 1; 0 (1) +0 (2) (2, 8, 11)
SELECT id FROM acc WHERE id = 1 FOR UPDATE; DELETE FROM acc WHERE id = 1 => 1: 1; -0 (1)";

/// A statement with a fault changes nothing, not even the rows in front of the one that has it.
const BEHIND_FAULTS: &str = "\
INSERT INTO void VALUES (1, 0), (2, 1 / 0); INSERT INTO void VALUES (3, 0) => 0: 1; +3 (3) (3, 0)
INSERT INTO void VALUES (1, 0), (1, 0); SELECT id FROM void => 0:
INSERT INTO void VALUES (1, 2); INSERT INTO void VALUES (0, 0), (1, 3); UPDATE void SET value = 4 => 1: 1; +3 (1) (1, 4)
UPDATE acc SET amount = 60 / (id - 8); DELETE FROM acc WHERE id = 8 => 1: 1; -0 (8)
DELETE FROM acc WHERE 1 / (id - 8) < 9; DELETE FROM acc WHERE id = 8 => 1: 1; -0 (8)
SELECT 1 / (id - 8) FROM acc FOR UPDATE; DELETE FROM acc WHERE id = 8 => 1: 1; -0 (8)";

/// A row each, rising, falling, and one over another. A put of two numbers has 20 bytes, and a removal 11.
const ROWS_ONE_BY_ONE: &str = "\
{1023:INSERT INTO void VALUES (#, 0);}INSERT INTO void VALUES (0, 0) => 0: 1; 1024 rows of 20480 bytes
{1023:INSERT INTO void VALUES (1000 - #, 0);}INSERT INTO void VALUES (1000, 0) => 0: 1; 1024 rows of 20480 bytes
{1024:INSERT INTO void VALUES (#, 0);}SELECT id FROM void WHERE id > 1022 => 2: (1023) (1024)
{1024:INSERT INTO void VALUES (#, 0);}UPDATE void SET value = 1 WHERE id = 7 => 1: 1; 1024 rows of 20480 bytes
{1024:INSERT INTO void VALUES (#, 0);}DELETE FROM void WHERE id > 512 => 512: 512; 512 rows of 10240 bytes
{1024:INSERT INTO void VALUES (#, 0);}DELETE FROM void => 1024: 1024;";

/// The row that is one too many isn't taken, nor any row of its statement, and what was there stays.
const BEHIND_TOO_MANY_ROWS: &str = "\
{1024:INSERT INTO void VALUES (#, 0);}INSERT INTO void VALUES (0, 0) => 0: TooManyRows
{1024:INSERT INTO void VALUES (#, 0);}INSERT INTO void VALUES (0, 0);DELETE FROM void WHERE id = 9 => 1: 1; 1023 rows of 20460 bytes
INSERT INTO void VALUES {1023:(#,0),}(0,0);INSERT INTO void VALUES (2000, 0);SELECT id FROM void WHERE id > 1022 => 1: (1023)
INSERT INTO void VALUES {1023:(#,0),}(0,0);INSERT INTO void VALUES (2000, 0);INSERT INTO void VALUES (0, 0) => 0: Duplicate 3 (0)
INSERT INTO void VALUES {1023:(#,0),}(0,0);INSERT INTO void VALUES (2000, 0);UPDATE void SET value = NULL => 1024: 1024; 1024 rows of 12288 bytes
INSERT INTO void VALUES {1022:(#,0),}(0,0);INSERT INTO void VALUES (2000, 0), (2001, 0);SELECT id FROM void WHERE id > 1021 => 1: (1022)
INSERT INTO void VALUES {1022:(#,0),}(0,0);INSERT INTO void VALUES (2000, 0), (2001, 0);INSERT INTO void VALUES (2001, 0) => 0: 1; 1024 rows of 20480 bytes";

/// Pages of texts. A put of a page has 23 bytes and those of its text.
const PAGES: &str = "page|id i,body x,size I|0|";

/// 1,001 pages of the longest texts, with 1,048,047 bytes, which leave 529.
const FULL_PAGES: &str = "{1001:+ 0: # *1024 0\n}";

/// A page of 506 bytes is the last that is taken, and one of 507 one too large. What is refused leaves its bytes.
const BEHIND_TOO_MANY_BYTES: &str = "\
INSERT INTO page VALUES (2000, '{507:y}', 0) => 0: TooLarge
INSERT INTO page VALUES (2000, '{507:y}', 0); INSERT INTO page VALUES (2000, '{506:y}', 0) => 0: 1; 1002 rows of 1048576 bytes
INSERT INTO page VALUES (2000, '{507:y}', 0); SELECT size FROM page WHERE id = 2000 => 0:
INSERT INTO page VALUES (2000, '{506:y}', 0); UPDATE page SET body = '{507:y}' WHERE id = 2000; UPDATE page SET size = 1 WHERE id = 2000 => 1: 1; 1002 rows of 1048576 bytes
INSERT INTO page VALUES (2000, '{506:y}', 0); INSERT INTO page VALUES (2001, '', 0); DELETE FROM page WHERE id = 2000 => 1: 1; 1001 rows of 1048047 bytes
INSERT INTO page VALUES (2000, 'y', 0), (2001, '{506:y}', 0); DELETE FROM page WHERE id > 1000 => 1: 1; 1000 rows of 1047000 bytes";

#[test]
fn statements_work_on_what_those_before_them_left(rt: HostRuntime) -> Result<(), Fail> {
    play(rt.alloc(), BEHIND_ONE_ANOTHER)
}

#[test]
fn a_statement_with_a_fault_leaves_nothing(rt: HostRuntime) -> Result<(), Fail> {
    play(rt.alloc(), BEHIND_FAULTS)
}

#[test]
fn rows_are_put_one_by_one(rt: HostRuntime) -> Result<(), Fail> {
    play_over(rt.alloc(), TABLES, "", "", ROWS_ONE_BY_ONE)
}

#[test]
fn too_many_rows_leave_the_net(rt: HostRuntime) -> Result<(), Fail> {
    play_over(rt.alloc(), TABLES, "", "", BEHIND_TOO_MANY_ROWS)
}

#[test]
fn too_many_bytes_leave_the_net(rt: HostRuntime) -> Result<(), Fail> {
    play_over(rt.alloc(), PAGES, "", FULL_PAGES, BEHIND_TOO_MANY_BYTES)
}
