//! Statements after which the changes of a transaction would have more than 1,048,576 bytes, which is found behind all
//! faults of their rows, and behind too many rows.
//!
//! A put of a page has 23 bytes and those of its text, so 1,001 of the longest texts have 1,048,047, and leave 529.
use exec_kit::play_over;
use std::test::Fail;

/// Pages of long texts, whose sizes aren't null; names; notes with a short and a long text; and counters.
const TABLES: &str = "\
page|id i,body x,size I|0|
name|word t|0|
memo|id i,short t,long x|0|
void|id i,value i|0|";

/// 1,001 pages of the longest texts, two with which there are as many bytes as may be, or one more, and others up to 1,025
/// pages. The last one is 900022.
const PAGES: &str = "\
{1001:0: # *1024 0\n}0: 1002 *506 0
0: 1003 *507 0
{22:0: 9000# *1024 0\n}";

/// The greatest number is 9223372036853875786 and 900,021 more.
const LINES: &str = "\
UPDATE page SET size = 1 WHERE id < 1003 => 1002: 1002; 1002 rows of 1048576 bytes
UPDATE page SET size = 1 WHERE id < 1004 AND id <> 1002 => 1003: TooLarge
UPDATE page SET body = body WHERE id < 1004 => 1003: TooLarge
UPDATE page SET body = 'x' WHERE id < 1004 => 1003: 1003; 1003 rows of 24072 bytes
UPDATE page SET body = '{1024:y}' WHERE id < 1002 => 1001: 1001; 1001 rows of 1048047 bytes
UPDATE page SET body = '{1024:y}' WHERE id < 1003 => 1002: TooLarge
UPDATE page SET size = 1 => 1025: TooManyRows
UPDATE page SET size = 1 WHERE id <> 7 => 1025: TooLarge
UPDATE page SET size = 1 / (id - 900022) => 1025: DivideByZero
UPDATE page SET size = 1 / (id - 900022) WHERE id <> 7 => 1025: DivideByZero
UPDATE page SET size = 9223372036853875786 + id WHERE id <> 7 => 1025: Overflow
UPDATE page SET size = 1 WHERE 1 / (id - 900022) < 9 => 1025: DivideByZero
DELETE FROM page WHERE id <> 7 => 1025: 1024; 1024 rows of 11264 bytes
SELECT size FROM page WHERE id <> 7 LIMIT 1 FOR UPDATE => 1025: (0); 1024 rows of 11264 bytes";

/// A page and 60 counters.
const ROWS: &str = "\
0: 1 'x 0
{60:3: # 0\n}";

/// 1,048,370 bytes, which leave 206. Of its pages the snapshot has the first.
const NET: &str = "\
{1001:+ 0: # *1024 0\n}+ 0: 1002 *300 0";

/// A touch, as a removal, has 11 bytes, and a put of a counter without a value 12.
const BEHIND_NET: &str = "\
SELECT id FROM void WHERE id < 19 LIMIT 0 FOR UPDATE => 18:; 1020 rows of 1048568 bytes
SELECT id FROM void WHERE id < 20 LIMIT 0 FOR UPDATE => 19: TooLarge
SELECT id FROM void WHERE id < 23 LIMIT 0 FOR UPDATE => 22: TooLarge
SELECT id FROM void WHERE id < 24 LIMIT 0 FOR UPDATE => 23: TooManyRows
SELECT 1 / (id - 19) FROM void WHERE id < 20 FOR UPDATE => 19: DivideByZero
SELECT size FROM page WHERE id < 4 FOR UPDATE => 3: (0) (0) (0); 1002 rows of 1048370 bytes
DELETE FROM void WHERE id < 19 => 18: 18; 1020 rows of 1048568 bytes
DELETE FROM void WHERE id < 20 => 19: TooLarge
DELETE FROM void WHERE id < 24 => 23: TooManyRows
DELETE FROM void WHERE id < 20 AND 1 / (id - 19) < 9 => 19: DivideByZero
DELETE FROM page WHERE id = 1 => 1: 1; 1002 rows of 1047334 bytes
DELETE FROM page WHERE id = 2 => 1: 1; 1001 rows of 1047323 bytes
UPDATE void SET value = NULL WHERE id < 18 => 17: 17; 1019 rows of 1048574 bytes
UPDATE void SET value = NULL WHERE id < 19 => 18: TooLarge
UPDATE page SET size = 1 WHERE id = 1 => 1: 1; 1002 rows of 1048370 bytes
UPDATE page SET body = 'x' WHERE id = 1 => 1: 1; 1002 rows of 1047347 bytes
UPDATE page SET body = '{506:y}' WHERE id = 1002 => 1: 1; 1002 rows of 1048576 bytes
UPDATE page SET body = '{507:y}' WHERE id = 1002 => 1: TooLarge
UPDATE page SET body = '{507:y}', size = NULL WHERE id = 1002 => 1: NullNotAllowed size
UPDATE page SET body = '{507:y}', size = 1 / 0 WHERE id = 1002 => 1: DivideByZero
INSERT INTO page VALUES (2000, '{183:y}', 0) => 0: 1; 1003 rows of 1048576 bytes
INSERT INTO page VALUES (2000, '{184:y}', 0) => 0: TooLarge
INSERT INTO page VALUES (2000, '{184:y}', 1 / 0) => 0: DivideByZero
INSERT INTO page VALUES (2000, '{184:y}', 9223372036854775807 + 1) => 0: Overflow
INSERT INTO page VALUES (2000, '{184:y}', NULL) => 0: NullNotAllowed size
INSERT INTO page VALUES (2000, '{184:y}', 0), (1, 'x', 0) => 0: Duplicate 0 (1)
INSERT INTO page VALUES (2000, '{184:y}', 0), (2000, 'x', 0) => 0: Duplicate 0 (2000)
INSERT INTO memo VALUES (1, 'twenty-one bytes long', '{184:y}') => 0: TextTooLong short
INSERT INTO memo VALUES (1, 'of twenty bytes text', '{184:y}') => 0: TooLarge
INSERT INTO name VALUES ('of twenty bytes text') => 0: 1; 1003 rows of 1048395 bytes";

#[test]
fn too_many_bytes_are_refused(rt: HostRuntime) -> Result<(), Fail> {
    play_over(rt.alloc(), TABLES, PAGES, "", LINES)
}

#[test]
fn bytes_are_counted_with_those_of_the_net(rt: HostRuntime) -> Result<(), Fail> {
    play_over(rt.alloc(), TABLES, ROWS, NET, BEHIND_NET)
}
