//! INSERT: how many rows it changes, what the transaction's net is behind it, and which of its faults is answered.
use exec_kit::{play, play_behind};
use std::test::Fail;

/// Rows are put in the columns that are named, and no row is handed out.
const ROWS: &str = "\
INSERT INTO void VALUES (1, 2) => 0: 1; +3 (1) (1, 2)
INSERT INTO void VALUES (2, 20), (1, 10) => 0: 2; +3 (1) (1, 10) +3 (2) (2, 20)
INSERT INTO void VALUES (1 + 2, 3 * 4) => 0: 1; +3 (3) (3, 12)
INSERT INTO void VALUES (-1, NULL) => 0: 1; +3 (-1) (-1, NULL)
INSERT INTO void (value, id) VALUES (10, 1) => 0: 1; +3 (1) (1, 10)
INSERT INTO void (id) VALUES (1), (2) => 0: 2; +3 (1) (1, NULL) +3 (2) (2, NULL)
INSERT INTO acc VALUES (4, 7, 40) => 0: 1; +0 (4) (4, 7, 40)
INSERT INTO acc (amount, id) VALUES (40, 4) => 0: 1; +0 (4) (4, NULL, 40)
INSERT INTO cust VALUES ('dan', 1 < 2) => 0: 1; +1 ('dan') ('dan', TRUE)
INSERT INTO event VALUES (4, 1, 7), (1, 4, 7) => 0: 2; +2 (1, 4) (4, 1, 7) +2 (4, 1) (1, 4, 7)
INSERT INTO item (name, id) VALUES ('of twenty bytes text', 3) => 0: 1; +4 (3) (3, 'of twenty bytes text', NULL, NULL)
INSERT INTO memo (body, id) VALUES ('four', 4) => 0: 1; +5 (4) (NULL, 4, 'four', NULL, NULL)
INSERT INTO void VALUES (9223372036854775807, -9223372036854775807 - 1) => 0: 1; +3 (9223372036854775807) (9223372036854775807, -9223372036854775808)
INSERT INTO void VALUES (9223372036854775807, 1), (-9223372036854775807 - 1, 9223372036854775807) => 0: 2; +3 (-9223372036854775808) (-9223372036854775808, 9223372036854775807) +3 (9223372036854775807) (9223372036854775807, 1)";

/// A text is as long as its bytes are, of which each of these letters but the last has two.
const TEXTS: &str = "\
INSERT INTO cust VALUES ('éééééééééé', NULL) => 0: 1; +1 ('éééééééééé') ('éééééééééé', NULL)
INSERT INTO cust VALUES ('ééééééééééé', NULL) => 0: TextTooLong name
INSERT INTO cust VALUES ('ééééééééééx', NULL) => 0: TextTooLong name
INSERT INTO item VALUES (3, 'pen', 'ééééééééééx', 1) => 0: TextTooLong note
INSERT INTO cust VALUES ('', FALSE), ('it''s', TRUE) => 0: 2; +1 ('') ('', FALSE) +1 ('it''s') ('it''s', TRUE)
INSERT INTO memo VALUES ('', 4, 'four', '{1024:x}', NULL) => 0: 1; +5 (4) ('', 4, 'four', '{1024:x}', NULL)";

/// Of one row its values come first, as they are written, then its cells, column by column, and then its name.
const FAULTS: &str = "\
INSERT INTO void VALUES (1 / 0, 9223372036854775807 + 1) => 0: DivideByZero
INSERT INTO void VALUES (9223372036854775807 + 1, 1 / 0) => 0: Overflow
INSERT INTO void (value, id) VALUES (1 / 0, 9223372036854775807 + 1) => 0: DivideByZero
INSERT INTO void (value, id) VALUES (9223372036854775807 + 1, 1 / 0) => 0: Overflow
INSERT INTO void VALUES (NULL, 1) => 0: NullNotAllowed id
INSERT INTO void (value) VALUES (1) => 0: NullNotAllowed id
INSERT INTO void VALUES (NULL, 1 / 0) => 0: DivideByZero
INSERT INTO void VALUES (NULL, 9223372036854775807 + 1) => 0: Overflow
INSERT INTO item (size, id) VALUES (1 / 0, 1) => 0: DivideByZero
INSERT INTO item VALUES (NULL, NULL, 'twenty-one bytes long', 1) => 0: NullNotAllowed id
INSERT INTO item VALUES (3, NULL, 'twenty-one bytes long', 1) => 0: NullNotAllowed name
INSERT INTO item VALUES (3, 'twenty-one bytes long', NULL, 1) => 0: TextTooLong name
INSERT INTO item VALUES (3, 'pen', 'twenty-one bytes long', 1) => 0: TextTooLong note
INSERT INTO item (note, name, id) VALUES ('twenty-one bytes long', 'twenty-one bytes long', 3) => 0: TextTooLong name
INSERT INTO item VALUES (3, 'twenty-one bytes long', NULL, 1 / 0) => 0: DivideByZero
INSERT INTO item VALUES (1, NULL, NULL, 1) => 0: NullNotAllowed name
INSERT INTO item VALUES (1, 'twenty-one bytes long', NULL, 1) => 0: TextTooLong name
INSERT INTO item VALUES (1, 'pen', NULL, 1) => 0: Duplicate 4 (1)
INSERT INTO acc VALUES (2, 1, 1) => 0: Duplicate 0 (2)
INSERT INTO acc VALUES (2, 1, 1 / 0) => 0: DivideByZero
INSERT INTO event VALUES (5, 1, 7) => 0: Duplicate 2 (1, 5)
INSERT INTO event (kind, at, region) VALUES (7, 3, 1) => 0: Duplicate 2 (3, 1)
INSERT INTO item VALUES (3, 'twenty-one bytes long', NULL, 9223372036854775807 + 1) => 0: Overflow
INSERT INTO acc VALUES (2, 1, 9223372036854775807 + 1) => 0: Overflow";

/// A column may be at fault in front of one that isn't null, and one that isn't named is NULL. The columns of a key are
/// tested in the order of the table's columns, and a key of texts as one of numbers.
const CELLS: &str = "\
INSERT INTO memo VALUES ('twenty-one bytes long', 4, NULL, NULL, NULL) => 0: TextTooLong title
INSERT INTO memo VALUES ('twenty-one bytes long', NULL, 'four', NULL, NULL) => 0: TextTooLong title
INSERT INTO memo (source, body, id, title) VALUES (NULL, NULL, NULL, 'twenty-one bytes long') => 0: TextTooLong title
INSERT INTO memo VALUES (NULL, NULL, 'twenty-one bytes long', NULL, NULL) => 0: NullNotAllowed id
INSERT INTO memo VALUES (NULL, 1, 'twenty-one bytes long', NULL, NULL) => 0: TextTooLong body
INSERT INTO item (id) VALUES (3) => 0: NullNotAllowed name
INSERT INTO item (size, id) VALUES (1, 1) => 0: NullNotAllowed name
INSERT INTO item (name) VALUES ('pen') => 0: NullNotAllowed id
INSERT INTO event VALUES (NULL, NULL, 7) => 0: NullNotAllowed region
INSERT INTO event VALUES (NULL, 1, 7) => 0: NullNotAllowed region
INSERT INTO event VALUES (1, NULL, 7) => 0: NullNotAllowed at
INSERT INTO event (kind) VALUES (7) => 0: NullNotAllowed region
INSERT INTO cust VALUES ('twenty-one bytes long', TRUE) => 0: TextTooLong name
INSERT INTO cust VALUES (NULL, TRUE) => 0: NullNotAllowed name
INSERT INTO cust (good) VALUES (TRUE) => 0: NullNotAllowed name
INSERT INTO cust VALUES ('bob', TRUE) => 0: Duplicate 1 ('bob')
INSERT INTO cust VALUES ('dan', TRUE), ('dan', FALSE) => 0: Duplicate 1 ('dan')";

/// The first row that has a fault is answered with its first one; a row that the statement has inserted is there too.
const ORDER: &str = "\
INSERT INTO void VALUES (1, 2), (1, 3) => 0: Duplicate 3 (1)
INSERT INTO void VALUES (1, 2), (2, 2), (3, 2), (2, 2) => 0: Duplicate 3 (2)
INSERT INTO void VALUES (1, 2), (1, 1 / 0) => 0: DivideByZero
INSERT INTO void VALUES (1, 2), (1, 3), (2, 1 / 0) => 0: Duplicate 3 (1)
INSERT INTO void VALUES (1, 1 / 0), (NULL, 2) => 0: DivideByZero
INSERT INTO void VALUES (NULL, 2), (1, 1 / 0) => 0: NullNotAllowed id
INSERT INTO acc VALUES (4, 1, 1), (5, 1, 1) => 0: Duplicate 0 (5)
INSERT INTO acc VALUES (5, 1, 1), (NULL, 1, 1) => 0: Duplicate 0 (5)
INSERT INTO acc VALUES (NULL, 1, 1), (5, 1, 1) => 0: NullNotAllowed id
INSERT INTO item VALUES (3, 'pen', NULL, 1), (3, 'twenty-one bytes long', NULL, 1) => 0: TextTooLong name
INSERT INTO item VALUES (3, 'pen', NULL, 1), (3, 'pen', NULL, 1), (4, NULL, NULL, 1) => 0: Duplicate 4 (3)
INSERT INTO item VALUES (3, 'twenty-one bytes long', NULL, 1), (NULL, 'pen', NULL, 1) => 0: TextTooLong name
INSERT INTO item VALUES (3, 'twenty-one bytes long', NULL, 1), (4, 'pen', NULL, 9223372036854775807 + 1) => 0: TextTooLong name
INSERT INTO item VALUES (3, 'twenty-one bytes long', NULL, 1), (4, 'pen', NULL, 1 / 0) => 0: TextTooLong name
INSERT INTO item VALUES (3, 'twenty-one bytes long', NULL, 1), (1, 'pen', NULL, 1) => 0: TextTooLong name
INSERT INTO item VALUES (3, NULL, NULL, 1), (4, 'twenty-one bytes long', NULL, 1) => 0: NullNotAllowed name
INSERT INTO item VALUES (3, 'pen', NULL, 9223372036854775807 + 1), (4, 'twenty-one bytes long', NULL, 1) => 0: Overflow
INSERT INTO void VALUES (1, 9223372036854775807 + 1), (2, 1 / 0) => 0: Overflow
INSERT INTO void VALUES (1, 9223372036854775807 + 1), (NULL, 2) => 0: Overflow
INSERT INTO void VALUES (1, 1 / 0), (2, 9223372036854775807 + 1) => 0: DivideByZero
INSERT INTO acc VALUES (4, 1, 9223372036854775807 + 1), (5, 1, 1) => 0: Overflow
INSERT INTO acc VALUES (5, 1, 1), (4, 1, 9223372036854775807 + 1) => 0: Duplicate 0 (5)";

/// The transaction has changed the account 2, removed 3, put 4, which the snapshot lacks, and locked 5.
const WRITES: &str = "\
+ 0: 2 8 25
- 0: 3 - 30
+ 0: 4 7 40
= 0: 5 7 -";

/// What it has put is there, and what it has removed isn't.
const BEHIND_WRITES: &str = "\
INSERT INTO acc VALUES (1, 1, 1) => 0: Duplicate 0 (1)
INSERT INTO acc VALUES (2, 1, 1) => 0: Duplicate 0 (2)
INSERT INTO acc VALUES (4, 1, 1) => 0: Duplicate 0 (4)
INSERT INTO acc VALUES (5, 1, 1) => 0: Duplicate 0 (5)
INSERT INTO acc VALUES (3, 1, 1) => 0: 1; +0 (2) (2, 8, 25) +0 (3) (3, 1, 1) +0 (4) (4, 7, 40) 0 (5)
INSERT INTO acc VALUES (3, 1, 1), (3, 1, 1) => 0: Duplicate 0 (3)
INSERT INTO acc VALUES (6, 1, 1) => 0: 1; +0 (2) (2, 8, 25) -0 (3) +0 (4) (4, 7, 40) 0 (5) +0 (6) (6, 1, 1)
INSERT INTO void VALUES (2, 1) => 0: 1; +0 (2) (2, 8, 25) -0 (3) +0 (4) (4, 7, 40) 0 (5) +3 (2) (2, 1)";

#[test]
fn rows_are_put_in_their_columns(rt: HostRuntime) -> Result<(), Fail> {
    play(rt.alloc(), ROWS)
}

#[test]
fn texts_are_as_long_as_their_bytes(rt: HostRuntime) -> Result<(), Fail> {
    play(rt.alloc(), TEXTS)
}

#[test]
fn the_first_fault_of_a_row_is_answered(rt: HostRuntime) -> Result<(), Fail> {
    play(rt.alloc(), FAULTS)
}

#[test]
fn the_first_cell_at_fault_is_answered(rt: HostRuntime) -> Result<(), Fail> {
    play(rt.alloc(), CELLS)
}

#[test]
fn one_row_is_done_after_another(rt: HostRuntime) -> Result<(), Fail> {
    play(rt.alloc(), ORDER)
}

#[test]
fn rows_are_looked_for_behind_the_net(rt: HostRuntime) -> Result<(), Fail> {
    play_behind(rt.alloc(), WRITES, BEHIND_WRITES)
}
