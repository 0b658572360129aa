//! The widest table: 32 columns, of which four are its key and aren't in their order.
use exec_kit::play_over;
use std::test::Fail;

/// The columns of its key are c3, c1, c0 and c2, in this order. The last column but one holds texts, and the last one isn't
/// null.
const TABLES: &str = "\
wide|c0 i,c1 i,c2 i,c3 i,c4 i,c5 i,c6 i,c7 i,c8 i,c9 i,c10 i,c11 i,c12 i,c13 i,c14 i,c15 i,c16 i,c17 i,c18 i,c19 i,c20 i,c21 i,c22 i,c23 i,c24 i,c25 i,c26 i,c27 i,c28 i,c29 i,c30 t,c31 I|3102|";

/// In each column its place.
const ROWS: &str = "\
0: 0 1 2 3 4 5 6 7 8 9 10 11 12 13 14 15 16 17 18 19 20 21 22 23 24 25 26 27 28 29 'thirty 31";

const INSERTS: &str = "\
INSERT INTO wide VALUES ({30:#,}'last',32) => 0: 1; +0 (4, 2, 1, 3) (1, 2, 3, 4, 5, 6, 7, 8, 9, 10, 11, 12, 13, 14, 15, 16, 17, 18, 19, 20, 21, 22, 23, 24, 25, 26, 27, 28, 29, 30, 'last', 32)
INSERT INTO wide (c0{31:,c#}) VALUES ({30:#,}'last',32) => 0: 1; +0 (4, 2, 1, 3) (1, 2, 3, 4, 5, 6, 7, 8, 9, 10, 11, 12, 13, 14, 15, 16, 17, 18, 19, 20, 21, 22, 23, 24, 25, 26, 27, 28, 29, 30, 'last', 32)
INSERT INTO wide (c31, c30, c29, c28, c27, c26, c25, c24, c23, c22, c21, c20, c19, c18, c17, c16, c15, c14, c13, c12, c11, c10, c9, c8, c7, c6, c5, c4, c3, c2, c1, c0) VALUES (31, 'x', 129, 128, 127, 126, 125, 124, 123, 122, 121, 120, 119, 118, 117, 116, 115, 114, 113, 112, 111, 110, 109, 108, 107, 106, 105, 104, 103, 102, 101, 100) => 0: 1; +0 (103, 101, 100, 102) (100, 101, 102, 103, 104, 105, 106, 107, 108, 109, 110, 111, 112, 113, 114, 115, 116, 117, 118, 119, 120, 121, 122, 123, 124, 125, 126, 127, 128, 129, 'x', 31)
INSERT INTO wide (c0, c1, c2, c3, c31) VALUES (0, 1, 3, 2, 9) => 0: 1; +0 (2, 1, 0, 3) (0, 1, 3, 2, NULL, NULL, NULL, NULL, NULL, NULL, NULL, NULL, NULL, NULL, NULL, NULL, NULL, NULL, NULL, NULL, NULL, NULL, NULL, NULL, NULL, NULL, NULL, NULL, NULL, NULL, NULL, 9)
INSERT INTO wide (c31, c3, c2, c1, c0) VALUES (9, 3, 2, 1, 0) => 0: Duplicate 0 (3, 1, 0, 2)
INSERT INTO wide (c0, c1, c2, c3) VALUES (0, 1, 3, 2) => 0: NullNotAllowed c31
INSERT INTO wide (c0, c1, c2, c31) VALUES (0, 1, 3, 9) => 0: NullNotAllowed c3
INSERT INTO wide (c1, c3, c31) VALUES (1, 2, NULL) => 0: NullNotAllowed c0
INSERT INTO wide (c0, c1, c2, c3, c30) VALUES (0, 1, 3, 2, 'twenty-one bytes long') => 0: TextTooLong c30
INSERT INTO wide VALUES ({30:#,}'last',1 / 0) => 0: DivideByZero";

/// The values are all of the row as it stood.
const UPDATES: &str = "\
UPDATE wide SET c4 = c0, c5 = c1, c6 = c2, c7 = c3, c8 = c4, c9 = c5, c10 = c6, c11 = c7, c12 = c8, c13 = c9, c14 = c10, c15 = c11, c16 = c12, c17 = c13, c18 = c14, c19 = c15, c20 = c16, c21 = c17, c22 = c18, c23 = c19, c24 = c20, c25 = c21, c26 = c22, c27 = c23, c28 = c24, c29 = c25, c30 = 'x', c31 = c27 WHERE c0 = 0 AND c1 = 1 AND c2 = 2 AND c3 = 3 => 1: 1; +0 (3, 1, 0, 2) (0, 1, 2, 3, 0, 1, 2, 3, 4, 5, 6, 7, 8, 9, 10, 11, 12, 13, 14, 15, 16, 17, 18, 19, 20, 21, 22, 23, 24, 25, 'x', 27)
UPDATE wide SET c4 = 5 WHERE c3 = 3 => 1: 1; +0 (3, 1, 0, 2) (0, 1, 2, 3, 5, 5, 6, 7, 8, 9, 10, 11, 12, 13, 14, 15, 16, 17, 18, 19, 20, 21, 22, 23, 24, 25, 26, 27, 28, 29, 'thirty', 31)
UPDATE wide SET c31 = NULL, c30 = 'twenty-one bytes long' => 1: TextTooLong c30
UPDATE wide SET c31 = NULL, c29 = 1 / 0 => 1: DivideByZero
UPDATE wide SET c31 = NULL => 1: NullNotAllowed c31
UPDATE wide SET c4 = 5 WHERE c3 = 3 AND c1 = 1 AND c0 = 0 AND c2 = 3 => 0: 0;
DELETE FROM wide WHERE c2 = 2 AND c3 = 3 AND c0 = 0 AND c1 = 1 => 1: 1; -0 (3, 1, 0, 2)
SELECT * FROM wide WHERE c31 = 31 FOR UPDATE => 1: (0, 1, 2, 3, 4, 5, 6, 7, 8, 9, 10, 11, 12, 13, 14, 15, 16, 17, 18, 19, 20, 21, 22, 23, 24, 25, 26, 27, 28, 29, 'thirty', 31); 0 (3, 1, 0, 2)";

#[test]
fn rows_of_32_columns_are_inserted(rt: HostRuntime) -> Result<(), Fail> {
    play_over(rt.alloc(), TABLES, ROWS, "", INSERTS)
}

#[test]
fn rows_of_32_columns_are_changed(rt: HostRuntime) -> Result<(), Fail> {
    play_over(rt.alloc(), TABLES, ROWS, "", UPDATES)
}
