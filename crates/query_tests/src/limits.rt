//! Queries of more lines than an answer may have, which is found behind all faults.
use exec_kit::{TABLES, play_over};
use std::test::Fail;

/// One row more than an answer has lines.
const ROWS: &str = "{100001:3: # 0\n}";

/// Only the lines that LIMIT leaves are counted, and a fault of the last row comes first.
const LINES: &str = "\
SELECT id FROM void => 100001: ResultTooLong
SELECT id FROM void LIMIT 100001 => 100001: ResultTooLong
SELECT id FROM void LIMIT 100000 => 100001: 100000 lines
SELECT id FROM void WHERE id > 1 => 100000: 100000 lines
SELECT id FROM void WHERE 1 / (id - 100001) < 9 => 100001: DivideByZero
SELECT 1 / (id - 100001) FROM void => 100001: DivideByZero";

#[test]
fn more_than_100_000_lines_are_refused(rt: HostRuntime) -> Result<(), Fail> {
    play_over(rt.alloc(), TABLES, ROWS, "", LINES)
}
