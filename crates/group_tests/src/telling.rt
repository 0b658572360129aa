//! That a line is told whose query is answered otherwise than it says.
use crate::playing::{ROWS, first_wrong};
use std::test::Fail;

/// Each line is wrong: by its lines, their order or their number, or by its fault.
const WRONG: &str = "\
SELECT COUNT(*) FROM acc => (5)
SELECT id FROM acc WHERE id < 3 => (2) (1)
SELECT id FROM acc WHERE id < 3 => (1)
SELECT id FROM acc WHERE id < 3 =>
SELECT SUM(v) FROM num WHERE id < 3 => DivideByZero
SELECT SUM(v) FROM num WHERE id < 3 => (0)
SELECT owner FROM acc GROUP BY owner => (7) (8)";

#[test]
fn wrong_lines_are_told(rt: HostRuntime) -> Result<(), Fail> {
    for line in WRONG.lines() {
        if first_wrong(rt.alloc(), ROWS, line)?.is_none() {
            return Err(Fail::new(line));
        }
    }
    Ok(())
}
