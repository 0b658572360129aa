//! That a line is told whose statement is answered otherwise than it says.
use exec_kit::{ROWS, TABLES, first_wrong};
use std::test::Fail;

/// Each line is wrong: by its lines, their order or their number, the rows handed out, its fault, its net or its plan.
const WRONG: &str = "\
SELECT id FROM acc WHERE id = 2 => 1: (3)
SELECT id FROM acc WHERE id < 3 => 2: (2) (1)
SELECT id FROM acc WHERE id < 3 => 2: (1)
SELECT id FROM acc WHERE id < 3 => 5: (1) (2)
SELECT id FROM acc WHERE id < 3 => 2: Overflow
SELECT 1 / 0 FROM acc => 5: Overflow
SELECT 1 / 0 FROM acc => 5:
SELECT id FROM acc WHERE id = 2 FOR UPDATE => 1: (2);
INSERT INTO void VALUES (1, 2) => 0: 1; +3 (1) (1, 3)
INSERT INTO void VALUES (NULL, 2) => 0: NullNotAllowed value
INSERT INTO acc VALUES (2, 1, 1) => 0: Duplicate 0 (1)
UPDATE acc SET amount = 1 WHERE id = 2 => 1: 1;
DELETE FROM acc WHERE id = 2 => 1: 1; +0 (2) (2, 8, 20)
DELETE FROM acc WHERE id = 2 => 1: 0; -0 (2)
EXPLAIN SELECT id FROM acc WHERE id = 2 => 0: | acc scan";

#[test]
fn wrong_lines_are_told(rt: HostRuntime) -> Result<(), Fail> {
    for line in WRONG.lines() {
        if first_wrong(rt.alloc(), TABLES, ROWS, "", line)?.is_none() {
            return Err(Fail::new(line));
        }
    }
    Ok(())
}

#[test]
fn what_was_found_is_told(rt: HostRuntime) -> Result<(), Fail> {
    let lines = "\
SELECT id FROM acc WHERE id = 1 => 1: (1)
SELECT id FROM acc WHERE id = 2 => 1: (1)";
    let told = first_wrong(rt.alloc(), TABLES, ROWS, "", lines)?;
    assert_eq!(rt;
        told.as_deref(),
        Some("found 1: (2) in SELECT id FROM acc WHERE id = 2 => 1: (1)")
    );
    Ok(())
}
