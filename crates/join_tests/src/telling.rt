//! That a line is told which says something else than its query gives.
use crate::playing::first_wrong;
use std::test::Fail;

/// Each line is wrong: by its plan, its rows, their order or their number, or by its fault.
const WRONG: &str = "\
SELECT * FROM cust WHERE id = 1 => scan (1, 'x')
SELECT * FROM cust WHERE id = 1 => point (1, 'y')
SELECT * FROM cust WHERE id > 1 => range (3, NULL) (2, 'a')
SELECT * FROM cust WHERE id > 1 => range (2, 'a')
SELECT * FROM cust WHERE id > 1 => range DivideByZero
SELECT * FROM cust WHERE 1 / (id - 1) > 0 => scan
SELECT * FROM cust WHERE 1 / (id - 1) > 0 => scan Overflow
SELECT * FROM acc JOIN cust ON acc.owner = cust.id WHERE acc.id = 13 => point, scan by key (1, 'x')-(13, 1, NULL, NULL)";

#[test]
fn wrong_lines_are_told(rt: HostRuntime) -> Result<(), Fail> {
    for line in WRONG.lines() {
        if first_wrong(rt.alloc(), line)?.is_none() {
            return Err(Fail::new(line));
        }
    }
    Ok(())
}
