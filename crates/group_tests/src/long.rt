//! Queries of more lines than an answer may have, which is found behind all faults.
use crate::playing::play_over;
use geo_base::NoMemory;
use std::alloc::Global;
use std::test::Fail;

/// One row more than an answer has lines, with their numbers from 1 on.
const MANY: u32 = 100_001;

/// Only the lines that LIMIT leaves are counted.
const LINES: &str = "\
SELECT id FROM void => ResultTooLong
SELECT id FROM void LIMIT 100001 => ResultTooLong
SELECT id FROM void LIMIT 100000 => 100000 lines
SELECT id FROM void WHERE id > 1 => 100000 lines
SELECT id FROM void ORDER BY value, id DESC LIMIT 2 => (100001) (100000)
SELECT value, COUNT(*), SUM(id), MAX(id) FROM void GROUP BY value => (0, 100001, 5000150001, 100001)
SELECT id FROM void GROUP BY id => ResultTooLong
SELECT id FROM void GROUP BY id ORDER BY id DESC LIMIT 1 => (100001)
SELECT 1 / (id - 100001) FROM void => DivideByZero";

fn many_rows(alloc: Global) -> Result<String, NoMemory> {
    let mut rows = String::new(alloc);
    for before in 0..MANY {
        let id = before + 1;
        write!(rows, "2: {id} 0\n")?;
    }
    Ok(rows)
}

#[test]
fn more_than_100_000_lines_are_refused(rt: HostRuntime) -> Result<(), Fail> {
    let rows = many_rows(rt.alloc())?;
    play_over(rt.alloc(), rows.as_str(), LINES)
}
