//! The widest table: 32 columns, of which four are its key.
use crate::checking::first_wrong;
use crate::tables::table;
use geo_schema::{Kind, Schema};
use std::alloc::Global;
use std::test::Fail;

const NAMES: &str = "
c0 c1 c2 c3 c4 c5 c6 c7 c8 c9 c10 c11 c12 c13 c14 c15
c16 c17 c18 c19 c20 c21 c22 c23 c24 c25 c26 c27 c28 c29 c30 c31
";

/// The table alone, with numbers in all its columns.
fn schema(alloc: Global) -> Result<Schema, Fail> {
    let mut columns = Vec::new(alloc);
    for name in NAMES.split_whitespace() {
        columns.push((name, Kind::Int))?;
    }
    let wide = table(alloc, "wide", columns.as_slice(), &[0, 1, 2, 3])?;
    Ok(Schema::new(alloc, vec![in alloc; wide]?)?)
}

const STATEMENTS: &str = "
SELECT c0, c31 FROM wide => select 0: #0 #31
SELECT c32 FROM wide => 21 c32
SELECT b.c31 FROM wide AS a JOIN wide AS b ON a.c31 = b.c0 => select 0 0: #63 where (#31 = #32)
SELECT * FROM wide AS a JOIN wide AS b ON TRUE ORDER BY x => 21 x
SELECT * FROM wide AS a JOIN wide AS b ON TRUE ORDER BY c31 => 22 c31
SELECT * FROM wide AS a JOIN wide AS b ON TRUE GROUP BY a.c0 => 26 c1
INSERT INTO wide(c31, c30) VALUES (1, NULL) => insert 0: #31 #30 row 1 NULL
INSERT INTO wide VALUES (1, 2) => 24
UPDATE wide SET c31 = c0, c4 = c31 => update 0: set #31 #0 set #4 #31
UPDATE wide SET c4 = 1, c3 = 1 => 25 c3
";

#[test]
fn the_widest_table_is_bound(rt: HostRuntime) -> Result<(), Fail> {
    let alloc = rt.alloc();
    let schema = schema(alloc)?;
    assert_eq!(rt; first_wrong(alloc, &schema, STATEMENTS)?, None);
    Ok(())
}
