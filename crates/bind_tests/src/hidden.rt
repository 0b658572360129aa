//! Tables of uniques, which no statement names.
use crate::checking::first_wrong;
use crate::tables::tables;
use geo_base::Txt;
use geo_schema::{PlaceList, Schema, UniqueDef};
use std::alloc::Global;
use std::test::Fail;

/// The same tables, and a unique `one_amount` of the accounts.
fn with_unique(alloc: Global) -> Result<Schema, Fail> {
    let unique = UniqueDef {
        name: Txt::new(alloc, "one_amount")?,
        table: 0,
        columns: PlaceList::new(vec![in alloc; 1]?),
    };
    let uniques = vec![in alloc; unique]?;
    Ok(Schema::with_unique(alloc, tables(alloc)?, uniques)?)
}

const STATEMENTS: &str = "
SELECT * FROM acc => select 0: #0 #1
SELECT * FROM acc AS one_amount => select 0: #0 #1
SELECT * FROM one_amount => 20 one_amount
SELECT * FROM acc JOIN one_amount ON TRUE => 20 one_amount
SELECT one_amount.amount FROM acc => 21 one_amount.amount
SELECT * FROM one_amount FOR UPDATE => 20 one_amount
EXPLAIN SELECT * FROM one_amount => 20 one_amount
INSERT INTO one_amount VALUES (1, 2) => 20 one_amount
UPDATE one_amount SET x = 1 => 20 one_amount
DELETE FROM one_amount => 20 one_amount
";

#[test]
fn hidden_tables_are_not_found(rt: HostRuntime) -> Result<(), Fail> {
    let alloc = rt.alloc();
    let schema = with_unique(alloc)?;
    assert_eq!(rt; first_wrong(alloc, &schema, STATEMENTS)?, None);
    Ok(())
}
