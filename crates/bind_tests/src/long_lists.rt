//! Queries of many items.
use crate::checking::first_wrong;
use crate::tables::schema;
use std::test::Fail;

/// Each line has a number, a query and the answer; the two dots stand for so many items `id`.
const QUERIES: &str = "
64 SELECT .. id FROM acc => 24
64 SELECT .. id FROM nix => 20 nix
64 SELECT .. id FROM acc JOIN nix ON TRUE => 20 nix
64 SELECT .. id FROM acc JOIN acc ON TRUE => 22 acc
64 SELECT .. id FROM acc JOIN cust ON 1 => 23
64 SELECT .. id FROM acc WHERE x => 21 x
64 SELECT .. id FROM acc GROUP BY x => 21 x
64 SELECT .. x FROM acc ORDER BY y => 21 x
65 SELECT .. 1 + 'a' FROM acc => 23
65 SELECT .. x FROM acc => 21 x
65 SELECT .. amount FROM acc GROUP BY id => 26 amount
64 SELECT .. id FROM acc ORDER BY x => 24
63 SELECT .. id FROM acc ORDER BY x => 21 x
63 SELECT .. id AS a, id AS a FROM acc ORDER BY a => 24
62 SELECT .. id AS a, id AS a FROM acc ORDER BY a => 22 a
64 SELECT .. id FROM acc GROUP BY id ORDER BY amount => 24
63 SELECT .. id FROM acc GROUP BY id ORDER BY amount => 26 amount
200 SELECT .. id FROM acc FOR UPDATE => 24
64 SELECT .. id FROM acc GROUP BY id FOR UPDATE => 24
63 SELECT .. id FROM acc GROUP BY id FOR UPDATE => 27
64 EXPLAIN SELECT .. id FROM acc ORDER BY x => 24
";

#[test]
fn a_query_has_at_most_64_items(rt: HostRuntime) -> Result<(), Fail> {
    let alloc = rt.alloc();
    let schema = schema(alloc)?;
    assert_eq!(rt; first_wrong(alloc, &schema, QUERIES)?, None);
    Ok(())
}
