//! How the rows of a second table are found beside those of the first. Its columns are counted behind the first one's.
use crate::checking::first_wrong;
use std::test::Fail;

/// No equality links the two tables.
const NESTED: &str = "\
0 1: => scan; scan nested | acc scan | cust scan, join nested
0 1: #1 #3 < => scan; scan nested | acc scan | cust scan, join nested
0 1: #1 #3 <> => scan; scan nested | acc scan | cust scan, join nested
0 1: #0 #1 =, #3 #4 = => scan; scan nested | acc scan | cust scan, join nested
0 1: #1 #3 = #2 #4 = or => scan; scan nested | acc scan | cust scan, join nested
0 1: #0 1 + 3 =, #1 #3 = => scan; scan nested | acc scan | cust scan, join nested
0 1: #3 7 = => scan; point (7) nested | acc scan | cust point, join nested
0 1: #3 1 >, #1 2 < => index 0 above (NULL) below (2); keys above (1) nested | acc index by_owner | cust key range, join nested
1 0: #0 5 =, #3 5 = => point (5); index 0 from (5) to (5) nested | cust point | acc index by_owner, join nested";

/// Each column of the second key has an equality with a literal or with a column, one of them with a column alone.
const BY_KEY: &str = "\
0 1: #1 #3 =, #0 10 >= => keys from (10); scan by key #1 | acc key range | cust scan, join by key
0 1: #3 #1 = => scan; scan by key #1 | acc scan | cust scan, join by key
0 1: #2 #4 =, #1 #3 = => scan; scan by key #1 | acc scan | cust scan, join by key
0 1: #1 #3 =, #2 #3 = => scan; scan by key #1 | acc scan | cust scan, join by key
0 1: #1 #3 =, #3 9 < => scan; keys below (9) by key #1 | acc scan | cust key range, join by key
0 0: #1 #3 =, #0 2 = => point (2); scan by key #1 | acc point | acc scan, join by key
0 2: #0 #4 =, #1 #3 = => scan; scan by key #0 #1 | acc scan | event scan, join by key
0 2: #3 8 =, #0 #4 = => scan; scan by key #0 8 | acc scan | event scan, join by key
0 2: #1 #3 =, #4 8 = => scan; keys from (8) to (8) by key 8 #1 | acc scan | event key range, join by key
0 2: #3 8 =, #3 9 =, #0 #4 =, #1 #4 = => scan; scan by key #0 8 | acc scan | event scan, join by key
0 2: #1 #3 =, #3 8 =, #2 #4 = => scan; scan by key #2 8 | acc scan | event scan, join by key";

/// The first link counts, where the key's columns are not all equal to something, or all to literals.
const HASHED: &str = "\
1 0: #3 #0 = => scan; scan hashed #0 #1 | cust scan | acc scan, join hashed
1 0: #0 #3 = => scan; scan hashed #0 #1 | cust scan | acc scan, join hashed
0 1: #2 #4 =, #1 #4 = => scan; scan hashed #2 #1 | acc scan | cust scan, join hashed
0 1: #1 #3 =, #3 7 = => scan; point (7) hashed #1 #0 | acc scan | cust point, join hashed
1 0: #3 #0 =, #3 5 = => scan; index 0 from (5) to (5) hashed #0 #1 | cust scan | acc index by_owner, join hashed
0 0: #1 #4 =, #0 10 = => point (10); scan hashed #1 #1 | acc point | acc scan, join hashed
0 2: #0 #4 = => scan; scan hashed #0 #1 | acc scan | event scan, join hashed
0 2: #4 8 =, #3 9 =, #0 #5 = => scan; point (8, 9) hashed #0 #2 | acc scan | event point, join hashed
0 1: #2 #4 =, #0 1 + 3 =, #1 #3 = => scan; scan hashed #2 #1 | acc scan | cust scan, join hashed";

#[test]
fn tables_without_links_are_nested(rt: HostRuntime) -> Result<(), Fail> {
    assert_eq!(rt; first_wrong(rt.alloc(), NESTED)?, None);
    Ok(())
}

#[test]
fn keys_come_before_links(rt: HostRuntime) -> Result<(), Fail> {
    assert_eq!(rt; first_wrong(rt.alloc(), BY_KEY)?, None);
    Ok(())
}

#[test]
fn first_links_are_hashed(rt: HostRuntime) -> Result<(), Fail> {
    assert_eq!(rt; first_wrong(rt.alloc(), HASHED)?, None);
    Ok(())
}
