//! How the rows of one table are reached: the kinds of access, their edges, and which of them comes first.
use crate::checking::first_wrong;
use std::test::Fail;

/// Each column of the key has an equality, of which the first one counts.
const POINTS: &str = "\
0: #0 10 = => point (10) | acc point
0: 10 #0 = => point (10) | acc point
0: #0 10 =, #0 20 = => point (10) | acc point
0: #0 5 >, #0 10 =, #0 20 < => point (10) | acc point
0: #1 1 =, #0 10 = => point (10) | acc point
1: #0 'ann = => point ('ann') | cust point
2: #0 1 =, #1 2 = => point (2, 1) | event point
2: #1 2 =, #0 1 =, #1 3 = => point (2, 1) | event point
3: #1 1 =, #0 4 =, #2 2 = => point (4) | orders point
4: #2 3 =, #1 2 =, #0 1 = => point (1, 2, 3) | note point";

/// The first column of the key has a test.
const KEY_RANGES: &str = "\
0: #0 10 >= => keys from (10) | acc key range
0: #0 10 > => keys above (10) | acc key range
0: #0 10 <= => keys to (10) | acc key range
0: #0 10 < => keys below (10) | acc key range
0: 10 #0 < => keys above (10) | acc key range
0: 10 #0 <= => keys from (10) | acc key range
0: 10 #0 > => keys below (10) | acc key range
0: 10 #0 >= => keys to (10) | acc key range
0: #0 10 >, #0 20 <= => keys above (10) to (20) | acc key range
0: #0 20 <, #0 10 >= => keys from (10) below (20) | acc key range
0: #0 10 >, #0 5 >=, #0 20 <, #0 15 <= => keys above (10) below (20) | acc key range
0: #0 5 >=, #0 10 >, #0 15 <=, #0 20 < => keys from (5) to (15) | acc key range
0: #1 1 =, #0 10 > => keys above (10) | acc key range
3: #1 1 =, #0 4 < => keys below (4) | orders key range
2: #1 5 = => keys from (5) to (5) | event key range
2: #1 5 =, #1 3 > => keys from (5) to (5) | event key range
2: #1 5 =, #0 2 > => keys above (5, 2) to (5) | event key range
2: #1 5 =, #0 2 >= => keys from (5, 2) to (5) | event key range
2: #1 5 =, #0 2 < => keys from (5) below (5, 2) | event key range
2: #1 5 =, #0 2 <= => keys from (5) to (5, 2) | event key range
2: #0 7 <, #1 5 =, #0 2 >= => keys from (5, 2) below (5, 7) | event key range
2: #0 2 =, #1 5 > => keys above (5) | event key range
2: #2 7 =, #1 5 > => keys above (5) | event key range
4: #0 1 =, #2 3 = => keys from (1) to (1) | note key range
4: #0 1 =, #1 2 <, #2 3 = => keys from (1) below (1, 2) | note key range
4: #0 1 =, #1 2 =, #2 3 > => keys above (1, 2, 3) to (1, 2) | note key range
4: #0 1 =, #1 2 =, #2 3 <, #3 4 = => keys from (1, 2) below (1, 2, 3) | note key range";

/// The key has no test in its first column, and an index has one; a lone upper test leaves NULL out.
const INDEXES: &str = "\
0: #1 1 = => index 0 from (1) to (1) | acc index by_owner
0: #1 1 > => index 0 above (1) | acc index by_owner
0: #1 1 >= => index 0 from (1) | acc index by_owner
0: #1 1 < => index 0 above (NULL) below (1) | acc index by_owner
0: #1 1 <= => index 0 above (NULL) to (1) | acc index by_owner
0: 1 #1 > => index 0 above (NULL) below (1) | acc index by_owner
0: #1 1 >, #1 9 <= => index 0 above (1) to (9) | acc index by_owner
0: #1 9 <, #1 1 >=, #1 8 < => index 0 from (1) below (9) | acc index by_owner
2: #2 7 =, #0 2 = => index 0 from (7) to (7) | event index by_kind
3: #1 1 =, #2 2 = => index 0 from (1, 2) to (1, 2) | orders index by_a_b
3: #1 1 =, #2 2 < => index 0 above (1, NULL) below (1, 2) | orders index by_a_b
3: #1 1 =, #2 2 <= => index 0 above (1, NULL) to (1, 2) | orders index by_a_b
3: #1 1 =, #2 2 > => index 0 above (1, 2) to (1) | orders index by_a_b
3: #1 1 =, #2 2 >=, #2 9 <= => index 0 from (1, 2) to (1, 9) | orders index by_a_b
3: #1 1 >, #2 9 <= => index 0 above (1) | orders index by_a_b";

/// An equality comes before other tests, and of several indexes the first one.
const FIRST_INDEXES: &str = "\
3: #3 3 = => index 2 from (3) to (3) | orders index by_c_a_b
3: #3 3 =, #1 1 = => index 0 from (1) to (1) | orders index by_a_b
3: #3 3 =, #2 2 = => index 1 from (2) to (2) | orders index by_b
3: #1 1 >, #2 2 = => index 1 from (2) to (2) | orders index by_b
3: #1 1 <, #3 3 = => index 2 above (3, NULL) below (3, 1) | orders index by_c_a_b
3: #2 2 <, #3 3 = => index 2 from (3) to (3) | orders index by_c_a_b
3: #3 3 <, #1 1 > => index 0 above (1) | orders index by_a_b
3: #3 3 <, #2 2 > => index 1 above (2) | orders index by_b
3: #3 3 < => index 2 above (NULL) below (3) | orders index by_c_a_b
3: #3 3 =, #2 2 >, #1 1 < => index 2 above (3, NULL) below (3, 1) | orders index by_c_a_b";

/// No test is of use for a key or an index.
const SCANS: &str = "\
0: => scan | acc scan
0: #2 10 = => scan | acc scan
1: #1 1 = => scan | cust scan
2: #0 2 = => scan | event scan
4: #1 2 =, #2 3 = => scan | note scan
4: #3 4 > => scan | note scan";

#[test]
fn equalities_of_a_whole_key_are_a_point(rt: HostRuntime) -> Result<(), Fail> {
    assert_eq!(rt; first_wrong(rt.alloc(), POINTS)?, None);
    Ok(())
}

#[test]
fn tests_of_a_key_are_a_range(rt: HostRuntime) -> Result<(), Fail> {
    assert_eq!(rt; first_wrong(rt.alloc(), KEY_RANGES)?, None);
    Ok(())
}

#[test]
fn tests_of_an_index_are_a_range(rt: HostRuntime) -> Result<(), Fail> {
    assert_eq!(rt; first_wrong(rt.alloc(), INDEXES)?, None);
    Ok(())
}

#[test]
fn indexes_come_in_their_order(rt: HostRuntime) -> Result<(), Fail> {
    assert_eq!(rt; first_wrong(rt.alloc(), FIRST_INDEXES)?, None);
    Ok(())
}

#[test]
fn other_tests_scan(rt: HostRuntime) -> Result<(), Fail> {
    assert_eq!(rt; first_wrong(rt.alloc(), SCANS)?, None);
    Ok(())
}
