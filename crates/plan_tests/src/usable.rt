//! Which conjuncts are of use to a plan.
use crate::checking::first_wrong;
use std::test::Fail;

/// Conjuncts of other forms are of no use, and don't keep those behind them from being.
const OTHER_FORMS: &str = "\
0: #0 10 <> => scan | acc scan
0: 10 #0 <> => scan | acc scan
0: #0 null = => scan | acc scan
0: null #0 > => scan | acc scan
0: #0 #1 = => scan | acc scan
0: #0 10 = #0 20 = or => scan | acc scan
0: #0 10 = not => scan | acc scan
0: #0 is_null => scan | acc scan
0: #1 is_not_null => scan | acc scan
0: #0 => scan | acc scan
0: #0 10 <>, #0 3 >= => keys from (3) | acc key range
0: #0 null =, #0 10 = => point (10) | acc point
0: #1 null <, #1 5 < => index 0 above (NULL) below (5) | acc index by_owner
0: #0 10 = #0 20 = or, #0 30 = => point (30) | acc point
0: #0 10 = not, #1 #2 =, true, 3 4 =, #0 20 <= => keys to (20) | acc key range
0: #1 is_not_null, #1 2 = => index 0 from (2) to (2) | acc index by_owner
0: #0 true = => point (TRUE) | acc point";

/// From the first conjunct on that calculates none is of use, wherever it calculates.
const BEHIND_ARITHMETIC: &str = "\
0: #1 1 =, #2 2 / 10 > => index 0 from (1) to (1) | acc index by_owner
0: #2 2 / 10 >, #0 10 = => scan | acc scan
0: #0 10 >, #2 1 + 3 =, #0 20 < => keys above (10) | acc key range
0: #0 1 1 + = => scan | acc scan
0: #2 neg 3 =, #0 10 = => scan | acc scan
0: #2 1 - 0 > not, #0 10 = => scan | acc scan
0: #2 0 = #2 3 * 9 > or, #0 10 = => scan | acc scan
0: #2 3 * 9 > #2 0 = and, #0 10 = => scan | acc scan
0: #2 1 + is_null, #0 10 = => scan | acc scan
0: #0 -10 = => point (-10) | acc point
0: #2 -3 >, #0 10 = => point (10) | acc point";

#[test]
fn other_forms_are_passed_over(rt: HostRuntime) -> Result<(), Fail> {
    assert_eq!(rt; first_wrong(rt.alloc(), OTHER_FORMS)?, None);
    Ok(())
}

#[test]
fn arithmetic_ends_what_is_of_use(rt: HostRuntime) -> Result<(), Fail> {
    assert_eq!(rt; first_wrong(rt.alloc(), BEHIND_ARITHMETIC)?, None);
    Ok(())
}
