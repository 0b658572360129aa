//! Expressions of 400 operators and of 400 parentheses, and the longest query.
use exec_kit::play;
use std::test::Fail;

const ITEMS: &str = "\
SELECT id{400:+1} FROM acc WHERE id = 1 => 1: (401)
SELECT {400:1+(}id{400:)} FROM acc WHERE id = 1 => 1: (401)
SELECT {400:-}id FROM acc WHERE id = 1 => 1: (1)
SELECT {399:-}id FROM acc WHERE id = 1 => 1: (-1)
SELECT {400:(}id{400:)} FROM acc WHERE id = 1 => 1: (1)
SELECT {400:NOT }good FROM cust WHERE name = 'ann' => 1: (TRUE)
SELECT {399:NOT }good FROM cust WHERE name = 'ann' => 1: (FALSE)
SELECT {400:(}id{400: IS NULL)} FROM acc WHERE id = 1 => 1: (FALSE)
SELECT {399:-}(1 / 0) FROM acc WHERE id = 1 => 1: DivideByZero
SELECT id{400:*2} FROM acc WHERE id = 1 => 1: Overflow";

const CONDITIONS: &str = "\
SELECT id FROM acc WHERE TRUE{400: AND TRUE} => 5: (1) (2) (3) (5) (8)
SELECT id FROM acc WHERE FALSE{400: OR TRUE} => 5: (1) (2) (3) (5) (8)
SELECT id FROM acc WHERE id = 1{199: OR id = 5} => 5: (1) (5)
SELECT id FROM acc WHERE id = 1{199: AND id = 1} => 1: (1)
SELECT id FROM acc WHERE {400:(}id = 1{400:)} => 1: (1)
SELECT id FROM acc WHERE {399:NOT }id = 1 => 5: (2) (3) (5) (8)
SELECT id FROM acc WHERE {400:(}id{400: IS NULL)} => 5:
SELECT id FROM acc WHERE TRUE{397: AND TRUE} AND 1 / 0 = 1 => 5: DivideByZero
SELECT id FROM acc WHERE FALSE{397: AND TRUE} AND 1 / 0 = 1 => 5:";

/// A query of 16,384 bytes and 64 items: 7 bytes, 9 items of 21 and 54 of 22, 24 bytes, and blanks.
const LONGEST: &str = "\
SELECT {63:id+0000000000000000#,}id FROM acc WHERE id = 1{14976: } => 1: (2, 3, 4, 5, 6, 7, 8, 9, 10, 11, 12, 13, 14, 15, 16, 17, 18, 19, 20, 21, 22, 23, 24, 25, 26, 27, 28, 29, 30, 31, 32, 33, 34, 35, 36, 37, 38, 39, 40, 41, 42, 43, 44, 45, 46, 47, 48, 49, 50, 51, 52, 53, 54, 55, 56, 57, 58, 59, 60, 61, 62, 63, 64, 1)";

#[test]
fn items_of_400_operators_are_evaluated(rt: HostRuntime) -> Result<(), Fail> {
    play(rt.alloc(), ITEMS)
}

#[test]
fn conditions_of_400_operators_are_tested(rt: HostRuntime) -> Result<(), Fail> {
    play(rt.alloc(), CONDITIONS)
}

#[test]
fn the_longest_query_is_answered(rt: HostRuntime) -> Result<(), Fail> {
    play(rt.alloc(), LONGEST)
}
