//! Expressions of 400 operators and of 400 parentheses in statements that write or lock, and the longest of them.
use exec_kit::play;
use std::test::Fail;

const EXPRESSIONS: &str = "\
INSERT INTO void VALUES (0{400:+1}, {401:-}1) => 0: 1; +3 (400) (400, -1)
INSERT INTO void VALUES ({400:(}7{400:)}, {400:1+(}0{400:)}) => 0: 1; +3 (7) (7, 400)
INSERT INTO void VALUES (1, {399:-}(1 / 0)) => 0: DivideByZero
INSERT INTO cust VALUES ('dan', {400:NOT }TRUE) => 0: 1; +1 ('dan') ('dan', TRUE)
UPDATE acc SET amount = amount{400:+1} WHERE id = 1{199: AND id = 1} => 1: 1; +0 (1) (1, 7, 410)
UPDATE acc SET owner = {400:1+(}owner{400:)}, amount = {400:-}amount WHERE id = 1 => 1: 1; +0 (1) (1, 407, 10)
UPDATE cust SET good = {400:NOT }good WHERE {400:NOT }good => 3: 1; +1 ('ann') ('ann', TRUE)
UPDATE acc SET amount = {399:-}(1 / 0) WHERE id = 1 => 1: DivideByZero
DELETE FROM acc WHERE {400:(}id{400: IS NULL)} => 5: 0;
DELETE FROM acc WHERE {399:NOT }id = 1 => 5: 4; -0 (2) -0 (3) -0 (5) -0 (8)
DELETE FROM acc WHERE TRUE{397: AND TRUE} AND 1 / 0 = 1 => 5: DivideByZero
SELECT {400:1+(}id{400:)} FROM acc WHERE {400:(}id = 1{400:)} FOR UPDATE => 1: (401); 0 (1)
SELECT id FROM acc WHERE FALSE{400: OR TRUE} LIMIT 1 FOR UPDATE => 5: (1); 0 (1) 0 (2) 0 (3) 0 (5) 0 (8)";

/// A statement of 16,384 bytes: 24 bytes, 1,024 rows of 12 bytes and their digits, 1,023 commas and 60 blanks.
const LONGEST: &str = "\
INSERT INTO void VALUES {1023:(#,000000000),}(1024,000000000){60: } => 0: 1024; 1024 rows of 20480 bytes";

#[test]
fn expressions_of_400_operators_are_evaluated(rt: HostRuntime) -> Result<(), Fail> {
    play(rt.alloc(), EXPRESSIONS)
}

#[test]
fn the_longest_statement_is_done(rt: HostRuntime) -> Result<(), Fail> {
    play(rt.alloc(), LONGEST)
}
