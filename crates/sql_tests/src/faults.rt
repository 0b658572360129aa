//! Texts that are no statements, with their faults and the places of these.
use crate::parsed::has_fault;
use std::test::Fail;

const FAULTS: [(&str, &str); 62] = [
    ("1a SELECT", "BadText(0)"),
    ("SELECT 9223372036854775808 FROM acc", "BadText(7)"),
    ("SELECT a FROM 'x", "BadText(14)"),
    ("FROM é", "BadText(5)"),
    ("", "BadSyntax(0)"),
    ("FROM t", "BadSyntax(0)"),
    ("SELECT a b FROM t", "BadSyntax(9)"),
    ("SELECT a FROM 1", "BadSyntax(14)"),
    ("SELECT * FROM", "BadSyntax(13)"),
    ("SELECT a FROM t LIMIT -1", "BadSyntax(22)"),
    ("SELECT a FROM t WHERE a = b = c", "BadSyntax(28)"),
    ("SELECT a FROM t WHERE a = b IS NULL", "BadSyntax(28)"),
    ("SELECT 1 + NOT a FROM t", "BadSyntax(11)"),
    ("SELECT (a FROM t", "BadSyntax(10)"),
    ("SELECT a) FROM t", "BadSyntax(8)"),
    ("SELECT COUNT(*) + 1 FROM t", "BadSyntax(16)"),
    ("INSERT INTO t () VALUES (1)", "BadSyntax(15)"),
    ("COMMIT COMMIT", "BadSyntax(7)"),
    // what stands behind a test, or before the operand of one
    ("SELECT a IS NULL IS NULL FROM t", "BadSyntax(17)"),
    ("DELETE FROM t WHERE a IS NOT NULL IS NULL", "BadSyntax(34)"),
    ("SELECT a = NOT b FROM t", "BadSyntax(11)"),
    // the star and the empty parentheses of aggregates
    ("SELECT SUM(*) FROM t", "BadSyntax(11)"),
    ("SELECT MAX(*) FROM t", "BadSyntax(11)"),
    ("SELECT COUNT() FROM t", "BadSyntax(13)"),
    ("SELECT COUNT(a, b) FROM t", "BadSyntax(14)"),
    // names of columns with a star and with two dots
    ("SELECT t.* FROM t", "BadSyntax(9)"),
    ("SELECT a.b.c FROM t", "BadSyntax(10)"),
    // statements that aren't explained
    ("EXPLAIN UPDATE t SET a = 1", "BadSyntax(8)"),
    ("EXPLAIN EXPLAIN SELECT a FROM t", "BadSyntax(8)"),
    // FOR UPDATE cut short, the wrong way round, twice, before the end of a query and behind other statements
    ("SELECT a FROM t FOR", "BadSyntax(19)"),
    ("SELECT a FROM t FOR FOR UPDATE", "BadSyntax(20)"),
    ("SELECT a FROM t FOR UPDAT", "BadSyntax(20)"),
    ("SELECT a FROM t FOR a", "BadSyntax(20)"),
    ("SELECT a FROM t FORUPDATE", "BadSyntax(16)"),
    ("SELECT a FROM t UPDATE", "BadSyntax(16)"),
    ("SELECT a FROM t UPDATE FOR", "BadSyntax(16)"),
    ("SELECT a FROM t FOR UPDATE FOR UPDATE", "BadSyntax(27)"),
    ("SELECT a FROM t FOR UPDATE LIMIT 1", "BadSyntax(27)"),
    ("SELECT a FROM t FOR UPDATE t", "BadSyntax(27)"),
    ("SELECT a FROM t AS FOR UPDATE", "BadSyntax(19)"),
    ("SELECT a FROM t JOIN u FOR UPDATE", "BadSyntax(23)"),
    ("SELECT a FROM t WHERE FOR UPDATE", "BadSyntax(22)"),
    ("SELECT * FROM t LIMIT FOR UPDATE", "BadSyntax(22)"),
    ("SELECT FOR UPDATE FROM t", "BadSyntax(7)"),
    ("FOR UPDATE", "BadSyntax(0)"),
    ("FOR UPDATE SELECT a FROM t", "BadSyntax(0)"),
    ("EXPLAIN SELECT a FROM t FOR", "BadSyntax(24)"),
    ("EXPLAIN SELECT a FROM t FOR UPDATE", "BadSyntax(24)"),
    ("INSERT INTO t VALUES (1) FOR UPDATE", "BadSyntax(25)"),
    ("UPDATE t SET a = 1 FOR UPDATE", "BadSyntax(19)"),
    ("DELETE FROM t FOR UPDATE", "BadSyntax(14)"),
    ("BEGIN FOR UPDATE", "BadSyntax(6)"),
    ("BEGIN AS OF EPOCH 1 FOR UPDATE", "BadSyntax(20)"),
    ("COMMIT FOR UPDATE", "BadSyntax(7)"),
    ("ROLLBACK FOR UPDATE", "BadSyntax(9)"),
    ("SELECT a FROM t FOR 'x", "BadText(20)"),
    // cut inside a token
    ("SELEC", "BadSyntax(0)"),
    ("SELECT a FRO", "BadSyntax(9)"),
    ("SELECT a <", "BadSyntax(10)"),
    ("INSERT INT", "BadSyntax(7)"),
    ("DELETE FROM t WHERE a AN", "BadSyntax(22)"),
    ("UPDATE t SET a = 'x", "BadText(17)"),
];

#[test]
fn faults_have_their_places(rt: HostRuntime) -> Result<(), Fail> {
    for (text, wanted) in FAULTS {
        assert!(rt; has_fault(rt.alloc(), text, wanted), "{text}");
    }
    Ok(())
}
