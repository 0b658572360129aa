//! Texts that are statements, with the canonical texts of what they say.
use crate::parsed::has_canonical_text;
use std::test::Fail;

const STATEMENTS: [(&str, &str); 16] = [
    (
        "select a+1*2 from t where not a is null",
        "SELECT (a + (1 * 2)) FROM t WHERE (NOT (a IS NULL))",
    ),
    ("SELECT -a FROM t", "SELECT -(a) FROM t"),
    ("select*from t for update", "SELECT * FROM t FOR UPDATE"),
    (
        "SELECT a FROM t WHERE(a)For\tUpdate",
        "SELECT a FROM t WHERE a FOR UPDATE",
    ),
    (
        "SELECT a FROM t ORDER BY a ASC FOR UPDATE",
        "SELECT a FROM t ORDER BY a FOR UPDATE",
    ),
    (
        "SELECT a-b-c, a/b*c, -1-2, - 007, -(1), -0, -a.b FROM t AS x",
        "SELECT ((a - b) - c), ((a / b) * c), (-1 - 2), -7, -(1), 0, -(a.b) FROM t AS x",
    ),
    (
        "SELECT a OR b AND NOT c = d + e * - f OR g FROM t",
        "SELECT ((a OR (b AND (NOT (c = (d + (e * -(f))))))) OR g) FROM t",
    ),
    (
        "SELECT a AND b AND c, (a AND (b AND c)), a OR b OR c, a + b - c + d, a * b / c FROM t",
        "SELECT ((a AND b) AND c), (a AND (b AND c)), ((a OR b) OR c), (((a + b) - c) + d), ((a * b) / c) FROM t",
    ),
    (
        "select count(*), count(a) as n, sum(a<b), min('x''y'), max(((null))) from t join u as y on t.a<>y.b",
        "SELECT COUNT(*), COUNT(a) AS n, SUM((a < b)), MIN('x''y'), MAX(NULL) FROM t JOIN u AS y ON (t.a <> y.b)",
    ),
    (
        "SELECT * FROM t WHERE (a = b) = c GROUP BY a, t.b ORDER BY a ASC, t.b DESC LIMIT 9223372036854775807",
        "SELECT * FROM t WHERE ((a = b) = c) GROUP BY a, t.b ORDER BY a, t.b DESC LIMIT 9223372036854775807",
    ),
    (
        "insert into t(a,b) values(1,-9223372036854775807),(true,false)",
        "INSERT INTO t(a, b) VALUES (1, -9223372036854775807), (TRUE, FALSE)",
    ),
    (
        "INSERT INTO t VALUES (a IS NOT NULL)",
        "INSERT INTO t VALUES ((a IS NOT NULL))",
    ),
    (
        "UPDATE t SET a = b = c, d = 1 WHERE a >= 1",
        "UPDATE t SET a = (b = c), d = 1 WHERE (a >= 1)",
    ),
    ("DELETE FROM t", "DELETE FROM t"),
    ("begin as of epoch 3", "BEGIN AS OF EPOCH 3"),
    ("explain select a from t", "EXPLAIN SELECT a FROM t"),
];

// Texts that are canonical.
const CANONICAL: [&str; 21] = [
    "SELECT * FROM t",
    "SELECT -(a), -((a + 1)), (-(-2) * a), (a IS NULL), (a IS NOT NULL) FROM t",
    "EXPLAIN SELECT x.k, COUNT(*), COUNT(a), SUM((a - -5)), MIN(a), MAX(a) AS most FROM t AS x JOIN u ON (x.k = u.k) WHERE (a IS NOT NULL) GROUP BY x.k, a ORDER BY most DESC, x.k LIMIT 10",
    "INSERT INTO t(k, v) VALUES (-9223372036854775807, '''o''''é'), (NULL, TRUE, FALSE)",
    "INSERT INTO t VALUES (-9223372036854775807, '''o''''é'), (NULL, TRUE, FALSE)",
    "UPDATE t SET b = (a + 1), b = (a - 1), b = (a * 1), b = (a / 1), b = (a = 1), b = (a <> 1), b = (a < 1), b = (a <= 1), b = (a > 1), b = (a >= 1), b = (a AND 1), b = (a OR 1)",
    "DELETE FROM t",
    "DELETE FROM t WHERE (NOT a)",
    "SELECT * FROM t FOR UPDATE",
    "SELECT a FROM t AS x FOR UPDATE",
    "SELECT COUNT(*) FROM t FOR UPDATE",
    "SELECT * FROM t JOIN u ON (t.a = u.a) FOR UPDATE",
    "SELECT a FROM t WHERE (a = 1) FOR UPDATE",
    "SELECT a FROM t GROUP BY t.a FOR UPDATE",
    "SELECT a FROM t ORDER BY a, t.b DESC FOR UPDATE",
    "SELECT a FROM t LIMIT 0 FOR UPDATE",
    "SELECT x.k, COUNT(*) AS n FROM t AS x JOIN u AS y ON (x.k = y.k) WHERE (a IS NOT NULL) GROUP BY x.k, a ORDER BY n DESC, x.k LIMIT 10 FOR UPDATE",
    "BEGIN",
    "BEGIN AS OF EPOCH 12",
    "COMMIT",
    "ROLLBACK",
];

#[test]
fn statements_are_read_and_printed(rt: HostRuntime) -> Result<(), Fail> {
    for (text, wanted) in STATEMENTS {
        assert!(rt; has_canonical_text(rt.alloc(), text, wanted), "{text}");
    }
    Ok(())
}

#[test]
fn canonical_texts_print_as_themselves(rt: HostRuntime) -> Result<(), Fail> {
    for text in CANONICAL {
        assert!(rt; has_canonical_text(rt.alloc(), text, text), "{text}");
    }
    Ok(())
}
