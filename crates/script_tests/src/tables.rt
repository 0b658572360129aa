//! Lines that declare tables and indexes.
use crate::reading::{Refusal, is_bad, is_told, joined, read};
use geo_script::Form;
use std::alloc::{AllocError, Global};
use std::test::Fail;

const HEAD: &[u8] =
    b"geogauss run 1\nregions 1\ntable a (k INT KEY, v TEXT)\ntable b (k INT KEY)\n";

// Whether the lines, of which the first is line 5 behind two tables, are those of a head.
fn declare(alloc: Global, lines: &[u8]) -> Result<(), Refusal> {
    let text = joined(alloc, HEAD, lines)?;
    let text = joined(alloc, &text, b"\nbegin\n")?;
    read(alloc, Form::Run, &text)
}

const GOOD: [&[u8]; 14] = [
    b"table  c(k INT KEY)",
    b"table c (k int not null key,t text( 007 ) ,u Text,w BOOL KEY)",
    b"table c (k TEXT(1024) NOT NULL KEY)",
    b"table c (k TEXT(0) KEY, x INT, y INT, z INT)",
    b"table c (a INT KEY, b INT KEY, c INT KEY, d INT KEY)",
    b"index i on a (v)",
    b"index a on  a(v,k)",
    b"index i on a (k, v)\nindex j on a (k)\nindex i on b (k)",
    b"table abcdefghijabcdefghijabcdefghijab (abcdefghijabcdefghijabcdefghijab INT KEY)",
    b"table c (a INT KEY,b INT,c INT,d INT,e INT,f INT,g INT,h INT,i INT,j INT,k INT,l INT,m INT,n INT,o INT,p INT,q INT,r INT,s INT,t INT,u INT,v INT,w INT,x INT,y INT,z INT,a1 INT,b1 INT,c1 INT,d1 INT,e1 INT,f1 INT)",
    b"table c (k TEXT(1) KEY, t TEXT(1024))",
    b"index abcdefghijabcdefghijabcdefghijab on a (v)",
    b"table c (k INT KEY, l INT, m INT, n INT, o INT)\nindex i on c (k, l, m, n)",
    b"index f on a (k)\nindex g on a (k)\nindex h on a (k)\nindex i on a (k)\nindex i on b (k)",
];

#[test]
fn tables_and_indexes_are_read(rt: HostRuntime) -> Result<(), Fail> {
    for lines in GOOD {
        assert!(rt; declare(rt.alloc(), lines) == Ok(()), "{lines:?}");
    }
    Ok(())
}

const BAD_TABLES: [&[u8]; 27] = [
    b"table",
    b"table ",
    b"table c",
    b"table c ()",
    b"table c (k INT KEY",
    b"table c (k INT KEY,)",
    b"table c (k INT KEY))",
    b"table c (k INT KEY) x",
    b"table c (k INT KEY;)",
    b"table (k INT KEY)",
    b"table int (k INT KEY)",
    b"table c (k INT)",
    b"table c (k INT KEY NOT NULL)",
    b"table c (k INT NULL KEY)",
    b"table c (k TEXT(1025) KEY)",
    b"table c (k TEXT(65537) KEY)",
    b"table c (k TEXT() KEY)",
    b"table c (k TEXT(-1) KEY)",
    b"table c (k INT(4) KEY)",
    b"table c (k REAL KEY)",
    b"table c (k INT KEY, k INT)",
    b"table c (a INT KEY, b INT KEY, c INT KEY, d INT KEY, e INT KEY)",
    b"table a (k INT KEY)",
    b"table b (k INT KEY)",
    b"table abcdefghijabcdefghijabcdefghijabc (k INT KEY)",
    b"table c (a INT KEY,b INT,c INT,d INT,e INT,f INT,g INT,h INT,i INT,j INT,k INT,l INT,m INT,n INT,o INT,p INT,q INT,r INT,s INT,t INT,u INT,v INT,w INT,x INT,y INT,z INT,a1 INT,b1 INT,c1 INT,d1 INT,e1 INT,f1 INT,g1 INT)",
    b"table c (k INT KEY, abcdefghijabcdefghijabcdefghijabc INT)",
];

const BAD_INDEXES: [&[u8]; 18] = [
    b"index",
    b"index i",
    b"index i on",
    b"index i on ",
    b"index i on a",
    b"index i ON a (v)",
    b"index i at a (v)",
    b"index i on c (v)",
    b"index i on A (v)",
    b"index i on a ()",
    b"index i on a (w)",
    b"index i on a (v, v)",
    b"index i on a (v) x",
    b"index i on a (v INT)",
    b"index key on a (v)",
    b"index 1i on a (v)",
    b"index i\t on a (v)",
    b"index abcdefghijabcdefghijabcdefghijabc on a (v)",
];

const BAD_LINES: [&[u8]; 8] = [
    b"table\tc (k INT KEY)",
    b"Table c (k INT KEY)",
    b" table c (k INT KEY)",
    b"index ",
    b"index i ",
    b"index  i on a (v)",
    b"index i  on a (v)",
    b"unique i on a (v)",
];

const NOT_UTF8: [&[u8]; 3] = [b"table c (\xc3 INT KEY)", b"table \xff", b"index  \xff"];

#[test]
fn tables_and_indexes_that_are_bad(rt: HostRuntime) -> Result<(), Fail> {
    let kinds: [(&str, &[&[u8]]); 4] = [
        ("BadTable", &BAD_TABLES),
        ("BadIndex", &BAD_INDEXES),
        ("BadLine", &BAD_LINES),
        ("NotUtf8", &NOT_UTF8),
    ];
    for (kind, rows) in kinds {
        for line in rows {
            let found = declare(rt.alloc(), line);
            assert!(rt; is_bad(rt.alloc(), found, 5, kind)?, "{line:?}");
        }
    }
    Ok(())
}

// Lines of which a later one is bad: one column of an index and one index too many, and an index and a table that
// are declared twice.
const LATER: [(&[u8], u32, &str); 4] = [
    (
        b"table c (k INT KEY, l INT, m INT, n INT, o INT)\nindex i on c (k, l, m, n, o)",
        6,
        "BadIndex",
    ),
    (
        b"index f on a (k)\nindex g on a (k)\nindex h on a (k)\nindex i on a (k)\nindex j on a (k)",
        9,
        "BadIndex",
    ),
    (b"index i on a (k)\nindex i on a (v)", 6, "BadIndex"),
    (
        b"table c (k INT KEY)\n\n# c\ntable c (k INT KEY)",
        8,
        "BadTable",
    ),
];

#[test]
fn later_lines_that_are_bad(rt: HostRuntime) -> Result<(), Fail> {
    for (lines, line, kind) in LATER {
        let found = declare(rt.alloc(), lines);
        assert!(rt; is_bad(rt.alloc(), found, line, kind)?, "{lines:?}");
    }
    Ok(())
}

// So many lines of a table each.
fn tables(alloc: Global, count: u8) -> Result<Vec<u8>, AllocError> {
    let mut lines = Vec::new(alloc);
    for number in 0..count {
        let line = format!(in alloc; "table t{number} (k INT KEY)\n")?;
        lines.extend_from_slice(line.as_bytes())?;
    }
    Ok(lines)
}

fn declare_tables(alloc: Global, count: u8) -> Result<(), Refusal> {
    let lines = tables(alloc, count)?;
    declare(alloc, &lines)
}

#[test]
fn tables_are_64_at_most(rt: HostRuntime) -> Result<(), Fail> {
    for (count, wanted) in [(62, "fits"), (63, "BadTable")] {
        let found = declare_tables(rt.alloc(), count);
        assert!(rt; is_told(rt.alloc(), found, 67, wanted)?, "{count}");
    }
    Ok(())
}
