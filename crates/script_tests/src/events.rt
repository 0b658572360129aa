//! The lines of events.
use crate::reading::{is_bad, read_lines, script_of};
use crate::seen::{Seen, is_seen};
use geo_script::Form;
use std::alloc::Global;
use std::test::Fail;

// Lines behind a head of four, and the event of the first one.
const PLAYED: [(&[u8], Seen<'static>); 28] = [
    (b"publish 0", ("publish", 0, 0, 0, "")),
    (b"show 0", ("show", 0, 0, 0, "")),
    (b"crash 0", ("crash", 0, 0, 0, "")),
    (b"restart 0", ("restart", 0, 0, 0, "")),
    (b"sql 0.0 x", ("sql", 0, 0, 0, "x")),
    (b"sql 2.63  X \r\n", ("sql", 2, 63, 0, " X ")),
    (b"sql 1.10 \xc3\xa9\n", ("sql", 1, 10, 0, "\u{e9}")),
    (b"outcome 0.0", ("outcome", 0, 0, 0, "")),
    (b"outcome 2.63", ("outcome", 2, 63, 0, "")),
    (b"seal 0\r", ("seal", 0, 0, 0, "")),
    (b"seal 2", ("seal", 2, 0, 0, "")),
    (b"deliver 7", ("deliver", 7, 7, 0, "")),
    (b"deliver 3 3", ("deliver", 3, 3, 0, "")),
    (b"deliver 0 9999", ("deliver", 0, 9_999, 0, "")),
    (
        b"deliver 4294957296 4294967295",
        ("deliver", 4_294_957_296, 4_294_967_295, 0, ""),
    ),
    (
        b"deliver 4294967295",
        ("deliver", 4_294_967_295, 4_294_967_295, 0, ""),
    ),
    (b"fetch 0 2 1", ("fetch", 0, 2, 1, "")),
    (b"fetch 2 1 4294967293", ("fetch", 2, 1, 4_294_967_293, "")),
    (b"work 2 0", ("work", 2, 0, 0, "")),
    (b"work 0 3", ("work", 0, 3, 0, "")),
    (b"publish 2\n# more\n\n", ("publish", 2, 0, 0, "")),
    (b"show 1", ("show", 1, 0, 0, "")),
    (b"show 2", ("show", 2, 0, 0, "")),
    (b"crash 2", ("crash", 2, 0, 0, "")),
    (b"crash 0 sealing kept", ("crash", 0, 0, 0, "sealing kept")),
    (b"crash 1 sealing lost", ("crash", 1, 0, 0, "sealing lost")),
    (b"crash 2\ncrash 2", ("crash", 2, 0, 0, "")),
    (b"restart 2", ("restart", 2, 0, 0, "")),
];

const RUN: [(&[u8], Seen<'static>); 7] = [
    (b"sql 2.63 COMMIT", ("sql", 2, 63, 0, "COMMIT")),
    (b"crash 0 after 1", ("crash", 0, 1, 0, "after")),
    (b"crash 2 after 1000", ("crash", 2, 1_000, 0, "after")),
    (b"crash 2 after 7\r\n\r\n", ("crash", 2, 7, 0, "after")),
    (
        b"crash 0 after 10\ncrash 1 after 10",
        ("crash", 0, 10, 0, "after"),
    ),
    (b"sql 0.0 # x", ("sql", 0, 0, 0, "# x")),
    (b"sql 0.0 \ta\r\r\n", ("sql", 0, 0, 0, "\ta\r")),
];

fn has_event(alloc: Global, form: Form, lines: &[u8], wanted: Seen<'_>) -> bool {
    match script_of(alloc, form, lines) {
        Ok(script) => match script.events.items().first() {
            Some(first) => is_seen(first, 5, wanted),
            None => false,
        },
        Err(_) => false,
    }
}

#[test]
fn events_of_plays_are_read(rt: HostRuntime) -> Result<(), Fail> {
    for (lines, wanted) in PLAYED {
        assert!(rt;
            has_event(rt.alloc(), Form::Play, lines, wanted),
            "{lines:?}"
        );
    }
    Ok(())
}

#[test]
fn events_of_runs_are_read(rt: HostRuntime) -> Result<(), Fail> {
    for (lines, wanted) in RUN {
        assert!(rt;
            has_event(rt.alloc(), Form::Run, lines, wanted),
            "{lines:?}"
        );
    }
    Ok(())
}

const NOT_UTF8: [&[u8]; 6] = [
    b"\xff",
    b"# \xc3\x28",
    b"vacuum \xff",
    b"sql 0.0 'a\xc3",
    b"sql 9.00 'a\xc3",
    b"seal 9 \xc3",
];

const BAD_LINES: [&[u8]; 34] = [
    b"vacuum",
    b"vacuum 0",
    b"begin",
    b"regions 3",
    b"table t (k INT KEY)",
    b"index i on kv (v)",
    b"SEAL 0",
    b" seal 0",
    b"seal",
    b"seal ",
    b"seal 0 ",
    b"seal  0",
    b"seal 9 9",
    b"sql 0.0",
    b"sql 0.0 ",
    b"sql  0.0 x",
    b"outcome 0.0 x",
    b"deliver",
    b"deliver 1 2 3",
    b"deliver 1 ",
    b"deliver 1  2",
    b"fetch 0 1",
    b"fetch 0 1 1 1",
    b"work 0",
    b"work 0 0 0",
    b"publish",
    b"restart 0 1",
    b"crash 0 sealing",
    b"crash 0 sealing maybe",
    b"crash 9 sealing maybe",
    b"crash 0 after 1",
    b"crash 0 sealing kept kept",
    b"crash",
    b"show 0 1",
];

const BAD_NUMBERS: [&[u8]; 42] = [
    b"seal 3",
    b"seal 00",
    b"seal -0",
    b"seal +0",
    b"seal 256",
    b"seal 4294967296",
    b"seal 18446744073709551616",
    b"seal 0\t",
    b"seal \xc3\xa9",
    b"sql 0 x",
    b"sql 0. x",
    b"sql .0 x",
    b"sql 0.0.0 x",
    b"sql 3.0 x",
    b"sql 0.64 x",
    b"sql 0.00 x",
    b"outcome 0.64",
    b"outcome 3.0",
    b"deliver 5 4",
    b"deliver 0 10000",
    b"deliver 4294957295 4294967295",
    b"deliver 4294967296",
    b"deliver 0 4294967296",
    b"deliver 01",
    b"fetch 0 0 1",
    b"fetch 2 2 1",
    b"fetch 0 3 1",
    b"fetch 3 0 1",
    b"fetch 0 1 0",
    b"fetch 0 1 4294967294",
    b"fetch 0 1 4294967295",
    b"fetch 0 1 4294967296",
    b"work 0 4",
    b"work 3 0",
    b"work 0 00",
    b"publish 3",
    b"show 3",
    b"crash 3",
    b"crash 3 sealing kept",
    b"crash 3 sealing lost",
    b"restart 3",
    b"restart x",
];

#[test]
fn lines_of_plays_that_are_bad(rt: HostRuntime) -> Result<(), Fail> {
    let kinds: [(&str, &[&[u8]]); 3] = [
        ("NotUtf8", &NOT_UTF8),
        ("BadLine", &BAD_LINES),
        ("BadNumber", &BAD_NUMBERS),
    ];
    for (kind, rows) in kinds {
        for line in rows {
            let found = read_lines(rt.alloc(), Form::Play, line);
            assert!(rt; is_bad(rt.alloc(), found, 5, kind)?, "{line:?}");
        }
    }
    Ok(())
}

// Lines of runs, the number of the first bad one, and what is wrong with it.
const BAD_RUNS: [(&[u8], u32, &str); 23] = [
    (b"vacuum\nsql 0.0 \xff", 5, "BadLine"),
    (b"sql 0.0 x\nsql 3.0 x\nvacuum\nsql 0.0 x", 6, "BadNumber"),
    (b"seal 0", 5, "BadLine"),
    (b"outcome 0.0", 5, "BadLine"),
    (b"deliver 0", 5, "BadLine"),
    (b"fetch 0 1 1", 5, "BadLine"),
    (b"work 0 0", 5, "BadLine"),
    (b"publish 0", 5, "BadLine"),
    (b"show 0", 5, "BadLine"),
    (b"restart 0", 5, "BadLine"),
    (b"crash 0", 5, "BadLine"),
    (b"crash 0 sealing kept", 5, "BadLine"),
    (b"crash 0 after", 5, "BadLine"),
    (b"crash 0 after 0", 5, "BadNumber"),
    (b"crash 0 after 1001", 5, "BadNumber"),
    (b"crash 3 after 1", 5, "BadNumber"),
    (
        b"crash 0 after 1\n\ncrash 1 after 1\ncrash 0 after 2",
        8,
        "BadLine",
    ),
    (b"crash 0 after 1\ncrash 0 after 2000", 6, "BadLine"),
    (b"crash 0 after 1\ncrash 00 after 2", 6, "BadNumber"),
    (b"crash 0 after 1\ncrash 3 after 2000", 6, "BadNumber"),
    (b"sql 0.0", 5, "BadLine"),
    (b"sql 0.64 x", 5, "BadNumber"),
    (b"sql 3.0 x", 5, "BadNumber"),
];

#[test]
fn lines_of_runs_that_are_bad(rt: HostRuntime) -> Result<(), Fail> {
    for (lines, line, kind) in BAD_RUNS {
        let found = read_lines(rt.alloc(), Form::Run, lines);
        assert!(rt; is_bad(rt.alloc(), found, line, kind)?, "{lines:?}");
    }
    Ok(())
}
