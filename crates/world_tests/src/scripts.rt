//! Lines of each form and lines that are none, and where a text that is no script is refused.
use geo_base::limits::SCRIPT_BYTES;
use std::alloc::Global;
use std::test::Fail;
use world_script::{Event, ReadFault, Script, ScriptFault, ScriptKind, Statement, read_script};

const HEADER: &[u8] = b"geogauss play 1\nregions 3\ntable kv (k INT KEY, v INT)\nbegin\n";

/// The script of a text, or the number of its first bad line.
fn read(alloc: Global, text: &[u8]) -> Result<Result<Script, u32>, Fail> {
    match read_script(alloc, text) {
        Ok(script) => Ok(Ok(script)),
        Err(
            ReadFault::Script(
                ScriptFault {
                    line,
                    kind: ScriptKind::NotBuilt,
                },
            ),
        ) => Ok(Err(line)),
        Err(fault) => Err(Fail::from(fault)),
    }
}

fn insert(region: u8, session: u8, key: i64, value: i64) -> Option<Event> {
    let statement = Statement::Insert { key, value };
    Some(Event::Sql {
        region,
        session,
        statement,
    })
}

fn deliver(first: u32, last: u32) -> Option<Event> {
    Some(Event::Deliver { first, last })
}

#[test]
fn event_lines(rt: HostRuntime) -> Result<(), Fail> {
    let select = Statement::Select;
    let rows: [(&[u8], Option<Event>); 71] = [
        (b"sql 0.0 INSERT INTO kv VALUES (0, 0)", insert(0, 0, 0, 0)),
        (
            b"sql 2.63 INSERT INTO kv VALUES (7, -1)",
            insert(2, 63, 7, -1),
        ),
        (
            b"sql 1.9 INSERT INTO kv VALUES (-9223372036854775807, 9223372036854775807)",
            insert(1, 9, -9223372036854775807, 9223372036854775807),
        ),
        (
            b"sql 1.10 SELECT * FROM kv",
            Some(Event::Sql {
                region: 1,
                session: 10,
                statement: select,
            }),
        ),
        (b"seal 0", Some(Event::Seal { region: 0 })),
        (b"seal 2", Some(Event::Seal { region: 2 })),
        (b"publish 2", Some(Event::Publish { region: 2 })),
        (b"show 1", Some(Event::Show { region: 1 })),
        (b"deliver 7", deliver(7, 7)),
        (b"deliver 3 3", deliver(3, 3)),
        (b"deliver 0 9999", deliver(0, 9999)),
        (
            b"deliver 4294957296 4294967295",
            deliver(4294957296, 4294967295),
        ),
        (b"deliver 4294967295", deliver(4294967295, 4294967295)),
        (b"", None),
        (b"# seal 0", None),
        (b"vacuum 0", None),
        (b"begin", None),
        (b"regions 3", None),
        (b"SEAL 0", None),
        (b"Seal 0", None),
        (b" seal 0", None),
        (b"seal", None),
        (b"seal ", None),
        (b"seal 3", None),
        (b"seal 0 ", None),
        (b"seal  0", None),
        (b"seal 00", None),
        (b"seal -0", None),
        (b"seal +0", None),
        (b"seal 0x0", None),
        (b"seal 256", None),
        (b"seal 18446744073709551616", None),
        (b"seal 0\r", None),
        (b"seal 0\t", None),
        (b"seal \xff", None),
        (b"\xc3\x28", None),
        (b"publish 3", None),
        (b"publish 0 1", None),
        (b"show 3", None),
        (b"show a", None),
        (b"deliver", None),
        (b"deliver ", None),
        (b"deliver 5 4", None),
        (b"deliver 0 10000", None),
        (b"deliver 4294967296", None),
        (b"deliver 4294967295 4294967296", None),
        (b"deliver 1 2 3", None),
        (b"deliver 1 ", None),
        (b"deliver 1  2", None),
        (b"deliver 01", None),
        (b"deliver 1 02", None),
        (b"deliver -1", None),
        (b"sql 0.64 SELECT * FROM kv", None),
        (b"sql 3.0 SELECT * FROM kv", None),
        (b"sql 0 SELECT * FROM kv", None),
        (b"sql 00.0 SELECT * FROM kv", None),
        (b"sql 0.00 SELECT * FROM kv", None),
        (b"sql 0.0", None),
        (b"sql 0.0 ", None),
        (b"sql 0.0  SELECT * FROM kv", None),
        (b"sql 0.0 SELECT * FROM kv ", None),
        (b"sql 0.0 select * from kv", None),
        (b"sql 0.0 INSERT INTO kv VALUES (-0, 1)", None),
        (b"sql 0.0 INSERT INTO kv VALUES (1, -0)", None),
        (b"sql 0.0 INSERT INTO kv VALUES (01, 1)", None),
        (b"sql 0.0 INSERT INTO kv VALUES (1, +1)", None),
        (
            b"sql 0.0 INSERT INTO kv VALUES (9223372036854775808, 1)",
            None,
        ),
        (
            b"sql 0.0 INSERT INTO kv VALUES (1, -9223372036854775808)",
            None,
        ),
        (b"sql 0.0 INSERT INTO kv VALUES (1,1)", None),
        (b"sql 0.0 INSERT INTO kv VALUES (1, 1", None),
        (b"sql 0.0 INSERT INTO kv VALUES (1, 1) ", None),
    ];
    for (line, event) in rows {
        let mut text = HEADER.to_vec(rt.alloc())?;
        text.extend_from_slice(line)?;
        text.push(b'\n')?;
        match read(rt.alloc(), &text)? {
            Ok(script) => {
                assert_eq!(rt; script.regions, 3);
                assert_eq!(rt; script.events.items().len(), 1);
                assert_eq!(rt;
                    script.events.items().first().copied(),
                    event,
                    "at {line:?}"
                );
            }
            Err(bad) => {
                assert_eq!(rt; (bad, event), (5, None), "at {line:?}");
            }
        }
    }
    Ok(())
}

#[test]
fn whole_texts(rt: HostRuntime) -> Result<(), Fail> {
    let rows: [(&[u8], Result<(u8, usize), u32>); 31] = [
        (
            b"geogauss play 1\nregions 1\ntable kv (k INT KEY, v INT)\nbegin\n",
            Ok((1, 0)),
        ),
        (
            b"geogauss play 1\nregions 8\ntable kv (k INT KEY, v INT)\nbegin\nseal 7\nseal 0\n",
            Ok((8, 2)),
        ),
        (b"", Err(1)),
        (b"\n", Err(1)),
        (b"geogauss play 1", Err(1)),
        (b"geogauss run 1\n", Err(1)),
        (b"geogauss play 2\n", Err(1)),
        (b"geogauss play 1 \n", Err(1)),
        (b"geogauss play 1\r\nregions 1\n", Err(1)),
        (b"geogauss play 1\n", Err(2)),
        (b"geogauss play 1\n\nregions 1\n", Err(2)),
        (b"geogauss play 1\nregions 1", Err(2)),
        (b"geogauss play 1\nregions 0\n", Err(2)),
        (b"geogauss play 1\nregions 9\n", Err(2)),
        (b"geogauss play 1\nregions 01\n", Err(2)),
        (b"geogauss play 1\nregions 10\n", Err(2)),
        (b"geogauss play 1\nregions  1\n", Err(2)),
        (b"geogauss play 1\nregions 1 \n", Err(2)),
        (b"geogauss play 1\nregions\n", Err(2)),
        (b"geogauss play 1\nregions 1\n", Err(3)),
        (b"geogauss play 1\nregions 1\nbegin\n", Err(3)),
        (
            b"geogauss play 1\nregions 1\ntable kv (k INT KEY, v TEXT)\nbegin\n",
            Err(3),
        ),
        (
            b"geogauss play 1\nregions 1\ntable kv (k INT KEY, v INT)",
            Err(3),
        ),
        (
            b"geogauss play 1\nregions 1\ntable kv (k INT KEY, v INT)\n",
            Err(4),
        ),
        (
            b"geogauss play 1\nregions 1\ntable kv (k INT KEY, v INT)\nseal 0\n",
            Err(4),
        ),
        (
            b"geogauss play 1\nregions 1\ntable kv (k INT KEY, v INT)\nbegin",
            Err(4),
        ),
        (
            b"geogauss play 1\nregions 1\ntable kv (k INT KEY, v INT)\nbegin\nseal 0",
            Err(5),
        ),
        (
            b"geogauss play 1\nregions 1\ntable kv (k INT KEY, v INT)\nbegin\n\n",
            Err(5),
        ),
        (
            b"geogauss play 1\nregions 1\ntable kv (k INT KEY, v INT)\nbegin\nseal 0\nseal 1\n",
            Err(6),
        ),
        (
            b"geogauss play 1\nregions 1\ntable kv (k INT KEY, v INT)\nbegin\nseal 0\n\nseal 1\n",
            Err(6),
        ),
        (
            b"geogauss play 1\nregions 1\ntable kv (k INT KEY, v INT)\nbegin\nseal 0\nshow 0\nshow 0",
            Err(7),
        ),
    ];
    for (text, want) in rows {
        let found = match read(rt.alloc(), text)? {
            Ok(script) => Ok((script.regions, script.events.items().len())),
            Err(line) => Err(line),
        };
        assert_eq!(rt; found, want, "at {text:?}");
    }
    Ok(())
}

#[test]
fn a_long_text(rt: HostRuntime) -> Result<(), Fail> {
    let text = vec![in rt.alloc(); b'\n'; SCRIPT_BYTES + 1]?;
    let fault = read_script(rt.alloc(), &text).err();
    let long = ScriptFault {
        line: 0,
        kind: ScriptKind::TooLong,
    };
    assert_eq!(rt; fault, Some(ReadFault::Script(long)));
    Ok(())
}
