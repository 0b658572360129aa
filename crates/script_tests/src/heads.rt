//! The lines before those of events, and texts that are too long.
use crate::reading::{Refusal, is_bad, read};
use geo_script::{Form, read_script};
use std::alloc::Global;
use std::test::Fail;

// Texts, the number of the first bad line, and what is wrong with it.
const BAD: [(&[u8], u32, &str); 30] = [
    (b"geogauss play 1\nregions 1\nseal 0\n", 3, "BadLine"),
    (b"", 1, "BadHeader"),
    (b"\r", 1, "BadHeader"),
    (b"\n", 1, "BadHeader"),
    (b"geogauss run 1\nregions 1\nbegin", 1, "BadHeader"),
    (b"geogauss play 2\n", 1, "BadHeader"),
    (b"geogauss play 1 \n", 1, "BadHeader"),
    (b"geogauss play \xff\n", 1, "NotUtf8"),
    (b"geogauss play 1", 2, "BadHeader"),
    (b"geogauss play 1\n", 2, "BadHeader"),
    (b"geogauss play 1\n\nregions 1\nbegin", 2, "BadHeader"),
    (b"geogauss play 1\nregions", 2, "BadHeader"),
    (b"geogauss play 1\nregions ", 2, "BadHeader"),
    (b"geogauss play 1\nregions 1 1", 2, "BadHeader"),
    (b"geogauss play 1\nregions  1", 2, "BadHeader"),
    (b"geogauss play 1\nregions 1 ", 2, "BadHeader"),
    (b"geogauss play 1\nRegions 1", 2, "BadHeader"),
    (b"geogauss play 1\nregions \xff", 2, "NotUtf8"),
    (b"geogauss play 1\nregions 0", 2, "BadNumber"),
    (b"geogauss play 1\nregions 9", 2, "BadNumber"),
    (b"geogauss play 1\nregions 01", 2, "BadNumber"),
    (b"geogauss play 1\nregions x", 2, "BadNumber"),
    (b"geogauss play 1\nregions 1", 3, "MissingBegin"),
    (
        b"geogauss play 1\nregions 1\n# begin\n\n",
        5,
        "MissingBegin",
    ),
    (b"geogauss play 1\nregions 1\n# \xff\nbegin", 3, "NotUtf8"),
    (b"geogauss play 1\nregions 1\nseal 0\nbegin", 3, "BadLine"),
    (b"geogauss play 1\nregions 1\nbegin ", 3, "BadLine"),
    (
        b"geogauss play 1\nregions 1\n#\xc3\xa9\n\n \nbegin",
        5,
        "BadLine",
    ),
    (b"geogauss play 1\nregions 8\nbegin\nseal 8", 4, "BadNumber"),
    (b"geogauss play 1\nregions 1\nbegin\nseal 1", 4, "BadNumber"),
];

#[test]
fn heads_that_are_bad(rt: HostRuntime) -> Result<(), Fail> {
    for (text, line, kind) in BAD {
        let found = read(rt.alloc(), Form::Play, text);
        assert!(rt; is_bad(rt.alloc(), found, line, kind)?, "{text:?}");
    }
    Ok(())
}

// How many regions and tables there are.
fn counts(alloc: Global, text: &[u8]) -> Result<(u8, u8), Refusal> {
    let script = read_script(alloc, text, Form::Play)?;
    Ok((script.regions, script.schema.count()))
}

const GOOD: [(&[u8], (u8, u8)); 4] = [
    (b"geogauss play 1\nregions 1\nbegin", (1, 0)),
    (b"geogauss play 1\nregions 1\nbegin\nseal 0", (1, 0)),
    (b"geogauss play 1\r\nregions 8\r\nbegin\r", (8, 0)),
    (
        b"geogauss play 1\nregions 8\ntable t (a INT KEY)\n\ntable u (a INT KEY)\nbegin\nseal 7\n",
        (8, 2),
    ),
];

#[test]
fn heads_are_read(rt: HostRuntime) -> Result<(), Fail> {
    for (text, wanted) in GOOD {
        assert!(rt; counts(rt.alloc(), text) == Ok(wanted), "{text:?}");
    }
    Ok(())
}

#[test]
fn long_texts(rt: HostRuntime) -> Result<(), Fail> {
    for (bytes, line, kind) in [(16_777_216, 1, "BadHeader"), (16_777_217, 0, "TooLong")] {
        let text = vec![in rt.alloc(); b'\n'; bytes]?;
        let found = read(rt.alloc(), Form::Play, &text);
        assert!(rt; is_bad(rt.alloc(), found, line, kind)?, "{bytes}");
    }
    Ok(())
}
