//! What no clause says: that plays come to their end, the printed text of whole runs, and what is printed
//! where the source or the sink fails.
mod examples;

use crate::command::{PlayOpts, WordFault, Words};
use crate::edge::carry_out;
use crate::playing::play_call;
use crate::status::Status;
use crate::top::top;
use geo_base::limits::LAST_EPOCH;
use geo_io::{CleanKeepers, CleanSink, CleanSource, MemSink, MemSource};
use std::alloc::{AllocError, Global};
use std::test::Fail;
use world_script::ScriptKind;

const HEADER: &str = "geogauss play 1\nregions 2\ntable kv (k INT KEY, v INT)\nbegin\n";

/// An insert in one region, seen in both.
const INSERT: (&str, &str) = (
    "sql 0.0 INSERT INTO kv VALUES (1, 10)\nseal 0\nseal 1\ndeliver 0 1\npublish 0\npublish 1\n\
     sql 1.0 SELECT * FROM kv\nshow 0\nshow 1\n",
    "0.0 changed 1 ticket 1.0.0\nregion 0 sealed 1 with 1\npacket 0 to 1\nregion 1 sealed 1 with 0\npacket 1 to 0\n\
     packet 0 new\npacket 1 new\nregion 0 published 1 commits 1 aborts 0\nregion 1 published 1 commits 1 aborts 0\n\
     1.0 rows 1\n(1, 10)\nregion 0 at 1\ntable kv 1 rows\n(1, 10)\nregion 1 at 1\ntable kv 1 rows\n(1, 10)\n",
);

/// Packets that come in another order than they were sent, and again.
const REPEAT: (&str, &str) = (
    "seal 0\nseal 0\nseal 1\nseal 1\ndeliver 1\ndeliver 0\ndeliver 0 1\npublish 1\npublish 1\ndeliver 0\ndeliver 9\n",
    "region 0 sealed 1 with 0\npacket 0 to 1\nregion 0 sealed 2 with 0\npacket 1 to 1\n\
     region 1 sealed 1 with 0\npacket 2 to 0\nregion 1 sealed 2 with 0\npacket 3 to 0\n\
     packet 1 new\npacket 0 new\npacket 0 known\npacket 1 known\n\
     region 1 published 1 commits 0 aborts 0\nregion 1 published 2 commits 0 aborts 0\npacket 0 known\npacket 9 absent\n",
);

/// A region that seals far ahead of what it has published.
const AHEAD: (&str, &str) = (
    "seal 0\nseal 0\nseal 0\nseal 0\nseal 0\nseal 0\nseal 0\nseal 0\nseal 0\nseal 1\ndeliver 8\npublish 0\nseal 0\n",
    "region 0 sealed 1 with 0\npacket 0 to 1\nregion 0 sealed 2 with 0\npacket 1 to 1\n\
     region 0 sealed 3 with 0\npacket 2 to 1\nregion 0 sealed 4 with 0\npacket 3 to 1\n\
     region 0 sealed 5 with 0\npacket 4 to 1\nregion 0 sealed 6 with 0\npacket 5 to 1\n\
     region 0 sealed 7 with 0\npacket 6 to 1\nregion 0 sealed 8 with 0\npacket 7 to 1\n\
     region 0 refused 50 Ahead\nregion 1 sealed 1 with 0\npacket 8 to 0\npacket 8 new\n\
     region 0 published 1 commits 0 aborts 0\nregion 0 sealed 9 with 0\npacket 9 to 1\n",
);

/// A row that is there, and a session and a region that wait.
const REFUSED: (&str, &str) = (
    "sql 0.0 INSERT INTO kv VALUES (-1, 0)\nsql 0.0 SELECT * FROM kv\npublish 0\nseal 0\nseal 1\ndeliver 0 1\n\
     publish 0\nsql 0.1 INSERT INTO kv VALUES (-1, 5)\n",
    "0.0 changed 1 ticket 1.0.0\n0.0 refused 46 Waiting 1.0.0\nregion 0 waiting 1: have 0 of 2\n\
     region 0 sealed 1 with 1\npacket 0 to 1\nregion 1 sealed 1 with 0\npacket 1 to 0\npacket 0 new\npacket 1 new\n\
     region 0 published 1 commits 1 aborts 0\n0.1 refused 30 Duplicate kv(-1)\n",
);

/// Plays a script over memory. The reads and writes of these numbers fail.
fn play(
    alloc: Global,
    script: Vec<u8>,
    reads: &[u64],
    writes: &[u64],
) -> Result<(Status, Vec<u8>), AllocError> {
    let opts = PlayOpts {
        logs: None,
        summary: false,
        last_epoch: LAST_EPOCH,
    };
    let mut src = MemSource::new(script, 100, reads.to_vec(alloc)?);
    let mut out = MemSink::new(alloc, writes.to_vec(alloc)?);
    let mut logs = CleanKeepers::new(alloc, Vec::new(alloc));
    let status = play_call(alloc, &opts, &mut src, &mut out, &mut logs);
    Ok((status, out.bytes().to_vec(alloc)?))
}

/// The bytes of a script with these events behind the header.
fn with_header(alloc: Global, events: &str) -> Result<Vec<u8>, AllocError> {
    let mut bytes = HEADER.as_bytes().to_vec(alloc)?;
    bytes.extend_from_slice(events.as_bytes())?;
    Ok(bytes)
}

#[test]
fn prints_whole_runs(rt: HostRuntime) -> Result<(), Fail> {
    let alloc = rt.alloc();
    for (events, lines) in [INSERT, REPEAT, AHEAD, REFUSED, ("", "")] {
        let (status, text) = play(alloc, with_header(alloc, events)?, &[], &[])?;
        assert_eq!(rt; status, Status::Done, "{events}");
        assert_eq!(rt; text.as_slice(), lines.as_bytes(), "{events}");
    }
    Ok(())
}

#[test]
fn plays_the_examples(rt: HostRuntime) -> Result<(), Fail> {
    let alloc = rt.alloc();
    for (script, lines) in [examples::CONTESTED, examples::REORDERED] {
        let (status, text) = play(alloc, script.as_bytes().to_vec(alloc)?, &[], &[])?;
        assert_eq!(rt; status, Status::Done);
        assert_eq!(rt; text.as_slice(), lines.as_bytes());
    }
    Ok(())
}

#[test]
fn stops_where_reading_or_writing_fails(rt: HostRuntime) -> Result<(), Fail> {
    let alloc = rt.alloc();
    let (events, _) = INSERT;
    let rows: [(&[u64], &[u64], Status, &str); 4] = [
        (&[0], &[], Status::ReadFault, ""),
        (&[2], &[], Status::ReadFault, ""),
        (&[], &[0], Status::WriteFault, ""),
        (
            &[],
            &[2],
            Status::WriteFault,
            "0.0 changed 1 ticket 1.0.0\nregion 0 sealed 1 with 1\npacket 0 to 1\n",
        ),
    ];
    for (reads, writes, want, lines) in rows {
        let (status, text) = play(alloc, with_header(alloc, events)?, reads, writes)?;
        assert_eq!(rt; status, want);
        assert_eq!(rt; text.as_slice(), lines.as_bytes());
    }
    Ok(())
}

#[test]
fn refuses_the_first_bad_line(rt: HostRuntime) -> Result<(), Fail> {
    let alloc = rt.alloc();
    let rows = [
        ("", 1),
        ("geogauss play 2\n", 1),
        (
            "geogauss play 1\nregions 9\ntable kv (k INT KEY, v INT)\nbegin\n",
            2,
        ),
        ("geogauss play 1\nregions 0\n", 2),
        ("geogauss play 1\nregions 1\n", 3),
        (
            "geogauss play 1\nregions 1\ntable kv (k INT KEY, v INT)\nshow 0\n",
            4,
        ),
        (
            "geogauss play 1\nregions 1\ntable kv (k INT KEY, v INT)\nbegin\nshow 0\nshow 1\n",
            6,
        ),
        (
            "geogauss play 1\nregions 1\ntable kv (k INT KEY, v INT)\nbegin\nsql 0.64 SELECT * FROM kv\n",
            5,
        ),
        (
            "geogauss play 1\nregions 1\ntable kv (k INT KEY, v INT)\nbegin\ndeliver 1 0\n",
            5,
        ),
        (
            "geogauss play 1\nregions 1\ntable kv (k INT KEY, v INT)\nbegin\nshow 0",
            5,
        ),
    ];
    for (script, line) in rows {
        let (status, text) = play(alloc, script.as_bytes().to_vec(alloc)?, &[], &[])?;
        let want = Status::ScriptFault {
            line,
            kind: ScriptKind::NotBuilt,
        };
        assert_eq!(rt; status, want, "{script}");
        assert!(rt; text.is_empty());
    }
    Ok(())
}

#[test]
fn refuses_what_is_too_long(rt: HostRuntime) -> Result<(), Fail> {
    let alloc = rt.alloc();
    let (status, text) = play(alloc, vec![in alloc; b'#'; 16_777_217]?, &[], &[])?;
    let want = Status::ScriptFault {
        line: 0,
        kind: ScriptKind::TooLong,
    };
    assert_eq!(rt; status, want);
    assert!(rt; text.is_empty());
    Ok(())
}

#[test]
fn knows_one_word(rt: HostRuntime) -> Result<(), Fail> {
    let alloc = rt.alloc();
    let rows: [(&[&str], Status); 4] = [
        (&["play"], Status::Done),
        (&[], Status::Usage),
        (&["serve"], Status::Usage),
        (&["play", "play"], Status::Usage),
    ];
    for (given, want) in rows {
        let mut words = Vec::new(alloc);
        for word in given {
            words.push(String::from_str(alloc, word)?)?;
        }
        let mut src = CleanSource::new(with_header(alloc, "show 0\n")?, 100);
        let mut out = CleanSink::new(alloc);
        let logs = CleanKeepers::new(alloc, Vec::new(alloc));
        let (status, _) = top(&rt, alloc, &Words::new(words), &mut src, &mut out, logs);
        assert_eq!(rt; status, want);
        assert_eq!(rt; out.bytes().is_empty(), want == Status::Usage);
    }
    Ok(())
}

// The room of the writer is what its buffer is handed on to at the end.
#[test]
fn carries_out_what_a_process_is_given(rt: HostRuntime) -> Result<(), Fail> {
    let alloc = rt.alloc();
    let script = with_header(alloc, "show 0\n")?;
    let lines = b"region 0 at 0\ntable kv 0 rows\n";
    let rows: [(&[&str], usize, Status); 4] = [
        (&["geogauss", "play"], 100, Status::Done),
        (&["geogauss", "play"], 4, Status::WriteFault),
        (&["geogauss"], 100, Status::Usage),
        (&["play"], 100, Status::Usage),
    ];
    for (given, size, want) in rows {
        let mut args = Vec::new(alloc);
        for arg in given {
            args.push(String::from_str(alloc, arg)?)?;
        }
        let mut room = vec![in alloc; 0; size]?;
        let ended = carry_out(
            &rt,
            alloc,
            Ok(args.into_iter()),
            script.as_slice(),
            room.as_mut_slice(),
        );
        let status = ended.status;
        drop(ended);
        assert_eq!(rt; status, want);
        assert_eq!(rt; room.starts_with(lines), want == Status::Done);
    }
    Ok(())
}

#[test]
fn says_how_it_ended(rt: HostRuntime) -> Result<(), Fail> {
    let alloc = rt.alloc();
    let fault = Status::ScriptFault {
        line: 3,
        kind: ScriptKind::NotBuilt,
    };
    let rows = [
        (Status::Done, "done", 0),
        (Status::Usage, "usage: geogauss play", 2),
        (fault, "script fault at line 3: NotBuilt", 3),
        (Status::ReadFault, "read fault", 4),
        (Status::WriteFault, "write fault", 5),
        (Status::NoMemory, "out of memory", 8),
    ];
    for (status, text, number) in rows {
        let said = status.to_string(alloc)?;
        assert_eq!(rt; said.as_str(), text);
        assert_eq!(rt; status.number(), number);
    }
    let faults = [
        (WordFault::Usage, "the words name no command"),
        (WordFault::NoMemory, "out of memory"),
    ];
    for (fault, text) in faults {
        assert_eq!(rt; fault.to_string(alloc)?.as_str(), text);
    }
    Ok(())
}
