// What no clause says: that each call succeeds with ample memory, what a failing call in mid-stream leaves, and
// what passes through readers and writers of std.
use super::*;
use std::io::BufWriter;
use std::test::Fail;

#[test]
fn reads_to_the_end_or_the_limit(rt: HostRuntime) -> Result<(), Fail> {
    let alloc = rt.alloc();
    // the limit, the length of a piece, and how many bytes are read of six
    let rows = [
        (100usize, 4usize, 6usize),
        (6, 1, 6),
        (5, 4, 6),
        (4, 4, 5),
        (0, 100, 1),
    ];
    for (limit, piece, want) in rows {
        assert!(rt; 0 < piece && limit < 1000);
        let mut source = CleanSource::new(b"abcdef".to_vec(alloc)?, piece);
        let bytes = read_limited(alloc, &mut source, limit)?;
        assert_eq!(rt; bytes.len(), want, "at {limit}");
    }
    let mut reader = StdSource::new(b"abcdef".as_slice());
    let bytes = read_limited(alloc, &mut reader, 100)?;
    assert_eq!(rt; bytes.as_slice(), b"abcdef".as_slice());
    Ok(())
}

#[test]
fn a_read_that_failed_takes_nothing(rt: HostRuntime) -> Result<(), Fail> {
    let alloc = rt.alloc();
    let mut source = MemSource::new(b"abcdef".to_vec(alloc)?, 4, [1, 3].to_vec(alloc)?);
    assert_eq!(rt;
        read_limited(alloc, &mut source, 100).err(),
        Some(IoFault::Failed)
    );
    let mut block = [0; 8];
    assert_eq!(rt; source.read(&mut block), Ok(2));
    assert_eq!(rt; block, *b"ef\0\0\0\0\0\0");
    assert_eq!(rt; source.read(&mut block), Err(Failed));
    assert_eq!(rt; source.read(&mut block), Ok(0));
    Ok(())
}

#[test]
fn a_write_that_failed_adds_nothing(rt: HostRuntime) -> Result<(), Fail> {
    let alloc = rt.alloc();
    let mut sink = MemSink::new(alloc, [1].to_vec(alloc)?);
    let fails = Err(IoFault::Failed);
    for (piece, want) in [(*b"ab", Ok(())), (*b"cd", fails), (*b"ef", Ok(()))] {
        assert_eq!(rt; write_whole(&mut sink, &piece), want);
    }
    assert_eq!(rt; sink.bytes(), b"abef".as_slice());
    Ok(())
}

#[test]
fn a_clean_sink_holds_all(rt: HostRuntime) -> Result<(), Fail> {
    let mut sink = CleanSink::new(rt.alloc());
    write_whole(&mut sink, b"abc")?;
    assert_eq!(rt; sink.bytes(), b"abc".as_slice());
    Ok(())
}

// A writer that has room for four bytes takes no more.
#[test]
fn a_full_writer_has_failed(rt: HostRuntime) {
    let mut room = [0; 4];
    let mut writer = StdSink::new(room.as_mut_slice());
    assert_eq!(rt; write_whole(&mut writer, b"abcdef"), Err(IoFault::Failed));
    assert_eq!(rt; room, *b"abcd");
}

// What a buffer held back fails when it is handed on.
#[test]
fn a_fault_is_seen_at_the_flush(rt: HostRuntime) -> Result<(), Fail> {
    let mut room = [0; 4];
    let mut writer = StdSink::new(BufWriter::new(rt.alloc(), room.as_mut_slice())?);
    write_whole(&mut writer, b"abcdef")?;
    assert_eq!(rt; writer.flush(), Err(Failed));
    Ok(())
}

#[test]
fn keeps_what_is_appended(rt: HostRuntime) -> Result<(), Fail> {
    let alloc = rt.alloc();
    let entry = ByteList::new(b"first".to_vec(alloc)?);
    let given = vec![in alloc; Entries::new(vec![in alloc; entry]?)]?;
    let mut keepers = CleanKeepers::new(alloc, given);
    assert_eq!(rt; keepers.append(0, b"second"), Ok(()));
    assert_eq!(rt; keepers.append(7, b"third"), Ok(()));
    assert_eq!(rt; keepers.len(0), Ok(2));
    assert_eq!(rt; keepers.len(6), Ok(0));
    let bytes = keepers.read(alloc, 0, 1)?;
    assert_eq!(rt; bytes.as_slice(), b"second".as_slice());
    let lists = keepers.lists();
    assert_eq!(rt; lists.len(), 8);
    assert_eq!(rt; lists[7].items().len(), 1);
    assert_eq!(rt; lists[7].items()[0].items(), b"third".as_slice());
    Ok(())
}
