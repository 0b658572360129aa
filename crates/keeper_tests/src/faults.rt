//! Keepers over files of which some calls fail: each fault is answered once, what is told next is what the file
//! has, and what is told to be done stands on the disk.

use crate::asking::entries;
use crate::failing::{FailingFiles, Trouble};
use crate::scratch::{make_folder, write_log};
use geo_io::{FolderKeepers, Keepers};
use std::alloc::Global;
use std::fs;
use std::io::ErrorKind;
use std::test::Fail;

// What keepers over a file in trouble have answered.
#[derive(Drop)]
struct Seen<'a> {
    trouble: &'a Trouble,
    // how many answers were faults
    faults: u64,
    // whether all stood on the disk after each call that was no fault
    synced: bool,
    // the entries that were told to be kept
    kept: &'a mut String,
}

impl Seen<'_> {
    // Takes down an answer, which was a fault or not.
    fn note(&mut self, done: bool) {
        if done {
            self.synced = self.synced && self.trouble.is_synced();
        } else {
            self.faults = self.faults.saturating_add(1);
        }
    }
}

fn ask(
    alloc: Global,
    keepers: &mut FolderKeepers<FailingFiles<'_>>,
    seen: &mut Seen<'_>,
) -> Option<Vec<u8>> {
    let told = entries(alloc, keepers, 0).ok();
    seen.note(told.is_some());
    told
}

// Appends an entry, and takes it down with its bar where it is kept.
fn append(
    keepers: &mut FolderKeepers<FailingFiles<'_>>,
    seen: &mut Seen<'_>,
    entry: &str,
    with_bar: &str,
) -> Option<()> {
    let done = keepers.append(0, entry.as_bytes()).is_ok();
    seen.note(done);
    if done {
        seen.kept.push_str(with_bar).ok()?;
    }
    Some(())
}

// Asks for the entries, appends three more, and asks for the entries again until they are told.
fn tell(
    alloc: Global,
    keepers: &mut FolderKeepers<FailingFiles<'_>>,
    seen: &mut Seen<'_>,
) -> Option<Vec<u8>> {
    drop(ask(alloc, keepers, seen));
    for (entry, with_bar) in [("one", "one|"), ("", "|"), ("three", "three|")] {
        append(keepers, seen, entry, with_bar)?;
    }
    for _ in 0..4 {
        let told = ask(alloc, keepers, seen);
        if told.is_some() {
            return told;
        }
    }
    None
}

// What keepers tell in the end over a file in trouble.
fn told_in(rt: &HostRuntime, folder: &str, seen: &mut Seen<'_>) -> Option<Vec<u8>> {
    let files = FailingFiles {
        rt,
        trouble: seen.trouble,
    };
    let folder_of = String::from_str(rt.alloc(), folder).ok()?;
    let mut keepers = FolderKeepers::new(files, rt.alloc(), folder_of);
    let told = tell(rt.alloc(), &mut keepers, seen);
    drop(keepers);
    told
}

// What other keepers tell over the file.
fn left_in(rt: &HostRuntime, folder: &str) -> Option<Vec<u8>> {
    let folder_of = String::from_str(rt.alloc(), folder).ok()?;
    let mut keepers = FolderKeepers::new(rt.clone().ok()?, rt.alloc(), folder_of);
    let left = entries(rt.alloc(), &mut keepers, 0);
    drop(keepers);
    left.ok()
}

// What was told is what was kept and what is left in the file, and all of it where nothing was a fault.
fn is_right(seen: &Seen<'_>, told: &[u8], left: &[u8]) -> bool {
    let kept = seen.kept.as_bytes();
    let all = seen.faults > 0 || kept == b"old|one||three|".as_slice();
    seen.synced && told == kept && told == left && all
}

// How many calls on files failed, how many answers were faults, and whether all that was told is right.
#[derive(Clone, Copy)]
struct Played {
    failed: u64,
    faults: u64,
    right: bool,
}

fn play(rt: &HostRuntime, folder: &str, trouble: &Trouble) -> Option<Played> {
    let mut kept = String::from_str(rt.alloc(), "old|").ok()?;
    let mut seen = Seen {
        trouble,
        faults: 0,
        synced: true,
        kept: &mut kept,
    };
    let told = told_in(rt, folder, &mut seen)?;
    let left = left_in(rt, folder)?;
    Some(Played {
        failed: trouble.failed(),
        faults: seen.faults,
        right: is_right(&seen, &told, &left),
    })
}

// The play over this file, in a folder of its own.
fn play_over(rt: &HostRuntime, file: &[u8], trouble: &Trouble) -> Result<Played, Fail> {
    let folder = make_folder(rt)?;
    write_log(rt, &folder, 0, file)?;
    let played = play(rt, &folder, trouble);
    fs::remove_dir_all(rt, folder.as_str())?;
    Ok(played.ok_or("entries that are never told")?)
}

// Plays in which so many calls fail, from each call on in turn, up to the play in which none does. It answers the
// number of that play, or at which call something goes wrong.
fn play_each(
    rt: &HostRuntime,
    file: &[u8],
    fails: u64,
    kind: ErrorKind,
) -> Result<Result<u64, u64>, Fail> {
    for call in 0..1000 {
        let played = play_over(rt, file, &Trouble::new(call, fails, kind))?;
        let faults = if kind == ErrorKind::Interrupted {
            0
        } else {
            played.failed
        };
        if !played.right || played.faults != faults {
            return Ok(Err(call));
        }
        if played.failed == 0 {
            return Ok(Ok(call));
        }
    }
    Err("a call that fails in each play".into())
}

// A file of one entry, and one that has the beginning of another behind it.
const WHOLE: &[u8] = b"\0\0\0\x03old";

const CUT: &[u8] = b"\0\0\0\x03old\0\0\0\x07cut";

// Each call in turn, and with it the next one or the next two.
#[test]
fn a_call_that_fails_is_a_fault_once(rt: HostRuntime) -> Result<(), Fail> {
    for (file, fails) in [
        (WHOLE, 1),
        (WHOLE, 2),
        (WHOLE, 3),
        (CUT, 1),
        (CUT, 2),
        (CUT, 3),
    ] {
        let played = play_each(&rt, file, fails, ErrorKind::Other)?;
        assert!(rt;
            played.is_ok_and(|plays| plays > 31),
            "{fails} at {played:?}"
        );
    }
    Ok(())
}

#[test]
fn an_interrupted_call_is_made_again(rt: HostRuntime) -> Result<(), Fail> {
    let played = play_each(&rt, CUT, 1, ErrorKind::Interrupted)?;
    assert!(rt; played.is_ok_and(|plays| plays > 11), "at {played:?}");
    Ok(())
}
